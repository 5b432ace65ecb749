// What every call answers: numbers only. What does not apply is 0. Where nothing is refused, only the part call and that for the line of
// a refusal use the place, for the bytes that a short buffer lacks room for.
ghost use Rattle.std.specs.Prelude.{◌≡◌, MatchResult};
ghost use Rattle.terkwabu.specs.Answers.{of_refusal, told_number, told_counts, told_sharing, told_acceptance, told_part};

use listing::Part;
use partition::{Reduction, Refusal};

// `refusal` is 0 where nothing is refused.
#[repr(C)]
#[derive(Clone, Copy, Debug, Default, PartialEq, Eq)]
pub struct Answer {
    pub refusal: u64,
    pub place: u64,
    pub value: u64,
    pub blocks: u64,
    pub rounds: u64,
}

impl From<Refusal> for Answer {
    ghost from_gives = { λ refusal answer. answer ≡ of_refusal refusal };

    fn from(refusal: Refusal) -> Answer {
        Answer {
            refusal: u64::from(refusal.reason.number()),
            place: refusal.place as u64,
            ..Answer::default()
        }
    }
}

// N of the graph call, or the number of a region.
impl From<usize> for Answer {
    ghost from_gives = { λ n answer. answer ≡ told_number n };

    fn from(n: usize) -> Answer {
        Answer {
            value: n as u64,
            ..Answer::default()
        }
    }
}

impl From<Reduction> for Answer {
    ghost from_gives = { λ counts answer. answer ≡ told_counts counts };

    fn from(counts: Reduction) -> Answer {
        Answer {
            value: counts.regions as u64,
            blocks: counts.blocks,
            rounds: counts.rounds,
            ..Answer::default()
        }
    }
}

// Whether two regions share a block: 1 where they do.
impl From<bool> for Answer {
    ghost from_gives = { λ holds answer. answer ≡ told_sharing holds };

    fn from(holds: bool) -> Answer {
        Answer {
            value: u64::from(holds),
            ..Answer::default()
        }
    }
}

// Acceptance.
impl From<()> for Answer {
    ghost from_gives = { λ done answer. answer ≡ told_acceptance done };

    fn from(_done: ()) -> Answer {
        Answer {
            value: 1,
            ..Answer::default()
        }
    }
}

impl From<Part> for Answer {
    ghost from_gives = { λ part answer. answer ≡ told_part part };

    fn from(part: Part) -> Answer {
        match part {
            Part::Written(k) => Answer {
                value: k as u64,
                ..Answer::default()
            },
            Part::Short(k) => Answer {
                place: k as u64,
                ..Answer::default()
            },
            Part::End => Answer::default(),
        }
    }
}

impl<T: Into<Answer>> From<Result<T, Refusal>> for Answer {
    ghost from_gives = { λ outcome answer. MatchResult outcome (λ x. T.converts x answer) (λ refusal. answer ≡ of_refusal refusal) };

    fn from(outcome: Result<T, Refusal>) -> Answer {
        match outcome {
            Ok(x) => x.into(),
            Err(refusal) => refusal.into(),
        }
    }
}
