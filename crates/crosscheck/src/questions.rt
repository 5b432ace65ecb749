// What a case asks of its table: it stands between the head of the case and the table.
ghost use Rattle.std.specs.Prelude.{◌≤◌};

use crate::source::{Source, Stop, at_most};
use std::io::Read;

// The most numbers of a lent list.
pub(crate) const MOST_NUMBERS: usize = 4200;

// As many regions as a table may have: so long are the lists of a listing.
const MOST_REGIONS: usize = 4096;

// A state: a location, and the values of the four clocks over a denominator.
#[derive(Clone, Copy)]
pub(crate) struct State {
    pub location: u64,
    pub values: [u64; 4],
    pub denominator: u64,
}

impl State {
    fn read<R: Read>(source: &mut Source<R>) -> Result<State, Stop> {
        Ok(State {
            location: source.eight_bytes()?,
            values: [
                source.eight_bytes()?,
                source.eight_bytes()?,
                source.eight_bytes()?,
                source.eight_bytes()?,
            ],
            denominator: source.eight_bytes()?,
        })
    }
}

// How many numbers the two lent lists have.
#[derive(Clone, Copy)]
pub(crate) struct Lengths {
    pub first: usize,
    pub second: usize,
    ghost in_bounds: { (first ≤ 4200) × (second ≤ 4200) },
}

impl Lengths {
    fn both(numbers: usize) -> Lengths
        requires { numbers ≤ MOST_NUMBERS }
    {
        Lengths {
            first: numbers,
            second: numbers,
        }
    }

    fn read<R: Read>(source: &mut Source<R>) -> Result<Lengths, Stop> {
        Ok(Lengths {
            first: at_most(source.four_bytes()?, MOST_NUMBERS)?,
            second: at_most(source.four_bytes()?, MOST_NUMBERS)?,
        })
    }
}

// The graph of the table, where a state lies in it, its blocks, whether two regions share a block, whether a proposal holds, or the
// listing: calls 2 to 7.
#[derive(Clone, Copy)]
pub(crate) enum Question {
    Graph,
    Place(State),
    Blocks(Lengths),
    Pair { lengths: Lengths, r: u64, s: u64 },
    Proposal(Lengths),
    Listing,
}

impl Question {
    // The question of a call, from what follows the head of its case.
    pub(crate) fn read<R: Read>(call: u8, source: &mut Source<R>) -> Result<Question, Stop> {
        Ok(match call {
            2 => Question::Graph,
            3 => Question::Place(State::read(source)?),
            4 => Question::Blocks(Lengths::read(source)?),
            5 => Question::Pair {
                lengths: Lengths::read(source)?,
                r: source.eight_bytes()?,
                s: source.eight_bytes()?,
            },
            6 => Question::Proposal(Lengths::read(source)?),
            7 => Question::Listing,
            _ => return Err(Stop::Unknown),
        })
    }

    // The lengths of the lists that are lent to the call.
    pub(crate) fn lengths(self) -> Lengths {
        match self {
            Question::Graph | Question::Place(_) => Lengths::both(0),
            Question::Blocks(lengths) | Question::Proposal(lengths) => lengths,
            Question::Pair { lengths, .. } => lengths,
            Question::Listing => Lengths::both(MOST_REGIONS),
        }
    }
}
