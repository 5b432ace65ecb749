// Says why a table or a call is refused.
ghost use Rattle.std.specs.Prelude.{◌≡◌};
ghost use Rattle.table.specs.Reasons.{number, refusal_at};

// Names the reasons in the order of their numbers: those up to `TrailingBytes` are of a table, and the others of a call.
#[derive(Clone, Copy, Debug, PartialEq, Eq, PartialOrd, Ord)]
pub enum Reason {
    TooLong = 1,
    Missing,
    UnknownKind,
    CutShort,
    OutOfOrder,
    BadHeader,
    UnknownName,
    UnknownComparison,
    LargeConstant,
    BadWeight,
    TooMany,
    UnequalWeights,
    TrailingBytes,
    BrokenStart,
    TooManyRegions,
    ShortList,
    WrongLength,
    NoBisimulation,
    UnknownRegion,
    BadState,
    Unreached,
}

// Joins a reason with the place where the refused record begins, or 0.
#[derive(Clone, Copy, Debug, PartialEq, Eq, PartialOrd, Ord)]
pub struct Refusal {
    pub reason: Reason,
    pub place: usize,
}

impl Reason {
    // Returns the number that stands for the reason.
    pub fn number(self) -> u8
        ensures { result ≡ number self }
    {
        self as u8
    }

    // Returns the refusal for this reason at a place.
    pub fn at(self, place: usize) -> Refusal
        ensures { result ≡ refusal_at self place }
    {
        Refusal {
            reason: self,
            place,
        }
    }
}
