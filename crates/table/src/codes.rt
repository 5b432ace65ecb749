// Reads what bytes of a table stand for: the kinds of records, and the comparisons of atoms.
ghost use Rattle.std.specs.Prelude.{◌≡◌, ◌<◌};
ghost use Rattle.table.specs.Format.{body_length};
ghost use Rattle.table.specs.Codes.{DecodesKind, DecodesComparison, kind_code};

use crate::refusals::Reason;

// Names the kinds of records. The number of each is the byte that stands for it.
#[derive(Clone, Copy, Debug, PartialEq, Eq)]
pub(crate) enum Kind {
    Header = 1,
    Location,
    Invariant,
    Edge,
    Guard,
    Branch,
    End,
}

// Says how an atom compares a clock with its constant, in the order of the bytes from 0 on. An atom of an invariant has one of the
// first two.
#[derive(Clone, Copy, Debug, PartialEq, Eq)]
pub enum Comparison {
    Less,
    AtMost,
    Greater,
    AtLeast,
    Equal,
}

// Gives the length of a record's body, by its kind. There is no kind 0.
const BODY_LENGTHS: [usize; 8] = [0, 3, 1, 4, 4, 3, 4, 0];

// Gives the length of a branch's record: its kind and its body.
pub(crate) const BRANCH_BYTES: usize = 1 + BODY_LENGTHS[Kind::Branch as usize];

impl Kind {
    // Returns the byte that stands for the kind.
    pub(crate) fn code(self) -> u8
        ensures { result ≡ kind_code self }
    {
        self as u8
    }
}

// Returns how long the body is in a record that begins with a byte, and 0 where it stands for no kind.
pub(crate) fn body_length(byte: u8) -> usize
    ensures { (result ≡ body_length byte) × (result < 5) }
{
    slices::at(&BODY_LENGTHS, usize::from(byte), 0)
}

impl TryFrom<u8> for Kind {
    type Error = Reason;

    ghost try_from_gives = { DecodesKind };

    fn try_from(byte: u8) -> Result<Self, Reason> {
        match byte {
            1 => Ok(Kind::Header),
            2 => Ok(Kind::Location),
            3 => Ok(Kind::Invariant),
            4 => Ok(Kind::Edge),
            5 => Ok(Kind::Guard),
            6 => Ok(Kind::Branch),
            7 => Ok(Kind::End),
            _ => Err(Reason::UnknownKind),
        }
    }
}

impl TryFrom<u8> for Comparison {
    type Error = Reason;

    ghost try_from_gives = { DecodesComparison };

    fn try_from(byte: u8) -> Result<Self, Reason> {
        match byte {
            0 => Ok(Comparison::Less),
            1 => Ok(Comparison::AtMost),
            2 => Ok(Comparison::Greater),
            3 => Ok(Comparison::AtLeast),
            4 => Ok(Comparison::Equal),
            _ => Err(Reason::UnknownComparison),
        }
    }
}
