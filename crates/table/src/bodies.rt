// Reads the bodies of records.
ghost use Rattle.std.specs.Prelude.{◌<◌, ◌≡◌, eqb, length};
ghost use Rattle.table.specs.Format.{two_bytes};
ghost use Rattle.table.specs.Codes.{kind_code};
ghost use Rattle.table.specs.Records.{kind_at, body_at, invariant_of, guard_of, branch_of};
ghost use Rattle.table.specs.Access.{edge_with};

use crate::codes::Kind;
use crate::model::{Branch, Edge, Guard, Invariant};

// Holds the four bytes after a record's kind, 0 past the table's end.
#[derive(Clone, Copy, Default)]
pub(crate) struct Body {
    pub a: u8,
    pub b: u8,
    pub c: u8,
    pub d: u8,
}

// Joins two bytes, of which the low one comes first.
fn two_bytes(low: u8, high: u8) -> u16
    ensures { result ≡ two_bytes low high }
{
    u16::from_le_bytes([low, high])
}

// Tells whether a record of a kind begins at a place.
pub(crate) fn is_kind(table: &[u8], at: usize, kind: Kind) -> bool
    ensures { result ≡ eqb (kind_at table.now at) (kind_code kind) }
{
    slices::at(table, at, 0) == kind.code()
}

// Returns the four bytes after the kind of the record at a place.
#[tactic(auto, unfolding(crate::specs::Records::body_at))]
pub(crate) fn body_at(table: &[u8], at: usize) -> Body
    requires { at < length table.now }
    ensures { result ≡ body_at table.now at }
{
    Body {
        a: slices::at(table, at + 1, 0),
        b: slices::at(table, at + 2, 0),
        c: slices::at(table, at + 3, 0),
        d: slices::at(table, at + 4, 0),
    }
}

impl Body {
    pub(crate) fn invariant(self) -> Invariant
        ensures { result ≡ invariant_of self }
    {
        Invariant {
            location: self.a,
            clock: self.b,
            comparison: self.c,
            constant: self.d,
        }
    }

    // Returns the edge as the edge list holds it.
    pub(crate) fn edge(self) -> Edge
        ensures { result ≡ edge_with self }
    {
        Edge {
            source: self.a,
            action: self.b,
            denominator: u32::from(two_bytes(self.c, self.d)),
        }
    }

    pub(crate) fn guard(self) -> Guard
        ensures { result ≡ guard_of self }
    {
        Guard {
            clock: self.a,
            comparison: self.b,
            constant: self.c,
        }
    }

    pub(crate) fn branch(self) -> Branch
        ensures { result ≡ branch_of self }
    {
        Branch {
            weight: usize::from(two_bytes(self.a, self.b)),
            target: self.c,
            mask: self.d,
        }
    }
}
