// Declares what is kept of a table that was read, and the parts of a model that are handed out.

// Bounds a clock at a location. The byte of the comparison is 0 for < and 1 for <= (`Comparison`).
#[derive(Clone, Copy, Debug, PartialEq, Eq)]
pub struct Invariant {
    pub location: u8,
    pub clock: u8,
    pub comparison: u8,
    pub constant: u8,
}

// Guards an edge. The byte of the comparison is one of `Comparison` in a table that was read.
#[derive(Clone, Copy, Debug, PartialEq, Eq)]
pub struct Guard {
    pub clock: u8,
    pub comparison: u8,
    pub constant: u8,
}

// Leads to a location. In the mask bit 0 is clock 0, and a set bit resets that clock.
#[derive(Clone, Copy, Debug, PartialEq, Eq)]
pub struct Branch {
    pub weight: usize,
    pub target: u8,
    pub mask: u8,
}

// Keeps an accepted table's counts, and where its parts begin. The model itself stays in the table's bytes.
#[derive(Clone, Copy, Debug, PartialEq, Eq)]
pub struct Shape {
    pub clocks: u8,
    pub locations: u8,
    pub initial: u8,
    pub invariants: usize,
    pub edges: usize,
    pub first_location: usize,
    pub first_invariant: usize,
    pub first_edge: usize,
}

// Holds what the edge list has of an edge: source, action and denominator together. Eight bytes, so that a list of 128 takes 1 KB.
#[derive(Clone, Copy, Debug, Default, PartialEq, Eq)]
pub struct Edge {
    pub source: u8,
    pub action: u8,
    pub denominator: u32,
}
