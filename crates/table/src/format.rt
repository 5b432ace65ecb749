// Sets the limits of the format.

pub(crate) const MAX_BYTES: usize = 16384;

pub(crate) const MAX_CLOCKS: u8 = 4;

pub(crate) const MAX_LOCATIONS: u8 = 64;

pub(crate) const MAX_CONSTANT: u8 = 15;

pub(crate) const MAX_DENOMINATOR: u32 = 60000;

pub(crate) const MAX_INVARIANTS: usize = 128;

pub(crate) const MAX_EDGES: usize = 128;

// To an edge.
pub(crate) const MAX_GUARDS: usize = 8;

pub(crate) const MAX_BRANCHES: usize = 8;
