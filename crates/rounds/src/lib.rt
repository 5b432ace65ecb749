// The partition layer, in between: the rounds over a finite structure in slices, its blocks and their numbers, and judging a proposal.
#![tactic(auto)]

mod changes;
mod joins;
mod judging;
mod kins;
mod links;
mod names;
mod numbering;
mod rounds;

pub use judging::judge;
pub use rounds::{Counted, number_lists};

// Bounds the items of a graph.
const MOST_ITEMS: usize = 4096;

// Bounds the edges of a graph.
const MOST_EDGES: usize = 128;

// Counts what the shelf of a comparison has: a code for each edge, and the item that they are of.
const SHELF: usize = 129;
