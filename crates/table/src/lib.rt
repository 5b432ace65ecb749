// The table layer: reads a model table, refuses it by reason and place, and hands out its parts.
#![tactic(auto)]

mod access;
mod bodies;
mod codes;
mod edges;
mod format;
mod model;
mod reading;
mod records;
mod refusals;

pub use access::{
    Branches, branch_at, branch_count, guard_at, guard_count, invariant_at, label_at, resets,
};
pub use codes::Comparison;
pub use edges::{edge_of, list_edges, list_places};
pub use model::{Branch, Edge, Guard, Invariant, Shape};
pub use reading::read;
pub use refusals::{Reason, Refusal};
