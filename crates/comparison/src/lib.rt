// The partition layer, beneath: comparing two items of a finite structure in slices under a block list. The test of the next round, what
// is plainly alike, and keys that part items without a comparison. For the crate of the rounds above: reading slices, available edges
// and targets.
#![tactic(auto)]

mod codes;
mod compare;
mod held;
mod keys;
mod next;
mod numbers;
mod shares;
#[cfg(test)]
mod tests;
mod twins;

pub use held::Graph;
pub use keys::forget_keys;
pub use numbers::{at16, at64, index_at, is_clear, is_set};
