// Signatures of the regions of a graph over names of blocks.
#![tactic(auto)]

mod dictionary;
mod memo;
mod mixing;
mod pass;
mod sets;
mod shares;
mod signature;
mod steps;

pub use signature::{INDEX, MEMO, NUMBERS, sign};
