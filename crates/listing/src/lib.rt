// The listing layer: the printed model, in parts.
#![tactic(auto)]

mod blocks;
mod labels;
mod lines;
mod parts;
mod steps;

pub use parts::{Part, refusal_line, write_part};
