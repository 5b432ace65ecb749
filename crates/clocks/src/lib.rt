// The region layer, beneath: one region by itself, with its delay, its reset and what an atom says of it.
#![tactic(auto)]

mod clock;
mod region;

pub use clock::{Clock, OVER};
pub use region::{Bounds, Region};
