// The region layer, above: states, and the state call.
#![tactic(auto)]

mod state;
mod states;

pub use states::place_state;
