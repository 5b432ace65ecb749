// The totals at the foot of the listing.
#![tactic(auto)]

mod totals;

pub use totals::put_totals;
