// The partition layer: the partition call, the pair call and the judging call, over the graph in slices. For the layer above: one
// region by itself.
#![tactic(auto)]

mod calls;
mod room;
mod view;

pub use calls::{Reduction, judge_table, pair_table, reduce_table};
pub use regions::{Reason, Refusal, Region, Seen, check_table, entry_at, label_locations};
pub use view::show_item;
