// The region layer: guards, the region graph, and the graph for the layer above.
#![tactic(auto)]

mod bounds;
mod call;
mod classes;
mod edges;
mod entry;
mod explore;
mod guards;
mod index;
mod limits;
mod marks;
mod moves;
mod prepared;
mod reach;
mod rows;
mod shown;
mod sight;
mod view;

pub use call::explore_table;
pub use clocks::{Bounds, Region};
pub use shown::{GraphMut, show_graph};
pub use sight::{Seen, check_table, entry_at, label_locations, show_region};
pub use table::{Reason, Refusal};
pub use view::{bounds_read, edge_count};
