// A graph of regions in two lent slices: total readers, and writers. It knows neither clocks nor bisimulations.
#![tactic(auto)]

mod classes;
mod columns;
mod edges;
mod index;
mod locations;
mod regions;
mod slots;

pub use classes::{
    class_head, class_link, delay_class, reset_class, reset_mask, reset_number, reset_source,
    source_head, source_link, store_class, store_class_delay, store_reset,
};
pub use columns::{EDGES, LONG, MIDDLE, SHORT};
pub use edges::{
    action_of, branch_count, branch_slot, denominator_of, high_of, low_of, store_branch_count,
    store_branch_slot, store_edge, store_weight,
};
pub use index::{landing_of, region_at, store_region};
pub use locations::{
    edge_at, edge_count, edge_start, label_of, slot_count, slot_start, store_edge_number,
    store_edge_start, store_label, store_slot_start,
};
pub use regions::{
    available_count, available_word, bit_of, class_of, clear_available, delay_of, is_available,
    location_of, mark_available, store_available_count, store_delay, store_location,
};
pub use slots::{key_head, key_link, slot_location, slot_mask, slot_target, store_slot};
