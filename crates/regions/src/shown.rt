// The graph call for the layer above: it explores, and stores the graph in slices.
ghost use Rattle.std.specs.Prelude.{◌*◌, ◌≤◌, ◌≡◌, ◌↔◌, IsTrue, List, length};
ghost use Rattle.table.specs.Model.{Model};
ghost use Rattle.table.specs.Reading.{read_table, accepted};
ghost use Rattle.regions.specs.Of.{Of};
ghost use Rattle.regions.specs.Entries.{entry_bytes, max_entries};
ghost use Rattle.regions.specs.Explore.{listed, regions_of};
ghost use Rattle.regions.specs.Call.{room_for, whole, from_answer, outcome_of, graph_of, entries_after};
ghost use Rattle.regions.specs.Shown.{ShownIn, RoomyIn, SameSlices, SameLengths, Unchanged};
ghost use Rattle.regions.specs.Order.{AllRegions};
ghost use Rattle.clocks.specs.declared.region.Region.{Region};

use crate::call::graph_of;
use crate::classes::show_targets;
use crate::entry::{ENTRY_BYTES, MAX_ENTRIES};
use crate::index::{Links, Listed};
use crate::moves::{link_all, show_flags, show_labels, show_nexts};
use crate::prepared::Prepared;
use crate::rows::show_rows;
use table::Refusal;

// The slices of a graph: for each region its label, its delay region and its available edges; for each edge its row; and where branches
// lead.
#[derive(Drop)]
pub struct GraphMut<'a> {
    pub labels: &'a mut [u16],
    pub nexts: &'a mut [u16],
    pub flags: &'a mut [u8],
    pub resets: &'a mut [u16],
    pub spots: &'a mut [u16],
    pub rows: &'a mut [u16],
}

impl GraphMut<'_> {
    // Whether the slices have room for a graph of 4,096 regions and 128 edges.
    fn is_roomy(&self) -> bool
        ensures { IsTrue result ↔ RoomyIn self.now }
    {
        MAX_ENTRIES <= self.labels.len()
            && MAX_ENTRIES <= self.nexts.len()
            && MAX_ENTRIES * 128 <= self.flags.len()
            && MAX_ENTRIES * 16 <= self.resets.len()
            && MAX_ENTRIES * 64 <= self.spots.len()
            && 128 * 32 <= self.rows.len()
    }
}

// Whether there are n entries, of 4,096 at most.
fn has_entries(n: usize, bytes: usize) -> bool
    ensures { IsTrue result ↔ (n ≤ max_entries) × (entry_bytes * n ≤ bytes) }
{
    n <= MAX_ENTRIES && ENTRY_BYTES * n <= bytes
}

// Fills all slices from the regions of a graph.
fn show_listed(model: &Prepared, found: Listed, graph: &mut GraphMut)
    requires { RoomyIn graph.old }
    ensures same_slices { SameSlices graph.old graph.new }
    ensures lengths { SameLengths graph.old graph.new }
    ensures shown { (m : Model) → Of model.now m
        → AllRegions m (regions_of found.entry)
        → ShownIn m (regions_of found.entry) graph.new }
{
    show_labels(model, found, graph.labels);
    show_nexts(model, found, graph.nexts);
    show_flags(model, found, graph.flags);
    let rows = &mut *graph.rows;
    show_rows(model, rows);
    show_targets(
        model.bounds,
        found,
        rows,
        model.edge_count(),
        graph.resets,
        graph.spots,
    );
}

// Fills all slices from the first n entries, where there is room; else they stay.
fn show_found(model: &Prepared, entries: &[u8], n: usize, graph: &mut GraphMut)
    ensures same_slices { SameSlices graph.old graph.new }
    ensures lengths { SameLengths graph.old graph.new }
    ensures shown { (m : Model) → Of model.now m → AllRegions m (listed entries.now n)
        → n ≤ max_entries → entry_bytes * n ≤ length entries.now → RoomyIn graph.old
        → ShownIn m (listed entries.now n) graph.new }
    ensures labels_unchanged { (RoomyIn graph.old → ⊥) → Unchanged graph.old graph.new }
{
    if graph.is_roomy() && has_entries(n, entries.len()) {
        let mut links = Links::new();
        link_all(entries, n, &mut links);
        let found = Listed {
            entries,
            links: &links,
        };
        show_listed(model, found, graph);
    }
}

// Explores the regions of a model into the lent entries, and stores its graph.
fn show_read(model: &Prepared, entries: &mut [u8], graph: &mut GraphMut) -> Result<usize, Refusal>
    ensures same_slices { SameSlices graph.old graph.new }
    ensures lengths { SameLengths graph.old graph.new }
    ensures value { (m : Model) → Of model.now m
        → (result ≡ graph_of (from_answer (room_for (length entries.old)) (accepted m)))
        × (entries.new ≡ entries_after entries.old (from_answer (room_for (length entries.old)) (accepted m))) }
    ensures shown { (m : Model) (found : List Region) → Of model.now m
        → from_answer (room_for (length entries.old)) (accepted m) ≡ whole found
        → RoomyIn graph.old → ShownIn m found graph.new }
    ensures labels_unchanged { (m : Model) → Of model.now m
        → ((found : List Region) → from_answer (room_for (length entries.old)) (accepted m) ≡ whole found
        → RoomyIn graph.old → ⊥)
        → Unchanged graph.old graph.new }
{
    let n = graph_of(model, entries)?;
    show_found(model, entries, n, graph);
    Ok(n)
}

// Explores the regions of a table into the lent entries, and stores the graph in the slices, where N is answered and all of them are
// long enough; else they stay.
pub fn show_graph(bytes: &[u8], entries: &mut [u8], graph: &mut GraphMut) -> Result<usize, Refusal>
    ensures same_slices { SameSlices graph.old graph.new }
    ensures lengths { SameLengths graph.old graph.new }
    ensures value { result ≡ graph_of (outcome_of bytes.now (room_for (length entries.old))) }
    ensures entries_after { entries.new
        ≡ entries_after entries.old (outcome_of bytes.now (room_for (length entries.old))) }
    ensures shown { (m : Model) (found : List Region) → read_table bytes.now ≡ accepted m
        → outcome_of bytes.now (room_for (length entries.old)) ≡ whole found
        → RoomyIn graph.old → ShownIn m found graph.new }
    ensures labels_unchanged { ((found : List Region) → outcome_of bytes.now (room_for (length entries.old)) ≡ whole found
        → RoomyIn graph.old → ⊥)
        → Unchanged graph.old graph.new }
{
    let shape = table::read(bytes)?;
    show_read(&Prepared::new(bytes, shape), entries, graph)
}
