// What a prepared model has of each location: its label, its edges by rank, its slots.
ghost use Rattle.std.specs.Prelude.{ℕ, ◌<◌, ◌≡◌};
ghost use Rattle.graph.specs.Readers.{label_of, edge_start, edge_count, edge_at, slot_start, slot_count};
ghost use Rattle.graph.specs.Writers.{with_label, with_edge_start, with_edge_number, with_slot_start};

use crate::columns::{EDGE_NUMBERS, EDGE_STARTS, LABELS, SLOT_STARTS};

// Returns the label of a location.
#[tactic(auto, unfolding(crate::specs::Readers::label_of))]
pub fn label_of(graph: &[u16], location: usize) -> usize
    ensures { (result ≡ label_of graph.now location) × (result < 65536) }
{
    LABELS.get(graph, location)
}

// Returns where the edges of a location begin.
#[tactic(auto, unfolding(crate::specs::Readers::edge_start))]
pub fn edge_start(graph: &[u16], location: usize) -> usize
    ensures { (result ≡ edge_start graph.now location) × (result < 65536) }
{
    EDGE_STARTS.get(graph, location % 64)
}

// Returns how many edges a location has.
#[tactic(auto, unfolding(crate::specs::Readers::edge_count))]
pub fn edge_count(graph: &[u16], location: usize) -> usize
    ensures { (result ≡ edge_count graph.now location) × (result < 129) }
{
    let end = EDGE_STARTS.get(graph, location % 64 + 1);
    end.saturating_sub(edge_start(graph, location)) % 129
}

// Returns the edge of a rank among the edges of a location.
#[tactic(auto, unfolding(crate::specs::Readers::edge_at))]
pub fn edge_at(graph: &[u16], location: usize, rank: usize) -> usize
    ensures { (result ≡ edge_at graph.now location rank) × (result < 128) }
{
    EDGE_NUMBERS.get(graph, edge_start(graph, location) + rank % 128) % 128
}

// Returns the first slot of a location.
#[tactic(auto, unfolding(crate::specs::Readers::slot_start))]
pub fn slot_start(graph: &[u16], location: usize) -> usize
    ensures { (result ≡ slot_start graph.now location) × (result < 65536) }
{
    SLOT_STARTS.get(graph, location % 64)
}

// Returns how many slots a location has.
#[tactic(auto, unfolding(crate::specs::Readers::slot_count))]
pub fn slot_count(graph: &[u16], location: usize) -> usize
    ensures { (result ≡ slot_count graph.now location) × (result < 1025) }
{
    let end = SLOT_STARTS.get(graph, location % 64 + 1);
    end.saturating_sub(slot_start(graph, location)) % 1025
}

// Stores the label of a location.
#[tactic(auto, unfolding(crate::specs::Writers::with_label))]
pub fn store_label(location: usize, label: usize, graph: &mut [u16])
    ensures { graph.new ≡ with_label graph.old location label }
{
    LABELS.set(location, label, graph);
}

// Stores where the edges of a location begin; of location 64, where those of the last one end.
#[tactic(auto, unfolding(crate::specs::Writers::with_edge_start))]
pub fn store_edge_start(location: usize, start: usize, graph: &mut [u16])
    ensures { graph.new ≡ with_edge_start graph.old location start }
{
    EDGE_STARTS.set(location, start, graph);
}

// Stores an edge at its place among the edges of all locations.
#[tactic(auto, unfolding(crate::specs::Writers::with_edge_number))]
pub fn store_edge_number(place: usize, edge: usize, graph: &mut [u16])
    ensures { graph.new ≡ with_edge_number graph.old place edge }
{
    EDGE_NUMBERS.set(place, edge, graph);
}

// Stores the first slot of a location; of location 64, where those of the last one end.
#[tactic(auto, unfolding(crate::specs::Writers::with_slot_start))]
pub fn store_slot_start(location: usize, start: usize, graph: &mut [u16])
    ensures { graph.new ≡ with_slot_start graph.old location start }
{
    SLOT_STARTS.set(location, start, graph);
}
