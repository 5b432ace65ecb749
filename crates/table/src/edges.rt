// Lists the edges by number: the edge list, which has the source, the action and the denominator of each, and the places of their
// records.
ghost use Rattle.std.specs.Prelude.{◌<◌, min, ◌≡◌, [], map, get_or, length};
ghost use Rattle.std.proofs.lemmas.List.Edits.{sets};
ghost use Rattle.table.specs.Format.{max_edges};
ghost use Rattle.table.specs.Access.{no_edge_struct, read_edge, edge_places};
ghost use Rattle.table.specs.Model.{Model};
ghost use Rattle.table.specs.Edges.{edge_list};
ghost use Rattle.table.specs.Reads.{Reads, Lists};

use crate::access::next_edge;
use crate::bodies::{body_at, is_kind};
use crate::codes::Kind;
use crate::format::MAX_EDGES;
use crate::model::{Edge, Shape};

// Returns edge i of an edge list, and an edge of zeros past its end.
pub fn edge_of(edges: &[Edge], i: usize) -> Edge
    ensures { result ≡ get_or edges.now i no_edge_struct }
{
    edges.get(i).copied().unwrap_or_default()
}

// Lists the edges of the table by number, at most 128, and edges of zeros after the last.
pub fn list_edges(table: &[u8], shape: Shape) -> [Edge; 128]
    ensures value { result ≡ edge_list (map (read_edge table.now) (edge_places table.now shape)) }
    ensures lists { (m : Model) → Reads table.now shape m → Lists m result }
{
    let mut edges = [Edge::default(); MAX_EDGES];
    let mut at = shape.first_edge;
    for i in 0..shape.edges.min(MAX_EDGES) {
        if !is_kind(table, at, Kind::Edge) {
            return edges;
        }
        edges[i] = body_at(table, at).edge();
        at = next_edge(table, at);
    }
    edges
}

// Fills a list with the places of the edges of the table, by number, as far as it goes. What is after them stays. A caller who
// wants all places lends at least `shape.edges` numbers.
pub fn list_places(table: &[u8], shape: Shape, places: &mut [usize])
    ensures places_after { places.new ≡ sets places.old 0 (edge_places table.now shape) }
    ensures places_after_2 { (m : Model) → Reads table.now shape m
        → places.new ≡ sets places.old 0 (map (λ edge. edge.place) m.edges) }
{
    // Loops as `list_edges` does: an iterator over the places, a type with contracts of its own, would be longer than both loops.
    let mut at = shape.first_edge;
    for i in 0..shape.edges {
        if !is_kind(table, at, Kind::Edge) {
            return;
        }
        slices::put(places, i, at);
        at = next_edge(table, at);
    }
}
