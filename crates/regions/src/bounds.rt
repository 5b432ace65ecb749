// The bounds of a model's clocks: the largest constant of its table.
ghost use Rattle.std.specs.Prelude.{ℕ, ◌≡◌, length};
ghost use Rattle.table.specs.Model.{Model};
ghost use Rattle.table.specs.Reading.{read_table, accepted};
ghost use Rattle.table.specs.Reads.{Reads, ReadsEdge, edge_of};
ghost use Rattle.regions.specs.Edges.{Placed};
ghost use Rattle.regions.specs.Graph.{largest_of, constant_of, guard_constant, edge_constant, bounds_of};

use clocks::Bounds;
use table::Shape;

// Returns the largest constant of the invariant atoms.
fn largest_invariant(bytes: &[u8], shape: Shape) -> u8
    ensures { (m : Model) → Reads bytes.now shape m → result ≡ largest_of constant_of m.invariants }
{
    let mut best = 0u8;
    for i in 0..shape.invariants {
        best = best.max(table::invariant_at(bytes, shape, i).constant);
    }
    best
}

// Returns the largest constant of the guard atoms of the edge at a place.
fn largest_guard(bytes: &[u8], place: usize) -> u8
    ensures { (m : Model) (e : ℕ) → ReadsEdge bytes.now place m e → result ≡ largest_of guard_constant (edge_of m e).guards }
{
    let mut best = 0u8;
    for i in 0..table::guard_count(bytes, place) {
        best = best.max(table::guard_at(bytes, place, i).constant);
    }
    best
}

// Returns the largest constant of the guard atoms of all edges, of which there are `count`.
fn largest_edge(bytes: &[u8], count: usize, places: &[usize]) -> u8
    ensures { (m : Model) → read_table bytes.now ≡ accepted m → count ≡ length m.edges
        → Placed m places.now → result ≡ largest_of edge_constant m.edges }
{
    let mut best = 0u8;
    for e in 0..count {
        best = best.max(largest_guard(bytes, slices::at(places, e, 0)));
    }
    best
}

// Returns the bounds of a model's clocks.
pub(crate) fn bounds_of(bytes: &[u8], shape: Shape, places: &[usize]) -> Bounds
    ensures { (m : Model) → Reads bytes.now shape m → Placed m places.now
        → result ≡ bounds_of m }
{
    let most = largest_invariant(bytes, shape).max(largest_edge(bytes, shape.edges, places));
    Bounds {
        count: shape.clocks,
        bound: [most; 4],
    }
}
