// The edges of a model by their source. A link is the number after that of an edge, and 0 where there is none: for each location a link
// to its first edge, and for each edge a link to the next one with its source.
ghost use Rattle.std.specs.Prelude.{ℕ, ◌≤◌, ◌≡◌, length, take, replicate};
ghost use Rattle.table.specs.Model.{Model};
ghost use Rattle.table.specs.Reads.{Lists};
ghost use Rattle.regions.specs.Edges.{Linked, ListsAll};

use table::Edge;

// Links edges, from the last of them to edge 0.
pub(crate) fn link_edges(edges: &[Edge], starts: &mut [u8], follows: &mut [u8])
    requires { length edges.now ≤ 128 }
    ensures { (m : Model) → ListsAll m edges.now
        → starts.old ≡ replicate 256 0 → length follows.old ≡ 128
        → Linked m starts.new follows.new }
{
    for e in (0..edges.len()).rev() {
        let source = usize::from(edges[e].source);
        slices::put(follows, e, slices::at(starts, source, 0));
        slices::put(starts, source, e as u8 + 1);
    }
}
