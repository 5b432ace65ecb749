// A model that was read, prepared once for all its regions.
ghost use Rattle.std.specs.Prelude.{◌≡◌, ◌≤◌, ◌<◌, get_or, length};
ghost use Rattle.table.specs.Model.{Model};
ghost use Rattle.table.specs.Access.{edge_struct};
ghost use Rattle.table.specs.Reads.{Reads, ReadsEdge, edge_of};
ghost use Rattle.regions.specs.Graph.{bounds_of, meets, delay_next, at_most_one};
ghost use Rattle.regions.specs.Prepared.{Suits};

use crate::bounds::bounds_of;
use crate::edges::link_edges;
use crate::limits::{NO_LIMIT, is_under_all, list_limits};
use clocks::{Bounds, Region};
use table::{Edge, Shape};

// The table and its shape, the bounds of the clocks, the edges by number with the places of their records, the links of the edges by
// their source, and the limits of the clocks by location.
#[derive(Drop)]
pub(crate) struct Prepared<'a> {
    pub bytes: &'a [u8],
    pub shape: Shape,
    pub bounds: Bounds,
    pub edges: [Edge; 128],
    pub places: [usize; 128],
    pub starts: [u8; 256],
    pub follows: [u8; 128],
    pub limits: [u16; 1024],
    ghost suits: { (m : Model) → Reads bytes.now shape m → Suits m bounds edges places starts follows limits },
}

impl<'a> Prepared<'a> {
    // Prepares a table that was read.
    pub(crate) fn new(bytes: &'a [u8], shape: Shape) -> Prepared<'a>
        ensures { (result.bytes.now ≡ bytes.now) × (result.shape ≡ shape) }
    {
        let mut places = [0; 128];
        table::list_places(bytes, shape, &mut places);
        let edges = table::list_edges(bytes, shape);
        let mut starts = [0; 256];
        let mut follows = [0; 128];
        link_edges(&edges[..shape.edges.min(128)], &mut starts, &mut follows);
        let mut limits = [NO_LIMIT; 1024];
        list_limits(bytes, shape, &mut limits);
        let bounds = bounds_of(bytes, shape, &places);
        Prepared {
            bytes,
            shape,
            bounds,
            edges,
            places,
            starts,
            follows,
            limits,
        }
    }

    // Returns how many edges there are, 128 at most.
    pub(crate) fn edge_count(&self) -> usize
        ensures few { result ≤ 128 }
        ensures count { (m : Model) → Reads self.now.bytes.now self.now.shape m → result ≡ length m.edges }
    {
        self.shape.edges.min(128)
    }

    // Returns the place of the record of an edge.
    pub(crate) fn place(&self, e: usize) -> usize
        ensures { (m : Model) → Reads self.now.bytes.now self.now.shape m → e < length m.edges
            → ReadsEdge self.now.bytes.now result m e }
    {
        slices::at(&self.places, e, 0)
    }

    // Returns an edge.
    pub(crate) fn edge(&self, e: usize) -> Edge
        ensures { (m : Model) → Reads self.now.bytes.now self.now.shape m → result ≡ edge_struct (edge_of m e) }
    {
        table::edge_of(&self.edges, e)
    }

    // Returns the link of the first edge of a location.
    pub(crate) fn first_link(&self, location: u8) -> usize
        ensures { result ≡ get_or self.now.starts location 0 }
    {
        usize::from(self.starts[usize::from(location)])
    }

    // Returns the link of the next edge with the source of an edge.
    pub(crate) fn next_link(&self, e: usize) -> usize
        ensures { result ≡ get_or self.now.follows e 0 }
    {
        usize::from(slices::at(&self.follows, e, 0))
    }

    // Whether a region meets its location's invariant: each of its clocks is below its limit.
    pub(crate) fn meets_invariant(&self, r: Region) -> bool
        ensures { (m : Model) → Reads self.now.bytes.now self.now.shape m → result ≡ meets (bounds_of m) m.invariants r }
    {
        is_under_all(&self.limits, self.bounds, r)
    }

    // Returns the region that follows by delay, if any does and it meets its invariant.
    pub(crate) fn follower(&self, r: Region) -> Option<Region>
        ensures { (m : Model) → Reads self.now.bytes.now self.now.shape m → delay_next m r ≡ at_most_one result }
    {
        match r.delay(self.bounds) {
            Some(q) if self.meets_invariant(q) => Some(q),
            _ => None,
        }
    }
}
