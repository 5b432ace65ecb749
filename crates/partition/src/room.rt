// Room for the graph of a table in slices.
ghost use Rattle.std.specs.Prelude.{ℕ, ◌≡◌, List, length};
ghost use Rattle.regions.specs.Passed.{Model, Region, read_table, accepted};
ghost use Rattle.regions.specs.Call.{room_for, outcome_of, graph_of, entries_after, whole};
ghost use Rattle.regions.specs.View.{edges_read};
ghost use Rattle.partition.specs.Room.{RoomyIn, ShownIn, Lends};

use comparison::Graph;
use regions::{GraphMut, Refusal};

// Room for 4,096 regions and 128 edges.
#[derive(Drop)]
pub(crate) struct Room {
    labels: [u16; 4096],
    nexts: [u16; 4096],
    flags: [u8; 524288],
    resets: [u16; 65536],
    spots: [u16; 262144],
    rows: [u16; 4096],
}

impl Room {
    pub(crate) fn new() -> Room
        ensures { RoomyIn result }
    {
        Room {
            labels: [0; 4096],
            nexts: [0; 4096],
            flags: [0; 524288],
            resets: [0; 65536],
            spots: [0; 262144],
            rows: [0; 4096],
        }
    }

    // Explores the regions of a table into the lent entries, and stores their graph.
    pub(crate) fn show(&mut self, bytes: &[u8], entries: &mut [u8]) -> Result<usize, Refusal>
        ensures value { result ≡ graph_of (outcome_of bytes.now (room_for (length entries.old))) }
        ensures entries_after { entries.new
            ≡ entries_after entries.old (outcome_of bytes.now (room_for (length entries.old))) }
        ensures shown { (m : Model) (found : List Region) → read_table bytes.now ≡ accepted m
            → outcome_of bytes.now (room_for (length entries.old)) ≡ whole found
            → RoomyIn self.old → ShownIn m found self.new }
    {
        let mut graph = GraphMut {
            labels: &mut self.labels,
            nexts: &mut self.nexts,
            flags: &mut self.flags,
            resets: &mut self.resets,
            spots: &mut self.spots,
            rows: &mut self.rows,
        };
        regions::show_graph(bytes, entries, &mut graph)
    }

    // Lends the graph of a table, which has n regions.
    pub(crate) fn graph(&self, bytes: &[u8], n: usize) -> Graph<'_>
        ensures { Lends self.now n (edges_read (read_table bytes.now)) result }
    {
        Graph {
            n,
            k: regions::edge_count(bytes),
            labels: &self.labels,
            nexts: &self.nexts,
            flags: &self.flags,
            resets: &self.resets,
            spots: &self.spots,
            rows: &self.rows,
        }
    }
}
