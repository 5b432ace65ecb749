// Call 1: reads a table and lists its edges, and their places into a lent list, filled beforehand so that a stray write shows. The digest
// that is printed as lent is that of the list of places and, where the table is accepted, of three lists more, as long as that one: the
// sources, the actions and the denominators that the edge list has by number. After the last edge these are to be 0.
ghost use Rattle.std.specs.Prelude.{◌≤◌};

use crate::answers::print_refusal;
use crate::digest::Digest;
use crate::lent::{fill, filler};
use std::io;
use table::{Edge, Shape};

// The most edges that a case has room for.
pub(crate) const MOST_EDGES: usize = 160;

impl Digest {
    fn with_labels(self, bytes: &[u8], shape: Shape) -> Digest {
        (0..usize::from(shape.locations)).fold(
            self,
            |digest, i| digest.with(u64::from(table::label_at(bytes, shape, i))),
        )
    }

    fn with_invariants(self, bytes: &[u8], shape: Shape) -> Digest {
        (0..shape.invariants).fold(self, |digest, i| {
            let atom = table::invariant_at(bytes, shape, i);
            digest.with_all(&[atom.location, atom.clock, atom.comparison, atom.constant])
        })
    }

    fn with_guards(self, bytes: &[u8], place: usize) -> Digest {
        let count = table::guard_count(bytes, place);
        (0..count).fold(self.with(count as u64), |digest, i| {
            let atom = table::guard_at(bytes, place, i);
            digest.with_all(&[atom.clock, atom.comparison, atom.constant])
        })
    }

    fn with_branches(self, bytes: &[u8], place: usize) -> Digest {
        let count = table::branch_count(bytes, place);
        (0..count).fold(self.with(count as u64), |digest, i| {
            let branch = table::branch_at(bytes, place, i);
            digest
                .with(branch.weight as u64)
                .with_all(&[branch.target, branch.mask])
        })
    }

    // An edge, its guard atoms and its branches.
    fn with_edge(self, bytes: &[u8], place: usize, edge: Edge) -> Digest {
        self.with(place as u64)
            .with_all(&[edge.source, edge.action])
            .with(u64::from(edge.denominator))
            .with_guards(bytes, place)
            .with_branches(bytes, place)
    }

    fn with_places(self, places: &[usize]) -> Digest {
        places
            .iter()
            .fold(self, |digest, &place| digest.with(place as u64))
    }

    // What the edge list has by number, as far as there is room, also after the last edge and past its end.
    fn with_parts<F: Fn(Edge) -> u64>(self, edges: &[Edge], room: usize, part: F) -> Digest
        requires { F.IsAlwaysCallable part }
    {
        (0..room).fold(
            self,
            |digest, i| digest.with(part(table::edge_of(edges, i))),
        )
    }
}

// Prints an accepted table: its model and the four lists, each as long as that of the places.
fn print_model(rt: &impl Print, bytes: &[u8], shape: Shape, places: &[usize]) -> io::Result<()> {
    print!(rt;
        "model {} {} {} atoms {} edges {}",
        shape.clocks, shape.locations, shape.initial, shape.invariants, shape.edges
    )?;
    let edges = table::list_edges(bytes, shape);
    let head = Digest::EMPTY
        .with_labels(bytes, shape)
        .with_invariants(bytes, shape);
    let digest = places
        .iter()
        .take(shape.edges)
        .enumerate()
        .fold(head, |digest, (i, &place)| {
            digest.with_edge(bytes, place, table::edge_of(&edges, i))
        });
    let room = places.len();
    let lent = Digest::EMPTY
        .with_places(places)
        .with_parts(&edges, room, |edge| u64::from(edge.source))
        .with_parts(&edges, room, |edge| u64::from(edge.action))
        .with_parts(&edges, room, |edge| u64::from(edge.denominator));
    println!(rt; " digest {digest} lent {lent}")
}

// Runs the call on a table, with room for some edges. Where the table is refused the places are to be as they were filled.
pub(crate) fn run(rt: &impl Print, bytes: &[u8], room: usize, byte: u8) -> io::Result<()>
    requires { room ≤ MOST_EDGES }
{
    let mut list = [0usize; MOST_EDGES];
    let places = &mut list[..room];
    fill(places, |i| filler(byte, 0, i));
    match table::read(bytes) {
        Err(refusal) => {
            print_refusal(rt, refusal)?;
            println!(rt; " lent {}", Digest::EMPTY.with_places(places))
        }
        Ok(shape) => {
            table::list_places(bytes, shape, places);
            print_model(rt, bytes, shape, places)
        }
    }
}
