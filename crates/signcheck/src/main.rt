// A test program for signatures: reads graphs and namings of their regions from standard input, and prints for each naming which regions
// have the same signature. The independent implementation makes its input and the expected output; the README there gives their format.
#![tactic(auto)]

mod model;
mod naming;
mod source;

ghost use Rattle.std.specs.Prelude.{◌≤◌};

use model::GraphMut;
use naming::Graph;
use source::Source;
use std::io;
use std::io::Read;

// The most cases that are read.
const CASES: usize = 65536;

// Reads a graph of so many regions and its namings.
fn run_case<R: Read>(rt: &impl Print, source: &mut Source<R>, regions: usize) -> io::Result<()>
    requires { regions ≤ 4096 }
{
    let mut graph = [u16::MAX; graph::LONG];
    let mut edges = [0u32; graph::EDGES];
    let mut lent = GraphMut {
        graph: &mut graph,
        edges: &mut edges,
    };
    lent.read_locations(source)?;
    lent.read_regions(source, regions)?;
    lent.read_resets(source)?;
    let graph = Graph {
        regions,
        graph: &graph,
        edges: &edges,
    };
    graph.run_namings(rt, source)
}

fn main(rt: HostRuntime) -> io::Result<()> {
    let mut source = Source::new(rt.stdin());
    for _ in 0..CASES {
        let Some(regions) = source.next()? else {
            return Ok(());
        };
        run_case(&rt, &mut source, usize::from(regions) % 4097)?;
    }
    Ok(())
}
