// Reads a graph, and stores it by the writers of its slices.
ghost use Rattle.std.specs.Prelude.{◌<◌};

use crate::source::Source;
use std::io;
use std::io::Read;

// The two slices of a graph that is read.
#[derive(Drop)]
pub(crate) struct GraphMut<'a> {
    pub graph: &'a mut [u16],
    pub edges: &'a mut [u32],
}

impl GraphMut<'_> {
    // Reads a branch of an edge, which gets a slot of its own.
    fn read_branch<R: Read>(
        &mut self,
        source: &mut Source<R>,
        location: usize,
        edge: usize,
        branch: usize,
    ) -> io::Result<()>
        requires { (edge < 65536) × (branch < 65536) }
    {
        let weight = source.number()?;
        let target = source.number()?;
        let mask = source.number()?;
        let slot = 8 * edge + branch;
        graph::store_weight(edge, branch, weight, weight, self.edges);
        graph::store_slot(slot, location, mask, target, self.graph);
        graph::store_branch_slot(edge, branch, slot, self.graph);
        Ok(())
    }

    // Reads an edge of a location.
    fn read_edge<R: Read>(
        &mut self,
        source: &mut Source<R>,
        location: usize,
        edge: usize,
    ) -> io::Result<()>
        requires { edge < 65536 }
    {
        let action = source.number()?;
        let denominator = source.number()?;
        let count = source.number()?;
        graph::store_edge(edge, action, denominator, self.edges);
        graph::store_edge_number(edge, edge, self.graph);
        graph::store_branch_count(edge, count, self.graph);
        for branch in 0..count {
            self.read_branch(source, location, edge, branch)?;
        }
        Ok(())
    }

    // Reads the edges of a location, which count modulo 65,536; returns the number after the last.
    fn read_edges<R: Read>(
        &mut self,
        source: &mut Source<R>,
        location: usize,
        first: u16,
    ) -> io::Result<u16> {
        let mut edge = first;
        for _ in 0..source.number()? {
            self.read_edge(source, location, usize::from(edge))?;
            edge = edge.wrapping_add(1);
        }
        Ok(edge)
    }

    // Reads the locations with their edges.
    pub(crate) fn read_locations<R: Read>(&mut self, source: &mut Source<R>) -> io::Result<()> {
        let count = source.number()?;
        let mut edge = 0;
        for location in 0..count {
            graph::store_label(location, source.number()?, self.graph);
            graph::store_edge_start(location, usize::from(edge), self.graph);
            edge = self.read_edges(source, location, edge)?;
        }
        graph::store_edge_start(count, usize::from(edge), self.graph);
        Ok(())
    }

    // Reads a region: its location and class, what follows it by delay, and the ranks of its available edges.
    fn read_region<R: Read>(&mut self, source: &mut Source<R>, region: usize) -> io::Result<()> {
        let location = source.number()?;
        let class = source.number()?;
        graph::store_region(region, class, location, self.graph);
        graph::store_location(region, location, self.graph);
        graph::store_delay(region, source.number()?, self.graph);
        let count = source.number()?;
        graph::store_available_count(region, count, self.graph);
        graph::clear_available(region, self.graph);
        for _ in 0..count {
            graph::mark_available(region, source.number()?, self.graph);
        }
        Ok(())
    }

    // Reads the regions below a count.
    pub(crate) fn read_regions<R: Read>(
        &mut self,
        source: &mut Source<R>,
        count: usize,
    ) -> io::Result<()> {
        for region in 0..count {
            self.read_region(source, region)?;
        }
        Ok(())
    }

    // Reads the clock classes after resets.
    pub(crate) fn read_resets<R: Read>(&mut self, source: &mut Source<R>) -> io::Result<()> {
        for _ in 0..source.number()? {
            let class = source.number()?;
            let mask = source.number()?;
            graph::store_reset(class, mask, source.number()?, self.graph);
        }
        Ok(())
    }
}
