// Reads namings of the regions, gives the regions ids by passes, and prints for each region the lowest that has its signature.
ghost use Rattle.std.specs.Prelude.{◌+◌, ◌≤◌, ◌≡◌, length};

use crate::source::Source;
use arrayvec::ArrayVec;
use slices::put;
use std::io;
use std::io::Read;

// The most regions of a graph.
const MOST_REGIONS: usize = 4096;

// What is printed for a region that no region represents.
const NOBODY: u16 = 65535;

// A graph that was read, and how many regions it has.
#[derive(Clone, Copy)]
pub(crate) struct Graph<'a> {
    pub regions: usize,
    pub graph: &'a [u16],
    pub edges: &'a [u32],
    ghost in_bounds: { regions ≤ 4096 },
}

// Lists the regions that no region represents yet.
fn list_waiting(lowest: &[Option<u16>]) -> ArrayVec<u16, MOST_REGIONS>
    requires { length lowest.now ≤ MOST_REGIONS }
    ensures { length result.items ≤ length lowest.now }
{
    let mut waiting = ArrayVec::new();
    for (region, owner) in lowest.iter().enumerate() {
        if owner.is_none() {
            waiting.push(region as u16);
        }
    }
    waiting
}

// Notes for each listed region that has an id the first that has this one.
fn note_lowest(regions: &[u16], ids: &[u16], lowest: &mut [Option<u16>]) {
    let mut owners = [None; 8192];
    for (region, id) in regions.iter().zip(ids) {
        if let Some(owner) = owners.get_mut(usize::from(*id)) {
            let first = *owner.get_or_insert(*region);
            put(lowest, usize::from(*region), Some(first));
        }
    }
}

// Prints a number for each region, with blanks between them.
fn print_lowest(rt: &impl Print, lowest: &[Option<u16>]) -> io::Result<()> {
    for (region, owner) in lowest.iter().enumerate() {
        if 0 < region {
            print!(rt; " ")?;
        }
        print!(rt; "{}", owner.unwrap_or(NOBODY))?;
    }
    println!(rt)
}

impl Graph<'_> {
    // Reads the names of the regions; behind them stands what follows each by delay.
    fn read_names<R: Read>(self, source: &mut Source<R>, names: &mut [u16]) -> io::Result<()>
        requires { length names.old ≡ self.regions + self.regions }
    {
        for region in 0..self.regions {
            names[region] = source.number()? as u16;
            names[self.regions + region] = graph::delay_of(self.graph, region) as u16;
        }
        Ok(())
    }

    // Gives ids to regions, in the place of which these then stand. Answers false if nothing was done.
    fn sign(self, names: &[u16], regions: &mut [u16]) -> bool {
        let mut index = [0u16; signatures::INDEX];
        let mut numbers = [0u32; signatures::NUMBERS];
        let mut memo = [0u16; signatures::MEMO];
        signatures::sign(
            self.graph,
            self.edges,
            names,
            &mut index,
            &mut numbers,
            &mut memo,
            regions,
        )
    }

    // Gives ids to the regions that no region represents yet. Answers false if there was none, or nothing was done.
    fn run_pass(self, names: &[u16], lowest: &mut [Option<u16>]) -> bool
        requires { length lowest.old ≤ MOST_REGIONS }
    {
        let regions = list_waiting(lowest);
        let mut ids = [0u16; MOST_REGIONS];
        let ids = &mut ids[..regions.len()];
        ids.copy_from_slice(&regions);
        if ids.is_empty() || !self.sign(names, ids) {
            return false;
        }
        note_lowest(&regions, ids, lowest);
        true
    }

    // Reads a naming, gives ids to regions, pass by pass, until each is represented, and prints the lowest region of each signature.
    fn run_naming<R: Read>(self, rt: &impl Print, source: &mut Source<R>) -> io::Result<()> {
        let mut names = [0u16; 2 * MOST_REGIONS];
        let mut lowest = [None; MOST_REGIONS];
        let names = &mut names[..2 * self.regions];
        let lowest = &mut lowest[..self.regions];
        self.read_names(source, names)?;
        for _ in 0..self.regions {
            if !self.run_pass(names, lowest) {
                break;
            }
        }
        print_lowest(rt, lowest)
    }

    // Reads the namings of a graph.
    pub(crate) fn run_namings<R: Read>(
        self,
        rt: &impl Print,
        source: &mut Source<R>,
    ) -> io::Result<()> {
        for _ in 0..source.number()? {
            self.run_naming(rt, source)?;
        }
        Ok(())
    }
}
