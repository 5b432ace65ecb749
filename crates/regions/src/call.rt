// The graph call: a table and lent entries; the region graph in the entries, and how many regions there are.
ghost use Rattle.std.specs.Prelude.{◌≡◌, length};
ghost use Rattle.table.specs.Model.{Model};
ghost use Rattle.table.specs.Reading.{accepted};
ghost use Rattle.regions.specs.Of.{Of};
ghost use Rattle.regions.specs.Graph.{first};
ghost use Rattle.regions.specs.Call.{room_for, from_answer, outcome_of, graph_of, entries_after};

use crate::explore::explore_all;
use crate::prepared::Prepared;
use clocks::Region;
use table::{Reason, Refusal, Shape};

// Returns the initial location with all clocks 0.
fn first_of(shape: Shape) -> Region
    ensures { (m : Model) → shape.initial ≡ m.initial → result ≡ first m }
{
    Region {
        location: shape.initial,
        whole: [0; 4],
        rank: [0; 4],
    }
}

// Explores the regions of a model into the lent entries.
pub(crate) fn graph_of(model: &Prepared, entries: &mut [u8]) -> Result<usize, Refusal>
    ensures { (m : Model) → Of model.now m
        → (result ≡ graph_of (from_answer (room_for (length entries.old)) (accepted m)))
        × (entries.new ≡ entries_after entries.old (from_answer (room_for (length entries.old)) (accepted m))) }
{
    let start = first_of(model.shape);
    if !model.meets_invariant(start) {
        return Err(Reason::BrokenStart.at(0));
    }
    match explore_all(model, start, entries) {
        Ok(n) => Ok(n),
        Err(_) => Err(Reason::TooManyRegions.at(0)),
    }
}

// Explores the regions of a table into the lent entries.
pub fn explore_table(bytes: &[u8], entries: &mut [u8]) -> Result<usize, Refusal>
    ensures value { result ≡ graph_of (outcome_of bytes.now (room_for (length entries.old))) }
    ensures entries_after { entries.new
        ≡ entries_after entries.old (outcome_of bytes.now (room_for (length entries.old))) }
{
    let shape = table::read(bytes)?;
    graph_of(&Prepared::new(bytes, shape), entries)
}
