// The state call: the number of the region that a state lies in.
ghost use Rattle.std.specs.Prelude.{◌≤◌, ◌≡◌, length};
ghost use Rattle.regions.specs.Entries.{max_entries};
ghost use Rattle.regions.specs.Explore.{listed};
ghost use Rattle.regions.specs.Call.{room_for, outcome_of, entries_after};
ghost use Rattle.regions.specs.View.{number_in};
ghost use Rattle.states.specs.StateCall.{asked, numbered, place_of};

use crate::state::State;
use clocks::Region;
use regions::{bounds_read, entry_at, explore_table};
use table::{Reason, Refusal};

// Finds the number of a region among the first n entries.
fn number_of(entries: &[u8], n: usize, region: Region) -> Result<usize, Refusal>
    ensures { n ≤ max_entries → result ≡ numbered n (number_in (listed entries.now n) region) }
{
    for j in 0..n {
        if entry_at(entries, j) == region {
            return Ok(j);
        }
    }
    Err(Reason::Unreached.at(0))
}

// Explores the regions of a table into the lent entries, and says in which of them a state lies: at a location, with the four
// values over a denominator.
pub fn place_state(
    bytes: &[u8],
    entries: &mut [u8],
    location: u64,
    v0: u64,
    v1: u64,
    v2: u64,
    v3: u64,
    denominator: u64,
) -> Result<usize, Refusal>
    ensures value { result ≡ place_of bytes.now (room_for (length entries.old)) (asked location v0 v1 v2 v3 denominator) }
    ensures entries_after { entries.new
        ≡ entries_after entries.old (outcome_of bytes.now (room_for (length entries.old))) }
{
    let shape = table::read(bytes)?;
    let n = explore_table(bytes, entries)?;
    let state = State::new(shape, location, [v0, v1, v2, v3], denominator)?;
    number_of(entries, n, state.region(bounds_read(bytes)))
}
