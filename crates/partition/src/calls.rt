// The partition call, the pair call and the judging call.
ghost use Rattle.std.specs.Prelude.{◌≡◌, ◌||◌, List, leb, ltb};
ghost use Rattle.regions.specs.Passed.{Model, Region};
ghost use Rattle.bisimulation.specs.Structures.{Closed};
ghost use Rattle.bisimulation.specs.Finite.{structure};
ghost use Rattle.partition.specs.Instances.{graph};
ghost use Rattle.partition.specs.Room.{HeldIn};
ghost use Rattle.partition.specs.Calls.{blocks_of, list_of, shared_of, pair_list_of, judged_of};
ghost use Rattle.partition.specs.Promises.{Reduced, Paired, Judged};

use crate::room::Room;
use comparison::Graph;
use regions::{Reason, Refusal};
use rounds::{judge, number_lists};

// What the partition call answers: N, the count of blocks and the count of rounds.
#[derive(Clone, Copy, Debug, PartialEq, Eq)]
pub struct Reduction {
    pub regions: usize,
    pub blocks: u64,
    pub rounds: u64,
}

// Whether one of two lists is shorter than n.
fn is_short(n: usize, first: usize, second: usize) -> bool
    ensures { result ≡ (ltb first n || ltb second n) }
{
    first < n || second < n
}

// The partition call on a graph in slices.
fn reduce_shown(shown: Graph, first: &mut [u64], second: &mut [u64]) -> Result<Reduction, Refusal>
    ensures { (m : Model) (found : List Region) → HeldIn (graph m found) shown.entry → Closed (structure (graph m found))
        → (result ≡ blocks_of first.old second.old m found)
        × (first.new ≡ list_of first.old second.old first.old m found)
        × (second.new ≡ list_of first.old second.old second.old m found) }
{
    if is_short(shown.n, first.len(), second.len()) {
        return Err(Reason::ShortList.at(0));
    }
    let counted = number_lists(shown, first, second);
    Ok(Reduction {
        regions: shown.n,
        blocks: counted.blocks,
        rounds: counted.rounds,
    })
}

// The partition call: the blocks of a table's regions, in both lists.
pub fn reduce_table(
    bytes: &[u8],
    entries: &mut [u8],
    first: &mut [u64],
    second: &mut [u64],
) -> Result<Reduction, Refusal>
    ensures { Reduced bytes.now entries.old first.old second.old result
        entries.new first.new second.new }
{
    let mut room = Room::new();
    let n = room.show(bytes, entries)?;
    reduce_shown(room.graph(bytes, n), first, second)
}

// Whether one of two asked numbers is not below n.
fn is_past(n: u64, r: u64, s: u64) -> bool
    ensures { result ≡ (leb n r || leb n s) }
{
    n <= r || n <= s
}

// The pair call on a graph in slices.
fn pair_shown(
    shown: Graph,
    first: &mut [u64],
    second: &mut [u64],
    r: u64,
    s: u64,
) -> Result<bool, Refusal>
    ensures { (m : Model) (found : List Region) → HeldIn (graph m found) shown.entry → Closed (structure (graph m found))
        → (result ≡ shared_of first.old second.old r s m found)
        × (first.new ≡ pair_list_of first.old second.old first.old r s m found)
        × (second.new ≡ pair_list_of first.old second.old second.old r s m found) }
{
    if is_short(shown.n, first.len(), second.len()) {
        return Err(Reason::ShortList.at(0));
    }
    if is_past(shown.n as u64, r, s) {
        return Err(Reason::UnknownRegion.at(0));
    }
    number_lists(shown, first, second);
    Ok(slices::at(first, r as usize, 0) == slices::at(first, s as usize, 0))
}

// The pair call: whether two regions of a table share a block; the blocks in both lists.
pub fn pair_table(
    bytes: &[u8],
    entries: &mut [u8],
    first: &mut [u64],
    second: &mut [u64],
    r: u64,
    s: u64,
) -> Result<bool, Refusal>
    ensures { Paired bytes.now entries.old first.old second.old r s result
        entries.new first.new second.new }
{
    let mut room = Room::new();
    let n = room.show(bytes, entries)?;
    pair_shown(room.graph(bytes, n), first, second, r, s)
}

// The judging call on a graph in slices.
fn judge_shown(shown: Graph, proposal: &[u64]) -> Result<(), Refusal>
    ensures { (m : Model) (found : List Region) → HeldIn (graph m found) shown.entry → Closed (structure (graph m found))
        → result ≡ judged_of proposal.now m found }
{
    if proposal.len() != shown.n {
        return Err(Reason::WrongLength.at(0));
    }
    if judge(shown, proposal) {
        Ok(())
    } else {
        Err(Reason::NoBisimulation.at(0))
    }
}

// The judging call: whether a proposed partition of a table's regions is a bisimulation.
pub fn judge_table(bytes: &[u8], entries: &mut [u8], proposal: &[u64]) -> Result<(), Refusal>
    ensures { Judged bytes.now entries.old proposal.now result entries.new }
{
    let mut room = Room::new();
    let n = room.show(bytes, entries)?;
    judge_shown(room.graph(bytes, n), proposal)
}
