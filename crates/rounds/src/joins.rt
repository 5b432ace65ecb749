// Items that need no search in a round. In each block one item that is not stirred is the anchor; the others that are not stirred
// are related to it in the next round, and a stirred one is compared with it, or does as a kin did. Marks tell who joins the anchor.
ghost use Rattle.std.specs.Prelude.{ℕ, ◌+◌, ◌≤◌, ◌<◌, ◌≡◌, length, get_or};
ghost use Rattle.bisimulation.specs.Finite.{Finite, related, next};
ghost use Rattle.bisimulation.specs.Below.{Reps};
ghost use Rattle.comparison.specs.Held.{most_items};
ghost use Rattle.rounds.specs.Changes.{Settled};
ghost use Rattle.rounds.specs.Rounds.{Anchored, joined_by, join_mark, MarkedTo, Step, KinsBelow};
ghost use Rattle.rounds.specs.Rounds.{KeyedIn, EquippedIn};

use crate::kins::{find_kin, put_kin, sign_of};
use crate::links::{Buckets, link, linked};
use crate::{MOST_ITEMS, SHELF};
use comparison::Graph;
use slices::at;

// Holds what a round goes by: the rep map of the round before, which items are stirred, the anchors of blocks, and the names.
#[derive(Clone, Copy)]
pub(crate) struct Before<'a> {
    pub old: &'a [u64],
    pub stirred: &'a [bool; MOST_ITEMS],
    pub anchors: &'a [u16; MOST_ITEMS],
    pub names: &'a [u64; MOST_ITEMS],
}

// ---- Anchors

// Finds the anchors of all blocks, each told at the number of its leader: the first item of the block that is not stirred.
pub(crate) fn find_anchors(
    old: &[u64],
    stirred: &[bool; MOST_ITEMS],
    anchors: &mut [u16; MOST_ITEMS],
)
    requires { length old.now ≤ most_items }
    ensures { (n : ℕ) → length old.now ≡ n → Reps (related old.now) n old.now
        → Anchored n old.now stirred.now anchors.new }
{
    anchors.fill(0);
    for (x, lead) in old.iter().enumerate() {
        let block = *lead as usize;
        if !stirred[x] && linked(anchors, block).is_none() {
            link(anchors, block, x);
        }
    }
}

// ---- Marks

// Does item x join the anchor of its block? It does where it is plainly alike to the anchor. Where it has a kin it does as the kin does,
// whose mark tells. Else the two are compared, and x may become a kin.
fn is_joined(
    graph: Graph,
    before: Before,
    x: usize,
    marks: &[u16; MOST_ITEMS],
    keys: &mut [u64; MOST_ITEMS],
    shelf: &mut [u64; SHELF],
    kins: &mut Buckets,
) -> bool
    requires { x < most_items }
    ensures kins { (i : ℕ) → x < i → KinsBelow i kins.old → KinsBelow i kins.new }
    ensures value { (F : Finite) → let d = next F before.entry.names.now in
        let old = before.entry.old.now in
        EquippedIn F graph.entry before.entry.names.now keys.old shelf.old
        → Settled d (related old) graph.entry.n before.entry.stirred.now
        → Anchored graph.entry.n old before.entry.stirred.now before.entry.anchors.now
        → Step d graph.entry.n old
        → MarkedTo x d before.entry.anchors.now old marks.now
        → KinsBelow x kins.old → x < graph.entry.n
        → (result ≡ joined_by d before.entry.anchors.now old x)
        × EquippedIn F graph.entry before.entry.names.now keys.new shelf.new }
{
    let Before {
        old,
        stirred,
        anchors,
        names,
    } = before;
    if !stirred[x] {
        return true;
    }
    let Some(anchor) = linked(anchors, at(old, x, 0) as usize) else {
        return false;
    };
    if graph.is_twin(anchor, x, names) {
        return true;
    }
    let sign = sign_of(graph, x, names);
    if let Some(kin) = find_kin(graph, x, kins.newest(sign), names, kins) {
        return at(marks, kin, 0) % 2 == 1;
    }
    let joins = graph.is_keyed_next(anchor, x, names, keys, shelf);
    put_kin(x, sign, keys, kins);
    joins
}

// Makes the mark of an item. Blocks have the numbers of items; for any other number there is no mark to tell.
fn mark_of(block: u64, joins: bool) -> u16
    ensures { block < most_items → result ≡ join_mark block joins }
{
    if block < MOST_ITEMS as u64 {
        2 * block as u16 + u16::from(joins)
    } else {
        0
    }
}

// Makes the marks of all items.
pub(crate) fn fill_marks(
    graph: Graph,
    before: Before,
    keys: &mut [u64; MOST_ITEMS],
    marks: &mut [u16; MOST_ITEMS],
)
    requires { graph.n ≤ most_items }
    ensures { (F : Finite) → let d = next F before.entry.names.now in
        let old = before.entry.old.now in
        KeyedIn F graph.entry before.entry.names.now keys.old
        → Settled d (related old) graph.entry.n before.entry.stirred.now
        → Anchored graph.entry.n old before.entry.stirred.now before.entry.anchors.now
        → Step d graph.entry.n old
        → MarkedTo graph.entry.n d before.entry.anchors.now old marks.new
        × KeyedIn F graph.entry before.entry.names.now keys.new }
{
    // Keeps the codes of an anchor that items are compared with; empty at first.
    let mut shelf = [0u64; SHELF];
    let mut kins = Buckets::new();
    let old = before.old;
    for x in 0..graph.n {
        let joins = is_joined(graph, before, x, marks, keys, &mut shelf, &mut kins);
        marks[x] = mark_of(at(old, x, 0), joins);
    }
}
