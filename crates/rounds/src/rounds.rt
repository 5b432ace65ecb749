// The rounds, by rep maps: a list holds for each item the lowest one that is related to it.
ghost use Rattle.std.specs.Prelude.{ℕ, suc, ◌+◌, ◌≤◌, ◌<◌, ◌≡◌, true, List, ◌++◌, IfSome, length, get_or, drop};
ghost use Rattle.bisimulation.specs.Structures.{Closed};
ghost use Rattle.bisimulation.specs.Finite.{Finite, structure, related, next, lead, block_count, last_blocks, rounds};
ghost use Rattle.bisimulation.specs.Below.{EquivalenceBelow, Reps};
ghost use Rattle.comparison.specs.Held.{Held, Opened, most_items, most_edges};
ghost use Rattle.comparison.specs.Compare.{Below};
ghost use Rattle.rounds.specs.Names.{Tagged, Named, LeadersKept};
ghost use Rattle.comparison.specs.declared.held.Graph.{Graph};
ghost use Rattle.rounds.specs.Changes.{Classed, Settled};
ghost use Rattle.rounds.specs.Rounds.{Led, Step, Sorted, Chains, Rested, NoRoom};
ghost use Rattle.rounds.specs.Rounds.{HeldIn, KeyedIn, EquippedIn, KinsBelow, LedByKin, Forgotten, Prepared};

use crate::changes::{is_classed, list_order, stir};
use crate::joins::{Before, fill_marks, find_anchors};
use crate::kins::{find_kin, put_kin, sign_of};
use crate::links::{Buckets, link, linked};
use crate::names::{first_names, name_round};
use crate::numbering::number_blocks;
use crate::{MOST_EDGES, MOST_ITEMS, SHELF};
use comparison::Graph;
use slices::{at, put};

// Counts the blocks of a partition, and the rounds that it took.
#[derive(Clone, Copy)]
pub struct Counted {
    pub blocks: u64,
    pub rounds: u64,
}

// Counts the numbers that a label, or a mark, may be.
const LABELS: usize = 65536;

// ---- Round 0: equal labels

// Makes the rep map of equal labels, and counts its blocks: that of round 0. In later rounds marks are the labels.
pub(crate) fn first_round(n: usize, labels: &[u16], list: &mut [u64]) -> usize
    requires { (n ≤ length list.old) × (n ≤ most_items) }
    ensures count { result ≤ n }
    ensures led { Led (related labels.now) list.new n result }
{
    // Links each label to the first item with it.
    let mut seen = [0u16; LABELS];
    let mut count = 0;
    for i in 0..n {
        let label = usize::from(at(labels, i, 0));
        let lead = match linked(&seen, label) {
            Some(first) => first,
            None => {
                link(&mut seen, label, i);
                count += 1;
                i
            }
        };
        list[i] = lead as u64;
    }
    count
}

// ---- A round from the one before

// Holds what the search of a round goes by: marks, the rep map of equal marks, and the names.
#[derive(Clone, Copy)]
struct Sorting<'a> {
    marks: &'a [u16; MOST_ITEMS],
    mid: &'a [u64; MOST_ITEMS],
    names: &'a [u64; MOST_ITEMS],
}

// Returns the lead of a kin of item x, which is that of x too.
fn kin_lead(
    graph: Graph,
    x: usize,
    first: Option<usize>,
    names: &[u64; MOST_ITEMS],
    kins: &Buckets,
    new: &[u64],
) -> Option<usize>
    ensures { (F : Finite) → HeldIn F graph.entry → Closed (structure F)
        → EquivalenceBelow graph.entry.n (next F names.now) → x < graph.entry.n
        → Reps (next F names.now) x new.now → KinsBelow x kins.now → IfSome first (λ z. z < x)
        → LedByKin (next F names.now) x result }
{
    let kin = find_kin(graph, x, first, names, kins)?;
    Some(at(new, kin, 0) as usize)
}

// Searches for the lead of item x among the leaders split off from its block of `mid`, from the lead there on along the links. A new
// leader is linked after the last one.
fn search_lead(
    graph: Graph,
    x: usize,
    start: usize,
    names: &[u64; MOST_ITEMS],
    keys: &mut [u64; MOST_ITEMS],
    shelf: &mut [u64; SHELF],
    links: &mut [u16; MOST_ITEMS],
) -> usize
    requires { x < most_items }
    ensures { (F : Finite) (mid : List ℕ) → let d = next F names.now in
        EquippedIn F graph.entry names.now keys.old shelf.old
        → Step d graph.entry.n mid → Chains d (related mid) links.old x
        → get_or links.old x 0 ≡ 0 → x < graph.entry.n → start ≡ get_or mid x 0 → start < x
        → (result ≡ lead d x) × Chains d (related mid) links.new (x + 1)
        × EquippedIn F graph.entry names.now keys.new shelf.new }
{
    let mut y = start;
    while !graph.is_keyed_next(y, x, names, keys, shelf) {
        let next = usize::from(at(links, y, 0));
        if next <= y {
            put(links, y, x as u16);
            return x;
        }
        y = next;
    }
    y
}

// Returns the lead of item x in the next round: that of `mid` where x joins an anchor; that of the lead in `mid`, or of a kin, where x is
// plainly alike to it; and else what a search finds.
fn next_lead(
    graph: Graph,
    sorting: Sorting,
    x: usize,
    new: &[u64],
    kins: &mut Buckets,
    keys: &mut [u64; MOST_ITEMS],
    shelf: &mut [u64; SHELF],
    links: &mut [u16; MOST_ITEMS],
) -> usize
    requires { x < most_items }
    ensures kins { (i : ℕ) → x < i → KinsBelow i kins.old → KinsBelow i kins.new }
    ensures value { (F : Finite) → let d = next F sorting.entry.names.now in
        let mid = sorting.entry.mid.now in
        EquippedIn F graph.entry sorting.entry.names.now keys.old shelf.old
        → Sorted d graph.entry.n sorting.entry.marks.now mid
        → Chains d (related mid) links.old x → Reps d x new.now → KinsBelow x kins.old
        → x < graph.entry.n
        → (result ≡ lead d x) × Chains d (related mid) links.new (x + 1)
        × EquippedIn F graph.entry sorting.entry.names.now keys.new shelf.new }
{
    links[x] = 0;
    let start = sorting.mid[x] as usize;
    if x <= start {
        return x;
    }
    if sorting.marks[x] % 2 == 1 {
        return start;
    }
    if let Some(lead) = kin_lead(graph, x, Some(start), sorting.names, kins, new) {
        return lead;
    }
    let sign = sign_of(graph, x, sorting.names);
    if let Some(lead) = kin_lead(graph, x, kins.newest(sign), sorting.names, kins, new) {
        return lead;
    }
    let lead = search_lead(graph, x, start, sorting.names, keys, shelf, links);
    put_kin(x, sign, keys, kins);
    lead
}

// Makes the rep map of the next round, and counts its blocks.
fn next_round(
    graph: Graph,
    sorting: Sorting,
    keys: &mut [u64; MOST_ITEMS],
    new: &mut [u64],
) -> usize
    requires { (length new.old ≡ graph.n) × (graph.n ≤ most_items) }
    ensures count { result ≤ graph.entry.n }
    ensures led { (F : Finite) → let d = next F sorting.entry.names.now in
        KeyedIn F graph.entry sorting.entry.names.now keys.old
        → Sorted d graph.entry.n sorting.entry.marks.now sorting.entry.mid.now
        → Led d new.new graph.entry.n result
        × KeyedIn F graph.entry sorting.entry.names.now keys.new }
{
    // Keeps the codes of a leader that items are compared with; empty at first.
    let mut shelf = [0u64; SHELF];
    let mut links = [0u16; MOST_ITEMS];
    let mut kins = Buckets::new();
    let mut count = 0;
    for x in 0..graph.n {
        let lead = next_lead(
            graph, sorting, x, new, &mut kins, keys, &mut shelf, &mut links,
        );
        new[x] = lead as u64;
        if lead == x {
            count += 1;
        }
    }
    count
}

// Makes the rep map of the next round from that of this one, whose blocks the names tell apart, and counts its blocks. Different marks part
// the blocks first.
fn make_round(
    graph: Graph,
    old: &[u64],
    stirred: &[bool; MOST_ITEMS],
    names: &[u64; MOST_ITEMS],
    keys: &mut [u64; MOST_ITEMS],
    new: &mut [u64],
) -> usize
    requires { (length old.now ≡ graph.n) × (length new.old ≡ graph.n) × (graph.n ≤ most_items) }
    ensures count { result ≤ graph.entry.n }
    ensures led { (F : Finite) → let d = next F names.now in KeyedIn F graph.entry names.now keys.old
        → Step d graph.entry.n old.now → Settled d (related old.now) graph.entry.n stirred.now
        → Led d new.new graph.entry.n result × KeyedIn F graph.entry names.now keys.new }
{
    let mut anchors = [0u16; MOST_ITEMS];
    find_anchors(old, stirred, &mut anchors);
    let before = Before {
        old,
        stirred,
        anchors: &anchors,
        names,
    };
    let mut marks = [0u16; MOST_ITEMS];
    fill_marks(graph, before, keys, &mut marks);
    let mut mid = [0u64; MOST_ITEMS];
    first_round(graph.n, &marks, &mut mid);
    let sorting = Sorting {
        marks: &marks,
        mid: &mid,
        names,
    };
    next_round(graph, sorting, keys, new)
}

// ---- All rounds

// Holds what is handed on from round to round beside the rep map: tags of leaders and names for blocks, which items are stirred, and the
// keys of items under these names, as far as they are known.
#[derive(Drop)]
pub(crate) struct Carried {
    tags: [u16; MOST_ITEMS],
    names: [u64; MOST_ITEMS],
    stirred: [bool; MOST_ITEMS],
    keys: [u64; MOST_ITEMS],
}

// Forgets the keys of the items that are stirred; the others stay.
fn forget_keys(n: usize, stirred: &[bool; MOST_ITEMS], keys: &mut [u64; MOST_ITEMS])
    requires { n ≤ most_items }
    ensures { Forgotten n keys.old keys.new stirred.now }
{
    for x in 0..n {
        if stirred[x] {
            keys[x] = 0;
        }
    }
}

impl Carried {
    // Renames the blocks after a round, stirs the items that the change of names reaches, and forgets their keys.
    fn follow_round(
        &mut self,
        graph: Graph,
        classed: bool,
        order: &[u16; MOST_ITEMS],
        old: &[u64],
        new: &[u64],
    )
        requires { (length new.now ≡ graph.n) × (graph.n ≤ most_items) × (graph.k ≤ most_edges) }
        ensures { (F : Finite) → HeldIn F graph.entry → Closed (structure F)
            → (classed ≡ true → Classed graph.entry) → Step (next F old.now) graph.entry.n old.now
            → Prepared F graph.entry old.now self.old → Reps (next F old.now) graph.entry.n new.now
            → Prepared F graph.entry new.now self.new }
    {
        let changed = name_round(old, new, &mut self.tags, &mut self.names);
        stir(graph, classed, &changed, order, &mut self.stirred);
        forget_keys(graph.n, &self.stirred, &mut self.keys);
    }
}

// Copies a list element by element: the archive for C then asks for no `memmove`.
fn copy(from: &[u64], to: &mut [u64])
    requires { length to.old ≡ length from.now }
    ensures { to.new ≡ from.now }
{
    for (i, element) in from.iter().enumerate() {
        to[i] = *element;
    }
}

// Makes rounds from the first on until one adds no block. A round reads the second list and writes the first.
fn refine(graph: Graph, first: &mut [u64], second: &mut [u64]) -> Counted
    requires { (length first.old ≡ graph.n) × (length second.old ≡ graph.n) × (graph.n ≤ most_items)
        × (graph.k ≤ most_edges) }
    ensures { (F : Finite) → HeldIn F graph.entry → Closed (structure F)
        → Rested F first.new second.new result.blocks result.rounds }
{
    let order = list_order(graph);
    let classed = is_classed(graph);
    let mut count = first_round(graph.n, graph.labels, second);
    // At first every item is stirred, and no key is known.
    let mut carried = Carried {
        tags: [0; MOST_ITEMS],
        names: [0; MOST_ITEMS],
        stirred: [true; MOST_ITEMS],
        keys: [0; MOST_ITEMS],
    };
    first_names(second, &mut carried.tags, &mut carried.names);
    let mut made = 0;
    loop {
        let more = make_round(
            graph,
            second,
            &carried.stirred,
            &carried.names,
            &mut carried.keys,
            first,
        );
        if more <= count {
            return Counted {
                blocks: count as u64,
                rounds: made,
            };
        }
        carried.follow_round(graph, classed, &order, second, first);
        copy(first, second);
        count = more;
        made += 1;
    }
}

// Turns both lists into the block numbers of the last round.
fn run_rounds(graph: Graph, first: &mut [u64], second: &mut [u64]) -> Counted
    requires { (length first.old ≡ graph.n) × (length second.old ≡ graph.n) × (graph.n ≤ most_items)
        × (graph.k ≤ most_edges) }
    ensures { (F : Finite) → HeldIn F graph.entry → Closed (structure F)
        → (first.new ≡ last_blocks F) × (second.new ≡ last_blocks F)
        × (result.blocks ≡ block_count F (rounds F)) × (result.rounds ≡ rounds F) }
{
    let counted = refine(graph, first, second);
    number_blocks(first);
    number_blocks(second);
    counted
}

// Puts the blocks of the last round into the first n numbers of both lists. Where the slices hold no closed structure these numbers and the
// counts are a choice of the code.
pub fn number_lists(graph: Graph, first: &mut [u64], second: &mut [u64]) -> Counted
    ensures first_after { (F : Finite) → Held F graph.entry.n graph.entry.k graph.entry.labels.now graph.entry.nexts.now
        graph.entry.flags.now graph.entry.resets.now graph.entry.spots.now graph.entry.rows.now → Closed (structure F)
        → graph.entry.n ≤ length first.old → graph.entry.n ≤ length second.old
        → (first.new ≡ last_blocks F ++ drop graph.entry.n first.old)
        × (second.new ≡ last_blocks F ++ drop graph.entry.n second.old)
        × (result.blocks ≡ block_count F (rounds F)) × (result.rounds ≡ rounds F) }
    ensures first_unchanged { (drop graph.entry.n first.new ≡ drop graph.entry.n first.old)
        × (drop graph.entry.n second.new ≡ drop graph.entry.n second.old)
        × (NoRoom graph.entry.n first.old second.old → (first.new ≡ first.old)
        × (second.new ≡ second.old) × (result.blocks ≡ 0) × (result.rounds ≡ 0)) }
{
    let n = graph.n;
    if n > MOST_ITEMS || graph.k > MOST_EDGES || first.len() < n || second.len() < n {
        return Counted {
            blocks: 0,
            rounds: 0,
        };
    }
    run_rounds(graph, &mut first[..n], &mut second[..n])
}
