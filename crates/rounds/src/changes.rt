// What a change of names reaches: the items that must be compared again. Each item that leads to one whose name changed is stirred, and
// where a test fails all others are. Along delays this is found from the last item of each chain back. Along edges it is found by clocks:
// a branch leads to an item with the clocks that the item's own become under the branch's mask, so the clocks of changed items are marked.
// Of an item that such a mark touches, the available edges are gone through: it rests where none leads to a change.
ghost use Rattle.std.specs.Prelude.{ℕ, ◌+◌, ◌<◌, ◌≤◌, ◌≡◌, true, false, length, get_or};
ghost use Rattle.comparison.specs.Held.{most_items, most_edges, mask_room, Opened};
ghost use Rattle.rounds.specs.Changes.{Stirred, BranchClassed, EdgeClassed, ItemClassed, Classed, RestsByDelay, Still};
ghost use Rattle.rounds.specs.Changes.{Kept, Marked, UsedBy, Used, UntouchedBy, Untouched, EdgeCalm, EdgesCalm};
ghost use Rattle.rounds.specs.Changes.{RestsAt, Spared};

use crate::MOST_ITEMS;
use comparison::Graph;
use slices::{at, put};

// Counts the masks: each tells which of four clocks are reset.
const MASKS: usize = 16;

// ---- An order in which what follows by delay comes first. Only speed depends on it: what is found by it is verified.

// Is item x not placed yet, and what follows it placed, if anything follows?
fn is_ready(graph: Graph, x: usize, placed: &[bool; MOST_ITEMS]) -> bool
    requires { x < most_items }
{
    let next = usize::from(at(graph.nexts, x, 0));
    !placed[x] && (graph.n <= next || at(placed, next, false))
}

// Makes a pass over all items, from the last one down, and places those that are ready. The answer is the count of those placed.
fn place_ready(
    graph: Graph,
    start: usize,
    placed: &mut [bool; MOST_ITEMS],
    order: &mut [u16; MOST_ITEMS],
) -> usize
    requires { (graph.n ≤ most_items) × (start ≤ most_items) }
{
    let mut count = start;
    for x in (0..graph.n).rev() {
        if is_ready(graph, x, placed) {
            placed[x] = true;
            put(order, count, x as u16);
            count += 1;
        }
    }
    count
}

// Makes passes until one places nothing. Items that are on no chain which ends are left out.
pub(crate) fn list_order(graph: Graph) -> [u16; MOST_ITEMS]
    requires { graph.n ≤ most_items }
{
    let mut order = [0u16; MOST_ITEMS];
    let mut placed = [false; MOST_ITEMS];
    let mut count = 0;
    while count < graph.n {
        let more = place_ready(graph, count, &mut placed, &mut order);
        if more <= count {
            break;
        }
        count = more;
    }
    order
}

// ---- Still items: neither they nor what follows them by delay has changed

// Has item x not changed, and is what follows it marked as still, if anything follows?
fn rests_by_delay(
    graph: Graph,
    x: usize,
    changed: &[bool; MOST_ITEMS],
    still: &[bool; MOST_ITEMS],
) -> bool
    ensures { result ≡ true → RestsByDelay graph.entry changed.now still.now x }
{
    let next = usize::from(at(graph.nexts, x, 0));
    !at(changed, x, false) && (graph.n <= next || at(still, next, false))
}

// Marks still items along the order.
fn mark_still(
    graph: Graph,
    changed: &[bool; MOST_ITEMS],
    order: &[u16; MOST_ITEMS],
) -> [bool; MOST_ITEMS]
    requires { graph.n ≤ most_items }
{
    let mut still = [false; MOST_ITEMS];
    for place in &order[..graph.n] {
        let x = usize::from(*place);
        let rests = rests_by_delay(graph, x, changed, &still);
        put(&mut still, x, rests);
    }
    still
}

// Does each item that is marked as still rest by delay?
fn is_still(graph: Graph, changed: &[bool; MOST_ITEMS], still: &[bool; MOST_ITEMS]) -> bool
    ensures { result ≡ true → Still graph.entry changed.now still.now }
{
    for x in 0..graph.n {
        if at(still, x, false) && !rests_by_delay(graph, x, changed, still) {
            return false;
        }
    }
    true
}

// ---- Are targets as their clocks say?

// Does a branch lead to an item with the clocks that those of x become under its mask, and is there a mark for those?
fn is_branch_classed(graph: Graph, x: usize, e: usize, i: usize) -> bool
    requires { (graph.n ≤ most_items) × (x < most_items) × (e < most_edges) × (i < 65536) }
    ensures { result ≡ true → BranchClassed graph.entry x e i }
{
    let target = graph.target_of(x, e, i);
    let mask = usize::from(at(graph.rows, 32 * e + 4 + 3 * i, 0));
    let class = at(graph.resets, MASKS * x + mask, 0);
    target < graph.n
        && mask < MASKS
        && usize::from(class) < MOST_ITEMS
        && at(graph.resets, MASKS * target, 0) == class
}

// Are all branches of an edge so at item x?
fn is_edge_classed(graph: Graph, x: usize, e: usize) -> bool
    requires { (graph.n ≤ most_items) × (x < most_items) × (e < most_edges) }
    ensures { result ≡ true → EdgeClassed graph.entry x e }
{
    let count = usize::from(at(graph.rows, 32 * e + 2, 0));
    for i in 0..count {
        if !is_branch_classed(graph, x, e, i) {
            return false;
        }
    }
    true
}

// Are those of all edges that are available at item x?
fn is_item_classed(graph: Graph, x: usize) -> bool
    requires { (graph.n ≤ most_items) × (graph.k ≤ most_edges) × (x < most_items) }
    ensures { result ≡ true → Opened graph.entry.n graph.entry.k graph.entry.flags.now
        → x < graph.entry.n → ItemClassed graph.entry x }
{
    let mut e = graph.open_edge(x, graph.k);
    while 0 < e {
        if !is_edge_classed(graph, x, e - 1) {
            return false;
        }
        e = graph.open_edge(x, e - 1);
    }
    true
}

// Are those of all items?
pub(crate) fn is_classed(graph: Graph) -> bool
    requires { (graph.n ≤ most_items) × (graph.k ≤ most_edges) }
    ensures { result ≡ true → Opened graph.entry.n graph.entry.k graph.entry.flags.now
        → Classed graph.entry }
{
    for x in 0..graph.n {
        if !is_item_classed(graph, x) {
            return false;
        }
    }
    true
}

// ---- Marks

// Marks the clocks of the items that changed.
fn mark_classes(graph: Graph, changed: &[bool; MOST_ITEMS]) -> [bool; MOST_ITEMS]
    requires { graph.n ≤ most_items }
    ensures { Marked graph.entry changed.now result }
{
    let mut marks = [false; MOST_ITEMS];
    for x in 0..graph.n {
        if changed[x] {
            put(
                &mut marks,
                usize::from(at(graph.resets, MASKS * x, 0)),
                true,
            );
        }
    }
    marks
}

// Flags the masks of the branches of an edge.
fn mark_edge_masks(graph: Graph, e: usize, used: &mut [bool; MASKS])
    requires { e < most_edges }
    ensures { Kept used.old used.new × UsedBy graph.entry used.new e }
{
    let count = usize::from(at(graph.rows, 32 * e + 2, 0));
    for i in 0..count {
        put(
            used,
            usize::from(at(graph.rows, 32 * e + 4 + 3 * i, 0)),
            true,
        );
    }
}

// Flags the masks in use.
fn mark_masks(graph: Graph) -> [bool; MASKS]
    requires { graph.k ≤ most_edges }
    ensures { Used graph.entry result }
{
    let mut used = [false; MASKS];
    for e in 0..graph.k {
        mark_edge_masks(graph, e, &mut used);
    }
    used
}

// ---- Stirred items

// Are clocks marked that those of x become under a mask in use?
fn is_touched(graph: Graph, x: usize, used: &[bool; MASKS], marks: &[bool; MOST_ITEMS]) -> bool
    requires { x < most_items }
    ensures { result ≡ false → Untouched graph.entry used.now marks.now x }
{
    for mask in 0..MASKS {
        if used[mask]
            && at(
                marks,
                usize::from(at(graph.resets, MASKS * x + mask, 0)),
                false,
            )
        {
            return true;
        }
    }
    false
}

// Does edge e at item x lead to nothing that has changed? Nothing is said where the answer is no.
fn is_edge_calm(graph: Graph, x: usize, e: usize, changed: &[bool; MOST_ITEMS]) -> bool
    requires { (x < most_items) × (e < most_edges) }
    ensures { result ≡ true → EdgeCalm graph.entry changed.now x e }
{
    let count = usize::from(at(graph.rows, 32 * e + 2, 0));
    for i in 0..count {
        let target = graph.target_of(x, e, i);
        if at(changed, target, false) {
            return false;
        }
    }
    true
}

// Do all edges that are available at item x lead to nothing that has changed? Nothing is said where the answer is no.
fn are_edges_calm(graph: Graph, x: usize, changed: &[bool; MOST_ITEMS]) -> bool
    requires { (graph.k ≤ most_edges) × (x < most_items) }
    ensures { result ≡ true → (n : ℕ) → Opened n graph.entry.k graph.entry.flags.now → x < n
        → EdgesCalm graph.entry changed.now x }
{
    let mut e = graph.open_edge(x, graph.k);
    while 0 < e {
        if !is_edge_calm(graph, x, e - 1, changed) {
            return false;
        }
        e = graph.open_edge(x, e - 1);
    }
    true
}

// Is item x not still, or touched while an available edge leads to what has changed? Nothing is said where the answer is yes. Only the
// edges of touched items are gone through.
fn is_stirred(
    graph: Graph,
    x: usize,
    changed: &[bool; MOST_ITEMS],
    used: &[bool; MASKS],
    still: &[bool; MOST_ITEMS],
    marks: &[bool; MOST_ITEMS],
) -> bool
    requires { (graph.k ≤ most_edges) × (x < most_items) }
    ensures { (n : ℕ) → Opened n graph.entry.k graph.entry.flags.now → x < n
        → RestsAt graph.entry changed.now used.now still.now marks.now x result }
{
    !still[x] || is_touched(graph, x, used, marks) && !are_edges_calm(graph, x, changed)
}

// Stirs what is not still, and what a change reaches by an edge.
fn stir_some(
    graph: Graph,
    changed: &[bool; MOST_ITEMS],
    still: &[bool; MOST_ITEMS],
    stirred: &mut [bool; MOST_ITEMS],
)
    requires { (graph.n ≤ most_items) × (graph.k ≤ most_edges) }
    ensures { Opened graph.entry.n graph.entry.k graph.entry.flags.now
        → Spared graph.entry changed.now still.now stirred.new }
{
    let marks = mark_classes(graph, changed);
    let used = mark_masks(graph);
    for x in 0..graph.n {
        stirred[x] = is_stirred(graph, x, changed, &used, still, &marks);
    }
}

// Marks the items that are stirred: all of them where targets are not as their clocks say, or where the marks of still items fail
// their test. An item that the order leaves out is stirred.
pub(crate) fn stir(
    graph: Graph,
    classed: bool,
    changed: &[bool; MOST_ITEMS],
    order: &[u16; MOST_ITEMS],
    stirred: &mut [bool; MOST_ITEMS],
)
    requires { (graph.n ≤ most_items) × (graph.k ≤ most_edges) }
    ensures { Opened graph.entry.n graph.entry.k graph.entry.flags.now
        → (classed ≡ true → Classed graph.entry) → Stirred graph.entry changed.now stirred.new }
{
    if classed {
        let still = mark_still(graph, changed, order);
        if is_still(graph, changed, &still) {
            stir_some(graph, changed, &still, stirred);
            return;
        }
    }
    stirred.fill(true);
}
