// Kins: earlier items that stand for others. What was found of a kin holds of every item that is plainly alike to it, and is not worked
// out again. Items of one block may have different edges, or have them lead elsewhere, and a kin stands for one set of edges and for where
// they lead: kins are found by a sign of these.
ghost use Rattle.std.specs.Prelude.{ℕ, ◌+◌, ◌<◌, ◌≡◌, IfSome};
ghost use Rattle.bisimulation.specs.Structures.{Closed};
ghost use Rattle.bisimulation.specs.Finite.{Finite, structure, next};
ghost use Rattle.comparison.specs.Held.{most_items, most_edges};
ghost use Rattle.rounds.specs.Rounds.{HeldIn, KinsBelow, KinOf};

use crate::links::Buckets;
use crate::{MOST_EDGES, MOST_ITEMS};
use comparison::Graph;
use slices::at;

// Counts the kins of one sign that are tried for an item. Only the speed depends on it.
const KIN_COUNT: usize = 3;

const SIGN_PRIME: usize = 4093;

const SIGN_BASE: usize = 37;

// Tells how far apart in the table the edges are that count in a sign by where they lead. All count by their numbers.
const SIGN_STEP: usize = 8;

// Takes an edge of item x into a sign: its action, and the weight and the block of each of its branches. Each branch counts by its place,
// so that another order gives another sign as a rule.
fn sign_edge(graph: Graph, x: usize, e: usize, names: &[u64; MOST_ITEMS], sign: usize) -> usize
    requires { (e < most_edges) × (sign < most_items) }
    ensures { result < most_items }
{
    let count = usize::from(at(graph.rows, 32 * e + 2, 0));
    let mut sum = sign * SIGN_BASE + usize::from(at(graph.rows, 32 * e, 0));
    let mut factor = 11;
    for i in 0..count {
        let target = graph.target_of(x, e, i);
        let block = at(names, target, 0) as usize % MOST_ITEMS;
        let weight = usize::from(at(graph.rows, 32 * e + 3 + 3 * i, 0));
        sum += (block * 41 + weight) * factor;
        factor = factor * 961 % SIGN_PRIME;
    }
    sum % SIGN_PRIME
}

// Makes the sign of item x: a number of its available edges, from the last down, under which its kins are found. Each edge counts by its
// number, and one whose number is a multiple of eight also by its action, its weights and where it leads: to take every edge so would take
// nearly as long as comparing them. Items that are plainly alike by the same edges have the same sign, while those that are alike by edges
// of other numbers have others as a rule and are not found. Others seldom have the same, but for items that differ in their delays, or in
// where edges lead whose numbers alone count. Nothing but its bound is promised, and only the speed depends on it.
pub(crate) fn sign_of(graph: Graph, x: usize, names: &[u64; MOST_ITEMS]) -> usize
    ensures { result < most_items }
{
    if graph.k > MOST_EDGES {
        return 0;
    }
    let mut sign = 0;
    let mut e = graph.open_edge(x, graph.k);
    while 0 < e {
        sign = (sign * SIGN_BASE + (e - 1)) % SIGN_PRIME;
        if (e - 1) % SIGN_STEP == 0 {
            sign = sign_edge(graph, x, e - 1, names, sign);
        }
        e = graph.open_edge(x, e - 1);
    }
    sign
}

// Finds a kin that item x is plainly alike to. An item is given that is tried first, and then the kins before it are.
pub(crate) fn find_kin(
    graph: Graph,
    x: usize,
    first: Option<usize>,
    names: &[u64; MOST_ITEMS],
    kins: &Buckets,
) -> Option<usize>
    ensures { (F : Finite) → HeldIn F graph.entry → Closed (structure F) → x < graph.entry.n
        → KinsBelow x kins.now → IfSome first (λ z. z < x) → KinOf (next F names.now) x result }
{
    let mut tried = first;
    for _ in 0..KIN_COUNT {
        let kin = tried?;
        if graph.is_twin(kin, x, names) {
            return tried;
        }
        tried = kins.before(kin);
    }
    None
}

// Makes item x the newest kin of its sign, where its key had to be computed: it was not plainly alike to those that were tried.
pub(crate) fn put_kin(x: usize, sign: usize, keys: &[u64; MOST_ITEMS], kins: &mut Buckets)
    requires { (x < most_items) × (sign < most_items) }
    ensures { (i : ℕ) → x < i → KinsBelow i kins.old → KinsBelow i kins.new }
{
    if keys[x] != 0 {
        kins.put(sign, x);
    }
}
