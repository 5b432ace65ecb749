// Judging a proposal: each item against the first one with its number.
ghost use Rattle.std.specs.Prelude.{◌+◌, ◌%◌, ◌<◌, ◌≤◌, ◌≡◌, true, false, MatchOption};
ghost use Rattle.bisimulation.specs.Structures.{Closed};
ghost use Rattle.bisimulation.specs.Finite.{Finite, structure, related, lead, accepts};
ghost use Rattle.bisimulation.specs.Below.{Reps};
ghost use Rattle.comparison.specs.Held.{Held, most_items};
ghost use Rattle.comparison.specs.Compare.{Below};
ghost use Rattle.rounds.specs.Firsts.{bucket_prime, Indexed};
ghost use Rattle.rounds.specs.Rounds.{HeldIn, judged_with};

use crate::MOST_ITEMS;
use crate::links::Buckets;
use comparison::Graph;
use slices::at;

// ---- Each item's lead in the proposal: the first item with its number

// Counts the buckets: the largest prime that is no more than 4,096, since remainders by it spread well.
const BUCKETS: usize = 4093;

fn bucket_of(number: u64) -> usize
    ensures { result ≡ number % bucket_prime }
{
    (number % BUCKETS as u64) as usize
}

// Finds the first item with the number of item x, among those below x. The index has those of them that are first with their numbers.
fn find_first(x: usize, proposal: &[u64], index: &Buckets) -> Option<usize>
    requires { Indexed proposal.now index.now x }
    ensures { MatchOption result (lead (related proposal.now) x ≡ x) (λ y. (lead (related proposal.now) x ≡ y) × (y < x)) }
{
    let number = at(proposal, x, 0);
    let mut next = index.newest(bucket_of(number));
    while let Some(y) = next {
        if at(proposal, y, 0) == number {
            break;
        }
        next = index.before(y);
    }
    next
}

// Makes the list of each item's lead in the proposal.
fn list_firsts(n: usize, proposal: &[u64]) -> [u64; MOST_ITEMS]
    requires { n ≤ most_items }
    ensures { Reps (related proposal.now) n result }
{
    let mut firsts = [0u64; MOST_ITEMS];
    let mut index = Buckets::new();
    for x in 0..n {
        let first = match find_first(x, proposal, &index) {
            Some(first) => first,
            None => {
                index.put(bucket_of(at(proposal, x, 0)), x);
                x
            }
        };
        firsts[x] = first as u64;
    }
    firsts
}

// ---- Judging by leads

// Have two items with the same number equal labels, and meet both conditions both ways?
fn is_alike(graph: Graph, x: usize, y: usize, list: &[u64]) -> bool
    ensures { (F : Finite) → HeldIn F graph.entry → Closed (structure F)
        → Below graph.entry.n list.now → x < graph.entry.n → y < graph.entry.n
        → related list.now x y ≡ true → result ≡ judged_with F list.now x y }
{
    at(graph.labels, x, 0) == at(graph.labels, y, 0)
        && (graph.is_twin(x, y, list) || graph.is_next(x, y, list))
}

// Is a partition a bisimulation, given by each item's lead?
fn judge_firsts(graph: Graph, firsts: &[u64; MOST_ITEMS]) -> bool
    requires { graph.n ≤ most_items }
    ensures { (F : Finite) → HeldIn F graph.entry → Closed (structure F)
        → Reps (related firsts.now) graph.entry.n firsts.now → result ≡ accepts F firsts.now }
{
    for x in 0..graph.n {
        if !is_alike(graph, x, firsts[x] as usize, firsts) {
            return false;
        }
    }
    true
}

// Is the proposal a bisimulation? Judged by each item's lead in it, which is below n, while a proposal's numbers may be any. More than
// 4,096 items are never a bisimulation to it. For fewer, where the slices hold no closed structure, the answer is a choice of the code.
pub fn judge(graph: Graph, proposal: &[u64]) -> bool
    ensures value { (F : Finite) → Held F graph.entry.n graph.entry.k graph.entry.labels.now graph.entry.nexts.now
        graph.entry.flags.now graph.entry.resets.now graph.entry.spots.now graph.entry.rows.now
        → Closed (structure F) → result ≡ accepts F proposal.now }
    ensures value_2 { 4096 < graph.entry.n → result ≡ false }
{
    graph.n <= MOST_ITEMS && judge_firsts(graph, &list_firsts(graph.n, proposal))
}
