// What an edge lands in the blocks that it leads to, and whether two edges land the same shares there.
ghost use Rattle.std.specs.Prelude.{ℕ, ◌*◌, ◌<◌, ◌≡◌, true, IsTrue, cond, eqb, get_or};
ghost use Rattle.bisimulation.specs.Finite.{all_below, some_below};
ghost use Rattle.comparison.specs.Held.{most_items, most_edges};
ghost use Rattle.comparison.specs.Shares.{Gathered, balanced_by};
ghost use Rattle.comparison.specs.Graphs.{count, weight, whole, number_of, weighed, target_at};

use crate::held::Graph;
use slices::at;

// Edge e at item x under a block list, with the numbers of the blocks that its branches lead to, which are looked up once: of 8 branches,
// as many as an edge of a model has at most.
#[derive(Drop)]
pub(crate) struct Landing<'a> {
    pub(crate) graph: Graph<'a>,
    list: &'a [u64],
    x: usize,
    pub(crate) e: usize,
    numbers: [u64; 8],
    ghost few: { (x < most_items) × (e < most_edges) },
    ghost gathered: { Gathered graph list.now x e numbers },
}

impl<'a> Landing<'a> {
    pub(crate) fn new(graph: Graph<'a>, list: &'a [u64], x: usize, e: usize) -> Landing<'a>
        requires { (x < most_items) × (e < most_edges) }
        ensures { (result.graph ≡ graph.entry) × (result.list ≡ list.entry) × (result.x ≡ x) × (result.e ≡ e) }
    {
        let mut numbers = [0; 8];
        for i in 0..graph.count_at(e).min(8) {
            numbers[i] = at(list, graph.target_at(x, e, i), 0);
        }
        Landing {
            graph,
            list,
            x,
            e,
            numbers,
        }
    }

    // The number of the block that branch i leads to. Nothing is said of branches past the last.
    pub(crate) fn number(&self, i: usize) -> u64
        requires { i < 65536 }
        ensures { let l = self.now in i < count l.graph l.e
            → result ≡ number_of l.graph l.list.now l.x l.e i }
    {
        match self.numbers.get(i) {
            Some(number) => *number,
            None => at(self.list, self.graph.target_at(self.x, self.e, i), 0),
        }
    }

    // The weight that lands in the block with number v. The promise speaks of any c whose number in the list is v.
    pub(crate) fn weigh(&self, v: u64) -> u64
        ensures upper_bound { result < 4294967296 }
        ensures value { let l = self.now in (c : ℕ) → v ≡ get_or l.list.now c 0
            → result ≡ weighed l.graph l.list.now c l.x l.e }
    {
        let mut total = 0;
        for i in 0..self.graph.count_at(self.e) {
            if self.number(i) == v {
                total += self.graph.weight_at(self.e, i) as u64;
            }
        }
        total
    }

    // Does the other edge land the same share in the block with number v?
    fn is_balanced(&self, other: &Landing, v: u64) -> bool
        ensures { (c : ℕ) → v ≡ get_or self.now.list.now c 0 → v ≡ get_or other.now.list.now c 0
            → result ≡ balanced_by self.now.graph self.now.list.now self.now.x self.now.e
            other.now.graph other.now.list.now other.now.x other.now.e c }
    {
        self.weigh(v) * other.graph.whole_at(other.e) as u64
            == other.weigh(v) * self.graph.whole_at(self.e) as u64
    }

    // Does it do so at each target of this edge?
    pub(crate) fn is_balanced_there(&self, other: &Landing) -> bool
        requires { other.now.list.now ≡ self.now.list.now }
        ensures { result ≡ all_below (count self.now.graph self.now.e)
            (λ i. balanced_by self.now.graph self.now.list.now self.now.x self.now.e
            other.now.graph other.now.list.now other.now.x other.now.e (target_at self.now.graph self.now.x self.now.e i)) }
    {
        (0..self.graph.count_at(self.e)).all(|i| self.is_balanced(other, self.number(i)))
    }

    // Does a branch lead to the block with number v?
    fn is_into(&self, v: u64) -> bool
        ensures { result ≡ some_below (count self.now.graph self.now.e)
            (λ i. eqb (number_of self.now.graph self.now.list.now self.now.x self.now.e i) v) }
    {
        (0..self.graph.count_at(self.e)).any(|i| self.number(i) == v)
    }

    // Where both land the same share at each target of this edge, do they at each target of the other? Shares are weighed only at blocks
    // that this edge does not lead to.
    pub(crate) fn is_balanced_back(&self, other: &Landing) -> bool
        requires { other.now.list.now ≡ self.now.list.now }
        ensures { all_below (count self.now.graph self.now.e)
            (λ i. balanced_by self.now.graph self.now.list.now self.now.x self.now.e
            other.now.graph other.now.list.now other.now.x other.now.e (target_at self.now.graph self.now.x self.now.e i)) ≡ true
            → result ≡ all_below (count other.now.graph other.now.e)
            (λ i. balanced_by self.now.graph self.now.list.now self.now.x self.now.e
            other.now.graph other.now.list.now other.now.x other.now.e (target_at other.now.graph other.now.x other.now.e i)) }
    {
        (0..other.graph.count_at(other.e)).all(|i| {
            let v = other.number(i);
            self.is_into(v) || self.is_balanced(other, v)
        })
    }
}
