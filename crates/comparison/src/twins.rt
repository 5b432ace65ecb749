// Items that are plainly alike: their delays pass through the same blocks in the same order, and their available edges, one by one from
// the last down, have the same action, denominator and weights and lead to related items. The next round relates them then, and neither
// keys nor shares need to be computed. Where the test fails nothing is said.
ghost use Rattle.std.specs.Prelude.{ℕ, ◌<◌, ◌≤◌, ◌≡◌, true, false, IsTrue};
ghost use Rattle.bisimulation.specs.Finite.{related};
ghost use Rattle.comparison.specs.Held.{most_items, most_edges};
ghost use Rattle.comparison.specs.Graphs.{Onward, Opened, RunTo, DelaysAgree, BothAlike, SameRow, edges_answered, next_round};

use crate::compare::is_related;
use crate::held::Graph;

impl Graph<'_> {
    // ---- Delays

    // The last item of a run: from x on by delay, as long as the number stays.
    fn run_end(self, x: usize, list: &[u64]) -> usize
        ensures { Onward self.entry → x < self.entry.n → RunTo self.entry list.now x result }
    {
        let mut last = x;
        for _ in 0..self.n {
            match self.after(last) {
                Some(next) if is_related(last, next, list) => last = next,
                _ => return last,
            }
        }
        last
    }

    // Do the delays of two related items pass through the same blocks in the same order?
    pub(crate) fn runs_alike(self, x: usize, y: usize, list: &[u64]) -> bool
        ensures { IsTrue result → Onward self.entry → x < self.entry.n → y < self.entry.n → related list.now x y ≡ true
            → DelaysAgree self.entry list.now x y }
    {
        let mut one = x;
        let mut other = y;
        for _ in 0..self.n {
            let last = self.run_end(one, list);
            let stop = self.run_end(other, list);
            if last == stop {
                return true;
            }
            match (self.after(last), self.after(stop)) {
                (None, None) => return true,
                (Some(next), Some(follow)) if is_related(next, follow, list) => {
                    one = next;
                    other = follow;
                }
                _ => return false,
            }
        }
        false
    }

    // ---- Edges

    // Have two edges the same action, denominator and weights?
    fn has_same_row(self, e: usize, f: usize) -> bool
        requires { (e < most_edges) × (f < most_edges) }
        ensures { IsTrue result → SameRow self.entry e f }
    {
        if e == f {
            return true;
        }
        if self.action_at(e) != self.action_at(f)
            || self.whole_at(e) != self.whole_at(f)
            || self.count_at(e) != self.count_at(f)
        {
            return false;
        }
        (0..self.count_at(e)).all(|i| self.weight_at(e, i) == self.weight_at(f, i))
    }

    // Has edge e the action, denominator and weights of edge f, and lead their branches at x and at y, one by one, to related items?
    pub(crate) fn is_paired(self, x: usize, e: usize, y: usize, f: usize, list: &[u64]) -> bool
        requires { (x < most_items) × (e < most_edges) × (y < most_items) × (f < most_edges) }
        ensures { IsTrue result → BothAlike self.entry list.now x e y f }
    {
        self.has_same_row(e, f)
            && (0..self.count_at(e)).all(|i| is_related(
                self.target_at(x, e, i),
                self.target_at(y, f, i),
                list,
            ))
    }

    // Are the available edges of x and of y paired, from the last down?
    fn are_paired(self, x: usize, y: usize, list: &[u64]) -> bool
        requires { (self.k ≤ most_edges) × (x < most_items) × (y < most_items) }
        ensures { IsTrue result → Opened self.entry → x < self.entry.n → y < self.entry.n
            → (edges_answered self.entry list.now x y ≡ true) × (edges_answered self.entry list.now y x ≡ true) }
    {
        let mut others = self.open(y);
        for e in self.open(x) {
            match others.next() {
                Some(f) if self.is_paired(x, e, y, f, list) => {}
                _ => return false,
            }
        }
        others.next().is_none()
    }

    // May all available edges of x and of y be paired? The last two that have different numbers are tried, before all others are gone
    // through: pairs of one edge seldom differ. Nothing is said by the answer; only the speed depends on it.
    fn may_be_paired(self, x: usize, y: usize, list: &[u64]) -> bool
        requires { (self.k ≤ most_edges) × (x < most_items) × (y < most_items) }
    {
        let mut others = self.open(y);
        for e in self.open(x) {
            match others.next() {
                Some(f) if e == f => {}
                Some(f) => return self.is_paired(x, e, y, f, list),
                None => return false,
            }
        }
        true
    }

    // ---- Both

    // Are x and y plainly alike? Only `true` says something; for numbers that are not below n it is not said.
    pub fn is_twin(self, x: usize, y: usize, list: &[u64]) -> bool
        ensures y_value { result ≡ true → Onward self.entry → Opened self.entry → x < self.entry.n → y < self.entry.n
            → next_round self.entry list.now x y ≡ true }
        ensures value { (self.entry.n ≤ x → result ≡ false) × (self.entry.n ≤ y → result ≡ false) }
    {
        if !self.has(x, y) || !is_related(x, y, list) || !self.runs_alike(x, y, list) {
            return false;
        }
        self.may_be_paired(x, y, list) && self.are_paired(x, y, list)
    }
}
