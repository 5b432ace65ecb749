// Comparing two items under a block list: the parts of the two conditions of document 01, over a structure in slices.
ghost use Rattle.std.specs.Prelude.{ℕ, ◌<◌, ◌≡◌, cond, length, get_or};
ghost use Rattle.bisimulation.specs.Finite.{related};
ghost use Rattle.comparison.specs.Held.{most_items, most_edges};
ghost use Rattle.comparison.specs.Compare.{Below};
ghost use Rattle.comparison.specs.Graphs.{reaches_number, all_marked, delays_answered, edges_alike};

use crate::held::Graph;
use crate::shares::Landing;
use slices::{at, put};

// Do two items have the same number?
pub(crate) fn is_related(x: usize, y: usize, list: &[u64]) -> bool
    ensures { result ≡ related list.now x y }
{
    at(list, x, 0) == at(list, y, 0)
}

impl Graph<'_> {
    // Sets the mark of the number of each item that y reaches by delay.
    fn mark_delays(self, y: usize, list: &[u64], marks: &mut [u8])
        ensures { (v : ℕ) → v < length marks.old → get_or marks.new v 0
            ≡ cond (reaches_number self.entry list.now v y) 1 (get_or marks.old v 0) }
    {
        for item in self.delays(y) {
            put(marks, at(list, item, 0) as usize, 1);
        }
    }

    // Is the number of each item that x reaches by delay marked?
    fn are_marked(self, x: usize, list: &[u64], marks: &[u8]) -> bool
        ensures { result ≡ all_marked self.entry list.now marks.now x }
    {
        self.delays(x)
            .all(|item| at(marks, at(list, item, 0) as usize, 0) == 1)
    }

    // Is each item that x reaches by delay related to one that y reaches?
    pub(crate) fn delays_match(self, x: usize, y: usize, list: &[u64]) -> bool
        ensures { Below self.entry.n list.now → x < self.entry.n → result ≡ delays_answered self.entry list.now x y }
    {
        let mut marks = [0u8; 4096];
        self.mark_delays(y, list, &mut marks);
        self.are_marked(x, list, &marks)
    }

    // Have edge e at x and edge f at y the same action, and the same share for every block?
    pub(crate) fn edges_alike(self, x: usize, e: usize, y: usize, f: usize, list: &[u64]) -> bool
        requires { (x < most_items) × (e < most_edges) × (y < most_items) × (f < most_edges) }
        ensures { result ≡ edges_alike self.entry list.now x e y f }
    {
        if self.action_at(e) != self.action_at(f) {
            return false;
        }
        let one = Landing::new(self, list, x, e);
        let other = Landing::new(self, list, y, f);
        one.is_balanced_there(&other) && one.is_balanced_back(&other)
    }
}
