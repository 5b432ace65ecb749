// A finite structure in slices.
ghost use Rattle.std.specs.Prelude.{ℕ, ◌+◌, ◌*◌, ◌<◌, ◌≤◌, ◌≡◌, ◌↔◌, IsTrue, true, false, Some, length, List, [], IsSome};
ghost use Rattle.std.specs.Iterator.{YieldsFirst, item_count, at_most};
ghost use Rattle.comparison.specs.Held.{most_items, most_edges};
ghost use Rattle.comparison.specs.Held.{told_at, open_edge};
ghost use Rattle.comparison.specs.Walks.{flags_below, OpenStep, delays_left};
ghost use Rattle.comparison.specs.Graphs.{after, chain, is_open, action, whole, count, weight, target_at, target_of};

use crate::numbers::byte_at;
use slices::at;

// A finite structure with `n` items and `k` edges, in slices: of each item its label, and what follows it by delay (`nexts`); at each item
// and edge, the number after the last available edge up to there (`flags`); of each edge, one row. The target of a branch is found in two
// steps: what the clocks of the item become under a mask (`resets`), and the item with those clocks at a location (`spots`).
#[derive(Clone, Copy)]
pub struct Graph<'a> {
    pub n: usize,
    pub k: usize,
    pub labels: &'a [u16],
    pub nexts: &'a [u16],
    pub flags: &'a [u8],
    pub resets: &'a [u16],
    pub spots: &'a [u16],
    pub rows: &'a [u16],
}

// The available edges of an item, from the last down. What is left are the flags of the edges before the one that was met last.
#[derive(Drop)]
pub struct Open<'a> {
    pub flags: &'a [u8],
}

impl Iterator for Open<'_> {
    type Item = usize;

    ghost next_gives = { λ s r t. OpenStep s.flags.now r t.flags.now };

    ghost remaining = { λ s. at_most (length s.flags.now) };

    fn next(&mut self) -> Option<usize> {
        let after = usize::from(*self.flags.last()?);
        if self.flags.len() < after {
            return None;
        }
        let e = after.checked_sub(1)?;
        self.flags = &self.flags[..e];
        Some(e)
    }
}

// An item and what it reaches by delay, one after the other.
#[derive(Drop)]
pub struct Delays<'a> {
    pub n: usize,
    pub nexts: &'a [u16],
    pub next: Option<usize>,
    pub left: usize,
}

impl Iterator for Delays<'_> {
    type Item = usize;

    ghost next_gives = { YieldsFirst (λ s. delays_left s.n s.nexts.now s.left s.next) };

    ghost remaining = { item_count (λ s. delays_left s.n s.nexts.now s.left s.next) };

    fn next(&mut self) -> Option<usize> {
        let item = self.next?;
        self.next = match self.left.checked_sub(1) {
            Some(left) => {
                self.left = left;
                let next = usize::from(at(self.nexts, item, 0));
                (next < self.n).then_some(next)
            }
            None => None,
        };
        Some(item)
    }
}

impl<'a> Graph<'a> {
    // Are x and y items, of so many items and edges as there may be?
    pub(crate) fn has(self, x: usize, y: usize) -> bool
        ensures { IsTrue result ↔ ((self.entry.n ≤ most_items) × (self.entry.k ≤ most_edges)
            × (x < self.entry.n) × (y < self.entry.n)) }
    {
        self.n <= 4096 && self.k <= 128 && x < self.n && y < self.n
    }

    // Tells what follows item x by delay, if anything does.
    pub fn after(self, x: usize) -> Option<usize>
        ensures { result ≡ after self.entry x }
    {
        let next = usize::from(at(self.nexts, x, 0));
        if next < self.n { Some(next) } else { None }
    }

    // Goes over item x and what it reaches by delay.
    pub fn delays(self, x: usize) -> Delays<'a>
        ensures { delays_left result.n result.nexts.now result.left result.next ≡ chain self.entry x }
    {
        Delays {
            n: self.n,
            nexts: self.nexts,
            next: Some(x),
            left: self.n,
        }
    }

    // Goes over the edges that are available at item x, from the last down.
    pub fn open(self, x: usize) -> Open<'a>
        ensures { (result.flags.now ≡ flags_below self.entry.flags.now x self.entry.k) × (length result.flags.now ≤ self.entry.k) }
    {
        self.open_before(x, self.k)
    }

    // The same for those before edge e.
    pub fn open_before(self, x: usize, e: usize) -> Open<'a>
        ensures { (result.flags.now ≡ flags_below self.entry.flags.now x e) × (length result.flags.now ≤ e) }
    {
        let start = x.saturating_mul(128).min(self.flags.len());
        let flags = &self.flags[start..];
        Open {
            flags: flags.get(..e).unwrap_or(&[]),
        }
    }

    // Is edge e available at item x?
    pub(crate) fn is_open(self, x: usize, e: usize) -> bool
        requires { (x < most_items) × (e < most_edges) }
        ensures { result ≡ is_open self.entry x e }
    {
        usize::from(at(self.flags, 128 * x + e, 0)) == e + 1
    }

    pub(crate) fn action_at(self, e: usize) -> usize
        requires { e < most_edges }
        ensures { (result ≡ action self.entry e) × (result < 65536) }
    {
        usize::from(at(self.rows, 32 * e, 0))
    }

    // The denominator of the shares of edge e.
    pub(crate) fn whole_at(self, e: usize) -> usize
        requires { e < most_edges }
        ensures { (result ≡ whole self.entry e) × (result < 65536) }
    {
        usize::from(at(self.rows, 32 * e + 1, 0))
    }

    // How many branches edge e has.
    pub(crate) fn count_at(self, e: usize) -> usize
        requires { e < most_edges }
        ensures { (result ≡ count self.entry e) × (result < 65536) }
    {
        usize::from(at(self.rows, 32 * e + 2, 0))
    }

    pub(crate) fn weight_at(self, e: usize, i: usize) -> usize
        requires { (e < most_edges) × (i < 65536) }
        ensures { (result ≡ weight self.entry e i) × (result < 65536) }
    {
        usize::from(at(self.rows, 32 * e + 3 + 3 * i, 0))
    }

    // Tells the action of edge e, for all numbers: 0 past the edges that there may be.
    pub fn action(self, e: usize) -> usize
        ensures value { e < most_edges → (result ≡ action self.entry e) × (result < 65536) }
        ensures past { most_edges ≤ e → result ≡ 0 }
    {
        if e < 128 { self.action_at(e) } else { 0 }
    }

    // Tells the denominator of the shares of edge e, for all numbers.
    pub fn whole(self, e: usize) -> usize
        ensures value { e < most_edges → (result ≡ whole self.entry e) × (result < 65536) }
        ensures past { most_edges ≤ e → result ≡ 0 }
    {
        if e < 128 { self.whole_at(e) } else { 0 }
    }

    // Tells how many branches edge e has, for all numbers.
    pub fn count(self, e: usize) -> usize
        ensures value { e < most_edges → (result ≡ count self.entry e) × (result < 65536) }
        ensures past { most_edges ≤ e → result ≡ 0 }
    {
        if e < 128 { self.count_at(e) } else { 0 }
    }

    // Tells the weight of branch i of edge e, for all numbers: 0 past the edges and branches that there may be. Past the branches that the
    // edge has, it is the number that stands there.
    pub fn weight(self, e: usize, i: usize) -> usize
        ensures value { e < most_edges → i < 65536 → (result ≡ weight self.entry e i) × (result < 65536) }
        ensures past_edges { most_edges ≤ e → result ≡ 0 }
        ensures past_branches { 65536 ≤ i → result ≡ 0 }
    {
        if e < 128 && i < 65536 {
            self.weight_at(e, i)
        } else {
            0
        }
    }
}

impl Graph<'_> {
    // What the flags tell of the edges below e at item x.
    fn told_at(self, x: usize, e: usize) -> usize
        requires { (x < most_items) × (0 < e) × (e ≤ most_edges) }
        ensures { result ≡ told_at self.entry.flags.now x e }
    {
        let last = byte_at(self.flags, 128 * x + (e - 1));
        if last <= e { last } else { 0 }
    }

    // The same for all numbers and all flags (`open_edge`): 0 past the items and edges that there may be, and where the number that stands
    // there is past e.
    pub fn open_edge(self, x: usize, e: usize) -> usize
        ensures { result ≡ open_edge self.entry.flags.now x e }
    {
        if 4096 <= x {
            return 0;
        }
        if 128 < e {
            return 0;
        }
        if e == 0 {
            return 0;
        }
        self.told_at(x, e)
    }

    // Where branch i of edge e leads from item x.
    pub(crate) fn target_at(self, x: usize, e: usize, i: usize) -> usize
        requires { (x < most_items) × (e < most_edges) × (i < 65536) }
        ensures { result ≡ target_at self.entry x e i }
    {
        let mask = usize::from(at(self.rows, 32 * e + 4 + 3 * i, 0));
        let spot = usize::from(at(self.rows, 32 * e + 5 + 3 * i, 0));
        let clocks = usize::from(at(self.resets, 16 * x + mask, 0));
        usize::from(at(self.spots, 64 * clocks + spot, 0))
    }

    // The same for all numbers: 0 past the items, edges and branches that there may be.
    pub fn target_of(self, x: usize, e: usize, i: usize) -> usize
        ensures { result ≡ target_of self.entry x e i }
    {
        if x < 4096 && e < 128 && i < 65536 {
            self.target_at(x, e, i)
        } else {
            0
        }
    }
}
