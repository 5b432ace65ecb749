// Keys of items: a number for each item under a block list. Items that the next round relates have equal keys, so that items with
// different keys need not be compared. A key is computed when it is asked for first, and kept.
ghost use Rattle.std.specs.Prelude.{ℕ, ◌≤◌, ◌<◌, ◌≡◌, cond, not, List, eqb, length, get_or, set};
ghost use Rattle.bisimulation.specs.Finite.{some_below};
ghost use Rattle.comparison.specs.Held.{most_items, most_edges};
ghost use Rattle.comparison.specs.Keys.{scatter, delay_room, delay_mark, KeptPast, AskedFor, Forgotten};
ghost use Rattle.comparison.specs.Graphs.{Opened, delay_key, edge_key, key_of, Known, Coded, Told, Own, Shelved};
ghost use Rattle.comparison.specs.Laws.KeyLoops.{has_code};

use crate::codes::{Side, scatter_of};
use crate::held::Graph;
use slices::{at, put};
use std::mem;

// The number of an item's block, cut to those that there are marks for.
fn mark_at(list: &[u64], x: usize) -> usize
    ensures { (result ≡ delay_mark list.now x) × (result < delay_room) }
{
    (at(list, x, 0) % 512) as usize
}

// Marks block v. What it adds to the sum over the marked blocks: nothing where it was marked before.
fn mark_one(v: usize, marks: &mut [u8; 512]) -> u64
    requires { v < delay_room }
    ensures marks_after { marks.new ≡ set marks.old v 1 }
    ensures value { (result ≡ cond (eqb (get_or marks.old v 0) 1) 0 (scatter v)) × (result < 1048573) }
{
    if mem::replace(&mut marks[v], 1) == 1 {
        return 0;
    }
    scatter_of(v)
}

impl Graph<'_> {
    // The key of what x reaches by delay: the sum over the blocks there, each of which is marked when it is met first.
    fn delays_key(self, x: usize, list: &[u64]) -> u64
        ensures { (result ≡ delay_key self.entry list.now x) × (result < 4294967296) }
    {
        let mut marks = [0u8; 512];
        let mut total = 0;
        for item in self.delays(x) {
            total += mark_one(mark_at(list, item), &mut marks);
        }
        total
    }

    // ---- Edges

    // Has no edge below e that is available at item x this code?
    fn is_code_new(self, e: usize, x: usize, code: u64, codes: &[u64]) -> bool
        requires { e < most_edges }
        ensures { Opened self.entry → x < self.entry.n → e ≤ self.entry.k
            → result ≡ not (some_below e (has_code self.entry.flags.now codes.now x code)) }
    {
        self.open_before(x, e).all(|f| at(codes, f, 0) != code)
    }

    // What edge e adds, which is available at item x: its code, where no lower one there has it. Codes are below the number given here.
    fn add_code(self, e: usize, x: usize, codes: &[u64]) -> u64
        requires { e < most_edges }
        ensures upper_bound { result < 1099511627689 }
        ensures value { Opened self.entry → x < self.entry.n → e < self.entry.k → get_or codes.now e 0 < 1099511627689
            → result ≡ cond (not (some_below e (has_code self.entry.flags.now codes.now x (get_or codes.now e 0))))
            (get_or codes.now e 0) 0 }
    {
        let code = at(codes, e, 0);
        if self.is_code_new(e, x, code, codes) {
            code % 1099511627689
        } else {
            0
        }
    }

    // The sum over the codes of the edges that are available at x, each code once.
    fn sum_codes(self, x: usize, codes: &[u64]) -> u64
        requires { self.k ≤ most_edges }
        ensures upper_bound { result < 140737488355328 }
        ensures value { (list : List ℕ) → Opened self.entry → x < self.entry.n → Coded self.entry x list codes.now
            → result ≡ edge_key self.entry list x }
    {
        let mut total = 0;
        for e in self.open(x) {
            total += self.add_code(e, x, codes);
        }
        total
    }

    // ---- Both

    // The key of item x, where the codes of its edges are given.
    fn key_by(self, x: usize, list: &[u64], codes: &[u64]) -> u64
        requires { self.k ≤ most_edges }
        ensures { Opened self.entry → x < self.entry.n → Coded self.entry x list.now codes.now
            → result ≡ key_of self.entry list.now x }
    {
        self.sum_codes(x, codes) * 65536 + self.delays_key(x, list) + 1
    }

    // The key of item x, which is stored where it was not known. The codes that it is computed of are put on the shelf.
    pub(crate) fn known_key(
        self,
        x: usize,
        names: &[u64],
        keys: &mut [u64],
        shelf: &mut [u64],
    ) -> u64
        requires { (self.k ≤ most_edges) × (x < most_items) }
        ensures value { Opened self.entry → x < self.entry.n → Known self.entry names.now keys.old
            → Shelved self.entry names.now shelf.old
            → (result ≡ key_of self.entry names.now x) × Known self.entry names.now keys.new
            × Shelved self.entry names.now shelf.new }
        ensures asked_for { AskedFor x keys.old keys.new × KeptPast shelf.old shelf.new }
    {
        let old = at(keys, x, 0);
        if old != 0 {
            return old;
        }
        self.shelve(x, names, shelf);
        let key = self.key_by(x, names, shelf);
        put(keys, x, key);
        key
    }

    // The key of item y, which is stored. The codes of the edges of x are put on the shelf, unless they are there; those of y are left in
    // `codes`, and the edges that are their own pairs are marked in `own`.
    pub(crate) fn coded_key(
        self,
        x: usize,
        y: usize,
        names: &[u64],
        keys: &mut [u64],
        shelf: &mut [u64],
        codes: &mut [u64],
        own: &mut [u8],
    ) -> u64
        requires { (self.k ≤ most_edges) × (x < most_items) × (y < most_items) }
        ensures keys_after { (keys.new ≡ set keys.old y result) × KeptPast shelf.old shelf.new }
        ensures value { Opened self.entry → x < self.entry.n → y < self.entry.n → most_edges ≤ length codes.old
            → Shelved self.entry names.now shelf.old → Told self.entry names.now y x
            → Own self.entry names.now x y own.old
            → (result ≡ key_of self.entry names.now y) × Shelved self.entry names.now shelf.new
            × Coded self.entry x names.now shelf.new × Coded self.entry y names.now codes.new
            × Own self.entry names.now x y own.new }
    {
        self.shelve(x, names, shelf);
        self.borrow_codes(
            Side {
                item: x,
                codes: shelf,
            },
            y,
            names,
            codes,
            own,
        );
        let key = self.key_by(y, names, codes);
        put(keys, y, key);
        key
    }
}

// Forgets the keys of all items that are stirred; the others stay.
pub fn forget_keys(n: usize, stirred: &[u8], keys: &mut [u64])
    ensures keys_len_unchanged { length keys.new ≡ length keys.old }
    ensures forgotten { Forgotten n keys.old keys.new stirred.now }
{
    for x in 0..n {
        if at(stirred, x, 0) != 0 {
            put(keys, x, 0);
        }
    }
}
