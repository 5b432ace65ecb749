// Codes of edges: a number for each edge at an item under a block list, of its action and of where it leads. Edges that are alike have
// equal codes, so that an answer to an edge is looked for among the edges of its code alone. The codes of one item stay on a shelf from
// comparison to comparison, and an edge that is paired with itself has one code at both items.
ghost use Rattle.std.specs.Prelude.{ℕ, ◌≤◌, ◌<◌, ◌≡◌, true, ◌&&◌, IsTrue, length, get_or};
ghost use Rattle.comparison.specs.Held.{most_items, most_edges};
ghost use Rattle.comparison.specs.Keys.{scatter, share_of, cube, mixed, joined, KeptPast};
ghost use Rattle.comparison.specs.Graphs.{count, is_open, Opened, edges_alike, answers, some_answers, edges_answered};
ghost use Rattle.comparison.specs.Graphs.{is_first_into, block_code, landed_by, landed, code_of};
ghost use Rattle.comparison.specs.Graphs.{Coded, ToldBy, Told, Own, Found, Met, Shelved};

use crate::held::Graph;
use crate::shares::Landing;
use slices::{at, put};

// An item, and the codes of the edges that are available there, each at the place of its edge.
#[derive(Clone, Copy)]
pub(crate) struct Side<'a> {
    pub(crate) item: usize,
    pub(crate) codes: &'a [u64],
}

// What the number of a block is scattered to.
pub(crate) fn scatter_of(v: usize) -> u64
    requires { v < most_items }
    ensures { (result ≡ scatter v) × (result < 1048573) }
{
    let w = v as u64;
    ((w + 77) * ((w + 1003) * (w + 2001))) % 1048573
}

// The share of a weight, in parts of 2 to the 31st.
fn share_of(weight: u64, whole: usize) -> u64
    requires { weight < 4294967296 }
    ensures { (result ≡ share_of weight whole) × (result < 9223372036854775808) }
{
    weight * 2147483648 / whole.max(1) as u64
}

fn cube_of(t: u64) -> u64
    requires { t < 2147483579 }
    ensures { (result ≡ cube t) × (result < 2147483579) }
{
    let square = t * t % 2147483579;
    square * t % 2147483579
}

// The number of a block and a share, mixed.
fn mix_of(v: usize, share: u64) -> u64
    requires { (v < most_items) × (share < 9223372036854775808) }
    ensures { (result ≡ mixed v share) × (result < 2147483629) }
{
    let w = v as u64;
    cube_of((share + w * (w * 131 + 524309) + 12345) % 2147483579)
}

fn joined_of(action: usize, sum: u64) -> u64
    requires { action < 65536 }
    ensures { (result ≡ joined action sum) × (result < 1099511627689) }
{
    let part = sum % 2147483629;
    (part * part + action as u64 * 40503001) % 1099511627689
}

impl Landing<'_> {
    // Does no branch below branch i lead to the block with number v? The promise speaks of any c whose number in the list is v.
    fn is_first_into(&self, v: u64, i: usize) -> bool
        requires { i < 65536 }
        ensures { let l = self.now in (c : ℕ) → v ≡ get_or l.list.now c 0 → i < count l.graph l.e
            → result ≡ is_first_into l.graph l.list.now c l.x l.e i }
    {
        !(0..i).any(|j| self.number(j) == v)
    }

    // What the block with number v adds to the code. The promise speaks of any c whose number in the list is v.
    fn block_code(&self, v: u64) -> u64
        ensures upper_bound { result < 2147483629 }
        ensures value { let l = self.now in (c : ℕ) → v ≡ get_or l.list.now c 0
            → result ≡ block_code l.graph l.list.now c l.x l.e }
    {
        match self.weigh(v) {
            0 => 0,
            weight => mix_of(
                (v % 4096) as usize,
                share_of(weight, self.graph.whole_at(self.e)),
            ),
        }
    }

    // What branch i adds: where it is the first into its block, what the block adds.
    fn branch_code(&self, i: usize) -> u64
        requires { i < 65536 }
        ensures upper_bound { result < 2147483629 }
        ensures value { let l = self.now in i < count l.graph l.e
            → result ≡ landed_by l.graph l.list.now l.x l.e i }
    {
        let v = self.number(i);
        if self.is_first_into(v, i) {
            self.block_code(v)
        } else {
            0
        }
    }

    // The sum over the branches.
    fn landed(&self) -> u64
        ensures { let l = self.now in result ≡ landed l.graph l.list.now l.x l.e }
    {
        let mut total = 0;
        for i in 0..self.graph.count_at(self.e) {
            total += self.branch_code(i);
        }
        total
    }

    // The code of the edge: of its action and of where it leads.
    fn code(&self) -> u64
        ensures { let l = self.now in (result ≡ code_of l.graph l.list.now l.x l.e) × (result < 1099511627689) }
    {
        joined_of(self.graph.action_at(self.e), self.landed())
    }
}

impl Graph<'_> {
    fn code_of(self, x: usize, e: usize, list: &[u64]) -> u64
        requires { (x < most_items) × (e < most_edges) }
        ensures { (result ≡ code_of self.entry list.now x e) × (result < 1099511627689) }
    {
        Landing::new(self, list, x, e).code()
    }

    // Lists the codes of the edges that are available at x.
    pub(crate) fn list_codes(self, x: usize, list: &[u64], codes: &mut [u64])
        requires { (self.k ≤ most_edges) × (x < most_items) }
        ensures coded { Opened self.entry → x < self.entry.n → most_edges ≤ length codes.old
            → Coded self.entry x list.now codes.new }
        ensures kept_past { (i : ℕ) → self.entry.k ≤ i → get_or codes.new i 0 ≡ get_or codes.old i 0 }
    {
        for e in self.open(x) {
            put(codes, e, self.code_of(x, e, list));
        }
    }

    // ---- Edges matched by their codes

    // Is edge f at y alike to edge e at x? Where the two are paired no share needs to be weighed.
    fn is_answer(self, x: usize, e: usize, y: usize, f: usize, list: &[u64]) -> bool
        requires { (x < most_items) × (e < most_edges) × (y < most_items) × (f < most_edges) }
        ensures { result ≡ edges_alike self.entry list.now x e y f }
    {
        self.is_paired(x, e, y, f, list) || self.edges_alike(x, e, y, f, list)
    }

    // Looks for an edge of the other side that answers to edge e at x. Only edges with the code given are compared with it.
    fn find_answer(self, x: usize, e: usize, code: u64, other: Side, list: &[u64]) -> Option<usize>
        requires { (self.k ≤ most_edges) × (x < most_items) × (e < self.k) × (other.item < most_items) }
        ensures { Opened self.entry → other.entry.item < self.entry.n
            → Coded self.entry other.entry.item list.now other.entry.codes.now
            → ToldBy self.entry list.now x e other.entry.item code
            → Found self.entry list.now x e other.entry.item result }
    {
        for f in self.open(other.item) {
            if at(other.codes, f, 0) == code && self.is_answer(x, e, other.item, f, list) {
                return Some(f);
            }
        }
        None
    }

    // Is edge e available at y too, and paired with itself at x? Nothing is said where the answer is no.
    fn is_own_pair(self, x: usize, e: usize, y: usize, list: &[u64]) -> bool
        requires { (x < most_items) × (e < most_edges) × (y < most_items) }
        ensures { IsTrue result → answers self.entry list.now x e y e ≡ true }
    {
        self.is_open(y, e) && self.is_paired(x, e, y, e, list)
    }

    // Lists the codes of the edges that are available at y, by those of another side. An edge that is paired with itself has the code that
    // it has there, and is marked in `own`.
    pub(crate) fn borrow_codes(
        self,
        one: Side,
        y: usize,
        list: &[u64],
        codes: &mut [u64],
        own: &mut [u8],
    )
        requires { (self.k ≤ most_edges) × (one.item < most_items) × (y < most_items) }
        ensures { Opened self.entry → one.entry.item < self.entry.n → y < self.entry.n → most_edges ≤ length codes.old
            → Coded self.entry one.entry.item list.now one.entry.codes.now
            → Told self.entry list.now y one.entry.item
            → Own self.entry list.now one.entry.item y own.old
            → Coded self.entry y list.now codes.new × Own self.entry list.now one.entry.item y own.new }
    {
        for e in self.open(y) {
            if self.is_own_pair(y, e, one.item, list) {
                put(codes, e, at(one.codes, e, 0));
                put(own, e, 1);
            } else {
                put(codes, e, self.code_of(y, e, list));
            }
        }
    }

    // Puts the codes of the edges that are available at x on the shelf, unless they are there.
    pub(crate) fn shelve(self, x: usize, list: &[u64], shelf: &mut [u64])
        requires { (self.k ≤ most_edges) × (x < most_items) }
        ensures shelved { Opened self.entry → x < self.entry.n → Shelved self.entry list.now shelf.old
            → Shelved self.entry list.now shelf.new × Coded self.entry x list.now shelf.new }
        ensures kept_past { KeptPast shelf.old shelf.new }
    {
        let after = x as u64 + 1;
        if at(shelf, 128, 0) == after {
            return;
        }
        self.list_codes(x, list, shelf);
        put(shelf, 128, after);
    }

    // Looks for an edge of the other side that answers to edge e of one side. Where edge e is marked as its own pair, it is itself the
    // answer.
    fn seek_answer(
        self,
        one: Side,
        e: usize,
        other: Side,
        list: &[u64],
        own: &[u8],
    ) -> Option<usize>
        requires { (self.k ≤ most_edges) × (one.item < most_items) × (e < self.k) × (other.item < most_items) }
        ensures { Opened self.entry → other.entry.item < self.entry.n → is_open self.entry one.entry.item e ≡ true
            → Coded self.entry one.entry.item list.now one.entry.codes.now
            → Coded self.entry other.entry.item list.now other.entry.codes.now
            → Told self.entry list.now one.entry.item other.entry.item
            → Own self.entry list.now one.entry.item other.entry.item own.now
            → Found self.entry list.now one.entry.item e other.entry.item result }
    {
        if at(own, e, 0) == 1 {
            return Some(e);
        }
        self.find_answer(one.item, e, at(one.codes, e, 0), other, list)
    }

    // Has each edge that is available on one side an answer on the other? The edges that are found to answer are marked in `met`.
    fn edges_match(self, one: Side, other: Side, list: &[u64], own: &[u8], met: &mut [u8]) -> bool
        requires { (self.k ≤ most_edges) × (one.item < most_items) × (other.item < most_items) }
        ensures { Opened self.entry → one.entry.item < self.entry.n → other.entry.item < self.entry.n
            → Coded self.entry one.entry.item list.now one.entry.codes.now
            → Coded self.entry other.entry.item list.now other.entry.codes.now
            → Told self.entry list.now one.entry.item other.entry.item
            → Own self.entry list.now one.entry.item other.entry.item own.now
            → Met self.entry list.now other.entry.item one.entry.item met.old
            → (result ≡ edges_answered self.entry list.now one.entry.item other.entry.item)
            × Met self.entry list.now other.entry.item one.entry.item met.new }
    {
        for e in self.open(one.item) {
            match self.seek_answer(one, e, other, list, own) {
                Some(f) => put(met, f, 1),
                None => return false,
            }
        }
        true
    }

    // Are all edges that are available at x marked? Nothing is said where the answer is no.
    fn are_all_met(self, x: usize, met: &[u8]) -> bool
        requires { self.k ≤ most_edges }
        ensures { IsTrue result → Opened self.entry → x < self.entry.n
            → (e : ℕ) → e < self.entry.k → is_open self.entry x e ≡ true → get_or met.now e 0 ≡ 1 }
    {
        self.open(x).all(|e| at(met, e, 0) == 1)
    }

    // Has edge e of one side an answer on the other? It has where it is marked.
    fn is_met(self, one: Side, e: usize, other: Side, list: &[u64], met: &[u8]) -> bool
        requires { (self.k ≤ most_edges) × (one.item < most_items) × (e < self.k) × (other.item < most_items) }
        ensures { Opened self.entry → one.entry.item < self.entry.n → other.entry.item < self.entry.n
            → is_open self.entry one.entry.item e ≡ true
            → Coded self.entry one.entry.item list.now one.entry.codes.now
            → Coded self.entry other.entry.item list.now other.entry.codes.now
            → Told self.entry list.now one.entry.item other.entry.item
            → Met self.entry list.now one.entry.item other.entry.item met.now
            → result ≡ some_answers self.entry list.now one.entry.item e other.entry.item }
    {
        at(met, e, 0) == 1
            || self
                .find_answer(one.item, e, at(one.codes, e, 0), other, list)
                .is_some()
    }

    // Has each edge that is available on one side an answer on the other? Those that are marked have.
    fn rest_match(self, one: Side, other: Side, list: &[u64], met: &[u8]) -> bool
        requires { (self.k ≤ most_edges) × (one.item < most_items) × (other.item < most_items) }
        ensures { Opened self.entry → one.entry.item < self.entry.n → other.entry.item < self.entry.n
            → Coded self.entry one.entry.item list.now one.entry.codes.now
            → Coded self.entry other.entry.item list.now other.entry.codes.now
            → Told self.entry list.now one.entry.item other.entry.item
            → Met self.entry list.now one.entry.item other.entry.item met.now
            → result ≡ edges_answered self.entry list.now one.entry.item other.entry.item }
    {
        self.open(one.item)
            .all(|e| self.is_met(one, e, other, list, met))
    }

    // Has each edge that is available on either side an answer on the other? It is given which edges are their own pairs.
    pub(crate) fn edges_agree(self, one: Side, other: Side, list: &[u64], own: &[u8]) -> bool
        requires { (self.k ≤ most_edges) × (one.item < most_items) × (other.item < most_items) }
        ensures { Opened self.entry → one.entry.item < self.entry.n → other.entry.item < self.entry.n
            → Coded self.entry one.entry.item list.now one.entry.codes.now
            → Coded self.entry other.entry.item list.now other.entry.codes.now
            → Told self.entry list.now one.entry.item other.entry.item
            → Told self.entry list.now other.entry.item one.entry.item
            → Own self.entry list.now one.entry.item other.entry.item own.now
            → result ≡ (edges_answered self.entry list.now one.entry.item other.entry.item
            && edges_answered self.entry list.now other.entry.item one.entry.item) }
    {
        let mut met = [0u8; 128];
        self.edges_match(one, other, list, own, &mut met)
            && (self.are_all_met(other.item, &met) || self.rest_match(other, one, list, &met))
    }
}
