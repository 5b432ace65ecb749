// The test of the next round: the two conditions of document 01 both ways, under a block list of this round.
ghost use Rattle.std.specs.Prelude.{ℕ, ◌<◌, ◌≤◌, ◌≡◌, true, false, ◌&&◌, length, get_or};
ghost use Rattle.bisimulation.specs.Structures.{Closed};
ghost use Rattle.bisimulation.specs.Finite.{Finite, structure, related, next};
ghost use Rattle.comparison.specs.Held.{most_items, most_edges};
ghost use Rattle.comparison.specs.Compare.{Below};
ghost use Rattle.comparison.specs.Keys.{KeptPast, AskedFor, BothAsked};
ghost use Rattle.comparison.specs.Graphs.{Held, Onward, delays_answered, key_of, Equipped};

use crate::codes::Side;
use crate::compare::is_related;
use crate::held::Graph;
use slices::at;

impl Graph<'_> {
    // Is each item that one of two related items reaches by delay related to one that the other reaches?
    fn delays_agree(self, x: usize, y: usize, list: &[u64]) -> bool
        ensures { Below self.entry.n list.now → Onward self.entry → x < self.entry.n → y < self.entry.n
            → related list.now x y ≡ true
            → result ≡ (delays_answered self.entry list.now x y && delays_answered self.entry list.now y x) }
    {
        self.runs_alike(x, y, list)
            || self.delays_match(x, y, list) && self.delays_match(y, x, list)
    }

    // Are two items related in this round, and is each item that one of them reaches by delay related to one that the other reaches?
    fn may_be_next(self, x: usize, y: usize, list: &[u64]) -> bool
        ensures { Below self.entry.n list.now → Onward self.entry → x < self.entry.n → y < self.entry.n
            → result ≡ (related list.now x y && (delays_answered self.entry list.now x y
            && delays_answered self.entry list.now y x)) }
    {
        is_related(x, y, list) && self.delays_agree(x, y, list)
    }

    // Is item y related to item x in the next round? The list says how items are related in this one. Numbers that are not below n are
    // never related. For others, where the slices hold no closed structure or a number of the list is 4,096 or more, the answer is a choice
    // of the code.
    pub fn is_next(self, x: usize, y: usize, list: &[u64]) -> bool
        ensures value { (F : Finite) → Held F self.entry → Closed (structure F) → Below self.entry.n list.now
            → x < self.entry.n → y < self.entry.n → result ≡ next F list.now x y }
        ensures value_2 { (self.entry.n ≤ x → result ≡ false) × (self.entry.n ≤ y → result ≡ false) }
    {
        if !self.has(x, y) || !self.may_be_next(x, y, list) {
            return false;
        }
        let mut ones = [0u64; 128];
        let mut others = [0u64; 128];
        let mut own = [0u8; 128];
        self.list_codes(x, list, &mut ones);
        let one = Side {
            item: x,
            codes: &ones,
        };
        self.borrow_codes(one, y, list, &mut others, &mut own);
        self.edges_agree(
            one,
            Side {
                item: y,
                codes: &others,
            },
            list,
            &own,
        )
    }

    // Is item y related to item x in the next round? `one` is the key of x; that of y is not known, and becomes known. The codes of x are
    // put on the shelf.
    fn is_newly_keyed_next(
        self,
        x: usize,
        y: usize,
        one: u64,
        names: &[u64],
        keys: &mut [u64],
        shelf: &mut [u64],
    ) -> bool
        requires { (self.k ≤ most_edges) × (x < most_items) × (y < most_items) }
        ensures kept_past { KeptPast shelf.old shelf.new }
        ensures value { (F : Finite) → Equipped F self.entry names.now keys.old shelf.old
            → x < self.entry.n → y < self.entry.n → one ≡ key_of self.entry names.now x
            → (result ≡ next F names.now x y) × Equipped F self.entry names.now keys.new shelf.new }
        ensures asked_for { get_or keys.old y 0 ≡ 0 → AskedFor y keys.old keys.new }
    {
        let mut codes = [0u64; 128];
        let mut own = [0u8; 128];
        let other = self.coded_key(x, y, names, keys, shelf, &mut codes, &mut own);
        if one != other || !self.may_be_next(x, y, names) {
            return false;
        }
        self.edges_agree(
            Side {
                item: x,
                codes: shelf,
            },
            Side {
                item: y,
                codes: &codes,
            },
            names,
            &own,
        )
    }

    // Is item y related to item x in the next round? Where the key of y is not known, the two may be plainly alike; else different keys say
    // that it is not. Only the keys of x and y may become known, and a key that is known stays. The codes of x may be put on the shelf, so
    // that they need not be computed when another item is compared with x. Numbers that are not below n are never related, and no key
    // becomes known then, nor does the shelf change; the same holds for keys and shelf where the shelf has no room for 129 numbers, and the
    // two are compared without them. Which of the two keys become known otherwise, whose codes are on the shelf then and what stands beside
    // them are choices of the code. So are keys, shelf and answer where the slices hold no closed structure, a name is 4,096 or more, or a
    // key or a code that stands there is wrong.
    pub fn is_keyed_next(
        self,
        x: usize,
        y: usize,
        names: &[u64],
        keys: &mut [u64],
        shelf: &mut [u64],
    ) -> bool
        ensures keys_len_unchanged { (length keys.new ≡ length keys.old)
            × (length shelf.new ≡ length shelf.old) × KeptPast shelf.old shelf.new }
        ensures value { (F : Finite) → Equipped F self.entry names.now keys.old shelf.old
            → x < self.entry.n → y < self.entry.n
            → (result ≡ next F names.now x y) × Equipped F self.entry names.now keys.new shelf.new }
        ensures both_asked { BothAsked x y keys.old keys.new
            × (self.entry.n ≤ x → (result ≡ false) × (keys.new ≡ keys.old) × (shelf.new ≡ shelf.old))
            × (self.entry.n ≤ y → (result ≡ false) × (keys.new ≡ keys.old) × (shelf.new ≡ shelf.old)) }
        ensures keys_unchanged { length shelf.old ≤ most_edges → (keys.new ≡ keys.old) × (shelf.new ≡ shelf.old)
            × ((F : Finite) → Held F self.entry → Closed (structure F) → Below self.entry.n names.now
            → x < self.entry.n → y < self.entry.n → result ≡ next F names.now x y) }
    {
        if !self.has(x, y) {
            return false;
        }
        if shelf.len() < 129 {
            return self.is_next(x, y, names);
        }
        if at(keys, y, 0) == 0 && self.is_twin(x, y, names) {
            return true;
        }
        let one = self.known_key(x, names, keys, shelf);
        match at(keys, y, 0) {
            0 => self.is_newly_keyed_next(x, y, one, names, keys, shelf),
            known => one == known && self.is_next(x, y, names),
        }
    }
}
