// Reads the parts of a model out of the table's bytes by walking from record to record. Every accessor is total: its first
// clause says what it gives of any bytes, by that walk; its second, that of a table that was read, with its shape or the place
// of one of its edges, this is the item of the model, and an item of zeros past the last (a choice of ours).
ghost use Rattle.std.specs.Prelude.{ℕ, ◌+◌, ◌<◌, ◌≤◌, ◌≡◌, length, get_or};
ghost use Rattle.table.specs.Records.{body_at};
ghost use Rattle.table.specs.Codes.{kind_code};
ghost use Rattle.table.specs.Access.{walk_to, passed, item_from, no_body, label_at, invariant_at, guards_from, branches_from, next_edge};
ghost use Rattle.table.specs.Access.{guard_at, guard_count, branch_at, branch_count, no_invariant, no_guard, no_branch};
ghost use Rattle.table.specs.Model.{Model, reset_in};
ghost use Rattle.table.specs.Reads.{Reads, ReadsEdge, edge_of};
ghost use Rattle.table.specs.Written.{Bytes};

use crate::bodies::{Body, body_at, is_kind};
use crate::codes::{BRANCH_BYTES, Kind, body_length};
use crate::format::{MAX_BRANCHES, MAX_GUARDS};
use crate::model::{Branch, Guard, Invariant, Shape};

// Where a walk over records of one kind ends, and how many it passed.
#[derive(Clone, Copy)]
struct Stop {
    at: usize,
    passed: usize,
}

// Walks past at most `most` records of one kind that stand one after the other from `first` on.
fn walk(table: &[u8], first: usize, kind: Kind, most: usize) -> Stop
    ensures end { result.at ≡ walk_to (kind_code kind) most table.now first }
    ensures count { result.passed ≡ passed (kind_code kind) most table.now first }
{
    let length = 1 + body_length(kind.code());
    let mut at = first;
    for passed in 0..most {
        if !is_kind(table, at, kind) {
            return Stop { at, passed };
        }
        at += length;
    }
    Stop { at, passed: most }
}

// Returns the body of record i of those of one kind from `first` on, and zeros where there is none.
fn item_at(table: &[u8], first: usize, kind: Kind, i: usize) -> Body
    ensures { result ≡ item_from (kind_code kind) no_body body_at table.now first i }
{
    let at = walk(table, first, kind, i).at;
    if is_kind(table, at, kind) {
        body_at(table, at)
    } else {
        Body::default()
    }
}

// Returns the label of location i.
#[tactic(auto, using(crate::proofs::Laws::Reads::items), unfolding(crate::specs::Access::label_at))]
pub fn label_at(table: &[u8], shape: Shape, i: usize) -> u8
    ensures value { result ≡ label_at table.now shape i }
    ensures value_2 { (m : Model) → Reads table.now shape m → result ≡ get_or m.labels i 0 }
{
    item_at(table, shape.first_location, Kind::Location, i).a
}

// Returns invariant atom i.
#[tactic(auto, using(crate::proofs::Laws::Reads::items), unfolding(crate::specs::Access::invariant_at))]
pub fn invariant_at(table: &[u8], shape: Shape, i: usize) -> Invariant
    ensures value { result ≡ invariant_at table.now shape i }
    ensures value_2 { (m : Model) → Reads table.now shape m → result ≡ get_or m.invariants i no_invariant }
{
    item_at(table, shape.first_invariant, Kind::Invariant, i).invariant()
}

// Finds where the guard atoms of the edge at a place begin.
#[tactic(auto, unfolding(crate::specs::Access::guards_from))]
fn guards_from(table: &[u8], place: usize) -> usize
    ensures { result ≡ guards_from table.now place }
{
    walk(table, place, Kind::Edge, 1).at
}

// Finds where the branches of the edge at a place begin.
#[tactic(auto, unfolding(crate::specs::Access::branches_from))]
fn branches_from(table: &[u8], place: usize) -> usize
    ensures { result ≡ branches_from table.now place }
{
    walk(table, guards_from(table, place), Kind::Guard, MAX_GUARDS).at
}

// Finds where the record after the edge at a place, its guard atoms and its branches begins.
#[tactic(auto, unfolding(crate::specs::Access::next_edge))]
pub(crate) fn next_edge(table: &[u8], place: usize) -> usize
    ensures { result ≡ next_edge table.now place }
{
    walk(
        table,
        branches_from(table, place),
        Kind::Branch,
        MAX_BRANCHES,
    )
    .at
}

// Returns guard atom i of the edge at a place.
#[tactic(auto, using(crate::proofs::Laws::Reads::items), unfolding(crate::specs::Access::guard_at))]
pub fn guard_at(table: &[u8], place: usize, i: usize) -> Guard
    ensures value { result ≡ guard_at table.now place i }
    ensures value_2 { (m : Model) (e : ℕ) → ReadsEdge table.now place m e → result ≡ get_or (edge_of m e).guards i no_guard }
{
    item_at(table, guards_from(table, place), Kind::Guard, i).guard()
}

// Counts the guard atoms of the edge at a place.
#[tactic(auto, using(crate::proofs::Laws::Reads::items), unfolding(crate::specs::Access::guard_count))]
pub fn guard_count(table: &[u8], place: usize) -> usize
    ensures value { result ≡ guard_count table.now place }
    ensures value_2 { (m : Model) (e : ℕ) → ReadsEdge table.now place m e → result ≡ length (edge_of m e).guards }
{
    walk(table, guards_from(table, place), Kind::Guard, MAX_GUARDS).passed
}

// Returns branch i of the edge at a place.
#[tactic(auto, using(crate::proofs::Laws::Reads::items), unfolding(crate::specs::Access::branch_at))]
pub fn branch_at(table: &[u8], place: usize, i: usize) -> Branch
    ensures value { result ≡ branch_at table.now place i }
    ensures value_2 { (m : Model) (e : ℕ) → ReadsEdge table.now place m e → result ≡ get_or (edge_of m e).branches i no_branch }
{
    item_at(table, branches_from(table, place), Kind::Branch, i).branch()
}

// Counts the branches of the edge at a place.
#[tactic(auto, using(crate::proofs::Laws::Reads::items), unfolding(crate::specs::Access::branch_count))]
pub fn branch_count(table: &[u8], place: usize) -> usize
    ensures value { result ≡ branch_count table.now place }
    ensures value_2 { (m : Model) (e : ℕ) → ReadsEdge table.now place m e → result ≡ length (edge_of m e).branches }
{
    walk(
        table,
        branches_from(table, place),
        Kind::Branch,
        MAX_BRANCHES,
    )
    .passed
}

// Finds once where the branches of the edge at a place begin and how many there are, and reads each where it stands.
#[derive(Clone, Copy)]
pub struct Branches<'a> {
    table: &'a [u8],
    place: usize,
    first: usize,
    count: usize,
    ghost first_is: { first ≡ branches_from table.now place },
    ghost count_is: { count ≡ branch_count table.now place },
    ghost of_bytes: { Bytes table.now },
}

impl<'a> Branches<'a> {
    // Returns the branches of the edge at a place.
    #[tactic(auto, unfolding(crate::specs::Access::branch_count))]
    #[inline(always)]
    pub fn new(table: &'a [u8], place: usize) -> Branches<'a>
        ensures { (result.table.now ≡ table.now) × (result.place ≡ place) }
    {
        let first = branches_from(table, place);
        Branches {
            table,
            place,
            first,
            count: walk(table, first, Kind::Branch, MAX_BRANCHES).passed,
        }
    }

    // Returns how many branches there are.
    #[tactic(auto, using(crate::proofs::Laws::Reads::items))]
    pub fn count(self) -> usize
        ensures value { result ≡ branch_count self.entry.table.now self.entry.place }
        ensures value_2 { (m : Model) (e : ℕ) → ReadsEdge self.entry.table.now self.entry.place m e
            → result ≡ length (edge_of m e).branches }
    {
        self.count
    }

    // Returns branch i. (One that was not counted is walked to, so that every i gives what `branch_at` gives.)
    #[tactic(auto, using(crate::proofs::Laws::Reads::items))]
    pub fn at(self, i: usize) -> Branch
        ensures value { result ≡ branch_at self.entry.table.now self.entry.place i }
        ensures value_2 { (m : Model) (e : ℕ) → ReadsEdge self.entry.table.now self.entry.place m e
            → result ≡ get_or (edge_of m e).branches i no_branch }
    {
        if i < self.count {
            return body_at(self.table, self.first + BRANCH_BYTES * i).branch();
        }
        branch_at(self.table, self.place, i)
    }
}

// Tells whether a mask resets a clock.
pub fn resets(mask: u8, clock: u8) -> bool
    ensures { result ≡ reset_in mask clock }
{
    clock < 8 && (mask >> clock) & 1 == 1
}
