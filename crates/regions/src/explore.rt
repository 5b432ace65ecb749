// Exploring a model's regions into lent entries, in document 01's order.
ghost use Rattle.std.specs.Prelude.{ℕ, suc, ◌≡◌, [], ◌∷◌, length};
ghost use Rattle.table.specs.Model.{Model};
ghost use Rattle.table.specs.Reads.{edge_of};
ghost use Rattle.regions.specs.Of.{Of, OfEdge};
ghost use Rattle.regions.specs.Graph.{landing, gather, edge_next, delay_next, next_of};
ghost use Rattle.regions.specs.Marks.{Visited};
ghost use Rattle.regions.specs.Worklist.{explore_from, explore};
ghost use Rattle.regions.specs.Explore.{SameSlice, Kept, Left, AllMet, same_region, listed, found_of, count_of};
ghost use Rattle.regions.specs.Call.{room_for};
ghost use Rattle.clocks.specs.declared.region.Region.{Region};

use crate::entry::{ENTRY_BYTES, MAX_ENTRIES};
use crate::guards::landing_of;
use crate::index::{Links, Listing};
use crate::marks::{MARKS, Marks, mark_place};
use crate::prepared::Prepared;
use clocks::{Bounds, Region};
use table::{Branch, Branches};

// The entries have no room for a region.
#[derive(Clone, Copy, Debug, PartialEq, Eq)]
pub(crate) struct Full;

// A region is met: where it is not known it gets the next number, if there is room.
fn meet_one(q: Region, found: &mut Listing) -> Result<(), Full>
    ensures slice { SameSlice found.old found.new }
    ensures kept { Kept found.old found.new }
    ensures all_met { AllMet (q ∷ []) found.old found.new result }
{
    if found.listed().find(q).is_some() {
        return Ok(());
    }
    if found.links.count == found.cap {
        return Err(Full);
    }
    found.add(q);
    Ok(())
}

// Where a branch of a region leads is met, unless its mark says that it was.
fn meet_target(
    bounds: Bounds,
    r: Region,
    b: Branch,
    found: &mut Listing,
    visited: &mut [bool],
) -> Result<(), Full>
    requires visited { Visited bounds r found.old.entries.now found.old.links.count visited.old }
    ensures slice { SameSlice found.old found.new }
    ensures kept { Kept found.old found.new }
    ensures visited { Visited bounds r found.new.entries.now found.new.links.count visited.new }
    ensures all_met { AllMet (landing bounds r b ∷ []) found.old found.new result }
{
    let at = mark_place(b);
    if slices::at(visited, at, false) {
        return Ok(());
    }
    meet_one(landing_of(bounds, r, b), found)?;
    slices::put(visited, at, true);
    Ok(())
}

// The targets of the branches of the edge at a place are met.
fn meet_branches(
    model: &Prepared,
    place: usize,
    r: Region,
    found: &mut Listing,
    visited: &mut [bool],
) -> Result<(), Full>
    requires visited { Visited model.now.bounds r found.old.entries.now found.old.links.count visited.old }
    ensures slice { SameSlice found.old found.new }
    ensures kept { Kept found.old found.new }
    ensures visited { Visited model.now.bounds r found.new.entries.now found.new.links.count visited.new }
    ensures all_met { (m : Model) (e : ℕ) → OfEdge model.now place m e
        → AllMet (gather (λ b. landing model.now.bounds r b ∷ []) (edge_of m e).branches) found.old found.new result }
{
    let branches = Branches::new(model.bytes, place);
    for i in 0..branches.count() {
        let b = branches.at(i);
        meet_target(model.bounds, r, b, found, visited)?;
    }
    Ok(())
}

// The targets of the edge at a place, whose source is the location of the region, are met where it is available.
fn meet_edge(
    marks: &mut Marks,
    place: usize,
    found: &mut Listing,
    visited: &mut [bool],
) -> Result<(), Full>
    requires visited { Visited marks.old.model.now.bounds marks.old.region found.old.entries.now found.old.links.count visited.old }
    ensures slice { SameSlice found.old found.new }
    ensures kept { Kept found.old found.new }
    ensures same { (marks.new.model.now ≡ marks.old.model.now) × (marks.new.region ≡ marks.old.region) }
    ensures visited { Visited marks.old.model.now.bounds marks.old.region found.new.entries.now found.new.links.count visited.new }
    ensures all_met { (m : Model) (e : ℕ) → Of marks.old.model.now m
        → OfEdge marks.old.model.now place m e → marks.old.region.location ≡ (edge_of m e).source
        → AllMet (edge_next m marks.old.region (edge_of m e)) found.old found.new result }
{
    let model = marks.model;
    let r = marks.region;
    if !marks.is_available(place, r.location) {
        return Ok(());
    }
    meet_branches(model, place, r, found, visited)
}

// The region that follows by delay is met, if any does and it meets its invariant.
fn meet_delay(model: &Prepared, r: Region, found: &mut Listing) -> Result<(), Full>
    ensures slice { SameSlice found.old found.new }
    ensures kept { Kept found.old found.new }
    ensures all_met { (m : Model) → Of model.now m
        → AllMet (delay_next m r) found.old found.new result }
{
    match model.follower(r) {
        Some(q) => meet_one(q, found),
        None => Ok(()),
    }
}

// The targets of all available edges are met, in table order. (Most edges start at another location: these are passed at once. What
// the others lead to is tested and met once for each mask and target.)
fn meet_edges(model: &Prepared, r: Region, found: &mut Listing) -> Result<(), Full>
    ensures slice { SameSlice found.old found.new }
    ensures kept { Kept found.old found.new }
    ensures all_met { (m : Model) → Of model.now m
        → AllMet (gather (edge_next m r) m.edges) found.old found.new result }
{
    let mut marks = Marks::new(model, r);
    let mut visited = [false; MARKS];
    let mut link = model.first_link(r.location);
    for e in 0..model.edge_count() {
        if link == e + 1 {
            meet_edge(&mut marks, model.place(e), found, &mut visited)?;
            link = model.next_link(e);
        }
    }
    Ok(())
}

// All that a region leads to is met: its delay region first, then the targets of its available edges.
fn meet_next(model: &Prepared, r: Region, found: &mut Listing) -> Result<(), Full>
    ensures slice { SameSlice found.old found.new }
    ensures kept { Kept found.old found.new }
    ensures all_met { (m : Model) → Of model.now m
        → AllMet (next_of m r) found.old found.new result }
{
    meet_delay(model, r, found)?;
    meet_edges(model, r, found)
}

// The regions are taken in number order, from the one that is listed on. (What they lead to is listed meanwhile.)
fn explore_listed(model: &Prepared, found: &mut Listing) -> Result<(), Full>
    requires { found.old.links.count ≡ 1 }
    ensures slice { SameSlice found.old found.new }
    ensures kept { Kept found.old found.new }
    ensures found { (m : Model) (d : Region) → Of model.now m
        → explore_from same_region (next_of m) (suc found.old.cap) found.old.cap d (listed found.old.entries.now 1) 0
        ≡ found_of result (listed found.new.entries.now found.new.links.count) }
{
    let mut i = 0;
    while i < found.links.count {
        meet_next(model, found.listed().region(i), found)?;
        i += 1;
    }
    Ok(())
}

// Explores from a start into entries, as many as there are whole ones and 4,096 at most, and returns how many regions there are.
pub(crate) fn explore_all(
    model: &Prepared,
    start: Region,
    entries: &mut [u8],
) -> Result<usize, Full>
    ensures left { (m : Model) → Of model.now m
        → Left entries.old entries.new (count_of (room_for (length entries.old)) result) }
    ensures found { (m : Model) → Of model.now m
        → explore same_region (next_of m) (room_for (length entries.old)) start
        ≡ found_of result (listed entries.new (count_of (room_for (length entries.old)) result)) }
{
    let cap = (entries.len() / ENTRY_BYTES).min(MAX_ENTRIES);
    if cap == 0 {
        return Err(Full);
    }
    let mut found = Listing {
        entries,
        links: Links::new(),
        cap,
    };
    found.add(start);
    explore_listed(model, &mut found)?;
    Ok(found.links.count)
}
