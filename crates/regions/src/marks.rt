// Marks on where the branches of one region lead: one for each mask and target. Branches that have both in common lead to the same
// region, and what was found of one is not worked out again.
ghost use Rattle.std.specs.Prelude.{ℕ, ◌≡◌, Some, map};
ghost use Rattle.table.specs.Model.{Model};
ghost use Rattle.table.specs.Reads.{edge_of};
ghost use Rattle.regions.specs.Of.{Of, OfEdge};
ghost use Rattle.regions.specs.Graph.{meets, landing, lands, available, bounds_of};
ghost use Rattle.regions.specs.Marks.{mark_place, answer_of, Tested};

use crate::guards::{landing_of, meets_guards};
use crate::prepared::Prepared;
use clocks::Region;
use table::{Branch, Branches};

// How many marks there are, and how many to a target: a mask that names no clock but the four has a place, any other is past all marks.
pub(crate) const MARKS: usize = 1024;

const MASKS: usize = 16;

const PAST_MARKS: usize = 4096;

// Says of where a branch leads whether it meets its invariant, if that was tested. (An Option would take two bytes, and all marks are
// cleared for each region.)
#[derive(Clone, Copy)]
enum Mark {
    Untested,
    Met,
    Broken,
}

// A region whose edges are gone through, and whether where a branch leads meets its invariant, as far as that was tested.
#[derive(Drop)]
pub(crate) struct Marks<'a> {
    pub model: &'a Prepared<'a>,
    pub region: Region,
    tested: [Mark; 1024],
    ghost told: { Tested model.now region (map answer_of tested) },
}

// Returns where the mark of a branch stands.
pub(crate) fn mark_place(b: Branch) -> usize
    ensures { result ≡ mark_place b }
{
    if 15 < b.mask {
        return PAST_MARKS;
    }
    MASKS * usize::from(b.target) + usize::from(b.mask)
}

impl Mark {
    // Returns the mark of what was found.
    fn of(meets: bool) -> Mark
        ensures { answer_of result ≡ Some meets }
    {
        if meets { Mark::Met } else { Mark::Broken }
    }

    // Returns what was found, if it was tested.
    fn answer(self) -> Option<bool>
        ensures { result ≡ answer_of self }
    {
        match self {
            Mark::Untested => None,
            Mark::Met => Some(true),
            Mark::Broken => Some(false),
        }
    }
}

impl<'a> Marks<'a> {
    // Returns the marks of a region of which nothing was tested.
    pub(crate) fn new(model: &'a Prepared<'a>, region: Region) -> Marks<'a>
        ensures { (result.model.now ≡ model.now) × (result.region ≡ region) }
    {
        Marks {
            model,
            region,
            tested: [Mark::Untested; MARKS],
        }
    }

    // Whether a branch lands in a region that meets its invariant: its mark says so, or is set to say so.
    fn meets_target(&mut self, b: Branch) -> bool
        ensures same { (self.new.model.now ≡ self.old.model.now) × (self.new.region ≡ self.old.region) }
        ensures value { (m : Model) → Of self.old.model.now m
            → result ≡ meets (bounds_of m) m.invariants (landing (bounds_of m) self.old.region b) }
    {
        let at = mark_place(b);
        if let Some(meets) = slices::at(&self.tested, at, Mark::Untested).answer() {
            return meets;
        }
        let q = landing_of(self.model.bounds, self.region, b);
        let meets = self.model.meets_invariant(q);
        slices::put(&mut self.tested, at, Mark::of(meets));
        meets
    }

    // Whether every branch of the edge at a place lands in a region that meets its invariant.
    fn lands_all(&mut self, place: usize) -> bool
        ensures same { (self.new.model.now ≡ self.old.model.now) × (self.new.region ≡ self.old.region) }
        ensures value { (m : Model) (e : ℕ) → Of self.old.model.now m
            → OfEdge self.old.model.now place m e
            → result ≡ lands (bounds_of m) m.invariants (edge_of m e) self.old.region }
    {
        let branches = Branches::new(self.model.bytes, place);
        for i in 0..branches.count() {
            if !self.meets_target(branches.at(i)) {
                return false;
            }
        }
        true
    }

    // Whether the edge at a place, with this source, is available.
    pub(crate) fn is_available(&mut self, place: usize, source: u8) -> bool
        ensures same { (self.new.model.now ≡ self.old.model.now) × (self.new.region ≡ self.old.region) }
        ensures value { (m : Model) (e : ℕ) → Of self.old.model.now m
            → OfEdge self.old.model.now place m e → source ≡ (edge_of m e).source
            → result ≡ available m (edge_of m e) self.old.region }
    {
        source == self.region.location
            && meets_guards(self.model.bytes, place, self.model.bounds, self.region)
            && self.lands_all(place)
    }
}
