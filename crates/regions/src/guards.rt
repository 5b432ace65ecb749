// Guards of a model on a region, and where its edges lead.
ghost use Rattle.std.specs.Prelude.{ℕ, ◌≡◌};
ghost use Rattle.table.specs.Model.{Model};
ghost use Rattle.table.specs.Reads.{ReadsEdge, edge_of};
ghost use Rattle.regions.specs.Graph.{satisfies, every, landing};

use clocks::{Bounds, Region};
use table::{Branch, Guard};

// Whether a guard atom holds.
fn is_satisfied(r: Region, bounds: Bounds, g: Guard) -> bool
    ensures { result ≡ satisfies bounds r g }
{
    r.test(bounds, g.clock, g.comparison, g.constant)
        .unwrap_or(false)
}

// Whether all guard atoms of the edge at a place hold.
pub(crate) fn meets_guards(bytes: &[u8], place: usize, bounds: Bounds, r: Region) -> bool
    ensures { (m : Model) (e : ℕ) → ReadsEdge bytes.now place m e
        → result ≡ every (satisfies bounds r) (edge_of m e).guards }
{
    for i in 0..table::guard_count(bytes, place) {
        if !is_satisfied(r, bounds, table::guard_at(bytes, place, i)) {
            return false;
        }
    }
    true
}

// Returns the target region of a branch.
pub(crate) fn landing_of(bounds: Bounds, r: Region, b: Branch) -> Region
    ensures { result ≡ landing bounds r b }
{
    let mut q = r.reset(bounds, b.mask);
    q.location = b.target;
    q
}
