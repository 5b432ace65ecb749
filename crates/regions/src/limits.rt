// The invariants of a model as limits, one number for each location and clock: the lowest bound on that clock there. A region then
// meets its invariant exactly where each of its clocks is below its limit.
ghost use Rattle.std.specs.Prelude.{min, ◌≡◌, set, replicate};
ghost use Rattle.table.specs.Model.{Model};
ghost use Rattle.table.specs.Reads.{Reads};
ghost use Rattle.clocks.specs.Packed.{cell_of};
ghost use Rattle.regions.specs.Limits.{no_limit, position, limit_by, limit_place, limit_in, under, all_under, Limited};

use clocks::{Bounds, Clock, OVER, Region};
use table::{Invariant, Shape};

// No limit, and where a clock that is over stands: past every limit but none.
pub(crate) const NO_LIMIT: u16 = 65535;

const PAST_LIMITS: u16 = 65534;

// Returns where a clock stands: 2w at a whole number w, 2w + 1 between w and the next.
fn position_of(k: Clock) -> u16
    ensures { result ≡ position (cell_of k) }
{
    if k.whole == OVER {
        return PAST_LIMITS;
    }
    2 * u16::from(k.whole) + u16::from(k.rank != 0)
}

// Returns the limit that an atom sets.
fn limit_by(a: Invariant) -> u16
    ensures { result ≡ limit_by a }
{
    2 * u16::from(a.constant) + u16::from(a.comparison)
}

// Returns where the limit of a clock at a location stands.
fn place_of(location: u8, clock: u8) -> usize
    ensures { result ≡ limit_place location clock }
{
    4 * usize::from(location) + usize::from(clock)
}

// Returns the limit of a clock at a location.
fn limit_at(limits: &[u16], location: u8, clock: u8) -> u16
    ensures { result ≡ limit_in limits.now location clock }
{
    slices::at(limits, place_of(location, clock), NO_LIMIT)
}

// Takes the limit of an atom in.
fn lower(a: Invariant, limits: &mut [u16])
    ensures { limits.new ≡ set limits.old (limit_place a.location a.clock)
        (min (limit_in limits.old a.location a.clock) (limit_by a)) }
{
    let limit = limit_at(limits, a.location, a.clock).min(limit_by(a));
    slices::put(limits, place_of(a.location, a.clock), limit);
}

// Takes the limits of all invariant atoms of a table into a list of no limits.
pub(crate) fn list_limits(bytes: &[u8], shape: Shape, limits: &mut [u16])
    ensures { (m : Model) → Reads bytes.now shape m → limits.old ≡ replicate 1024 no_limit
        → Limited m limits.new }
{
    for i in 0..shape.invariants {
        lower(table::invariant_at(bytes, shape, i), limits);
    }
}

// Whether a clock of a region is below its limit.
fn is_under(limits: &[u16], bounds: Bounds, r: Region, clock: u8) -> bool
    ensures { result ≡ under limits.now bounds r clock }
{
    position_of(r.clock_at(bounds, usize::from(clock))) < limit_at(limits, r.location, clock)
}

// Whether each clock of a region is below its limit.
pub(crate) fn is_under_all(limits: &[u16], bounds: Bounds, r: Region) -> bool
    ensures { result ≡ all_under limits.now bounds r }
{
    is_under(limits, bounds, r, 0)
        && is_under(limits, bounds, r, 1)
        && is_under(limits, bounds, r, 2)
        && is_under(limits, bounds, r, 3)
}
