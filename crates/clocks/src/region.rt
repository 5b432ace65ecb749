// A region by value, in nine bytes: delay, reset and guard test.
ghost use Rattle.std.specs.Prelude.{ℕ, ◌≡◌, map};
ghost use Rattle.clocks.specs.Atoms.{atom};
ghost use Rattle.clocks.specs.Cells.{some, leaving, leave, highest, arrive, restarted, close};
ghost use Rattle.clocks.specs.Packed.{cell_of, cells_of, four_of, clock_at, four_at, region_of, delayed, after_reset};

use crate::clock::{Clock, OVER};
use std::array;
use table::Comparison;

// Says how many clocks a model has, and the bound of each.
#[derive(Clone, Copy, Debug, PartialEq, Eq)]
pub struct Bounds {
    pub count: u8,
    pub bound: [u8; 4],
}

// Holds a region's location, and of each clock the integer part (16 for over) and the rank (0 for over). Clocks beyond the count hold 0
// in both.
#[derive(Clone, Copy, Debug, PartialEq, Eq)]
pub struct Region {
    pub location: u8,
    pub whole: [u8; 4],
    pub rank: [u8; 4],
}

// Lets a delay begin where some clock has rank 0.
fn leave_all(clocks: [Clock; 4]) -> [Clock; 4]
    ensures { result ≡ four_of (map (leave (some leaving (cells_of clocks))) (cells_of clocks)) }
{
    let any = clocks.iter().any(|k| k.is_leaving());
    clocks.map(|k| k.leave(any))
}

// Lets a delay end where the clocks of highest rank come to whole numbers.
fn arrive_all(clocks: [Clock; 4]) -> [Clock; 4]
    ensures { result ≡ four_of (map (arrive (highest (cells_of clocks))) (cells_of clocks)) }
{
    let top = clocks.iter().fold(0, |top, k| top.max(k.fraction()));
    clocks.map(|k| k.arrive(top))
}

// Puts the clocks of a mask at 0.
fn restart_all(clocks: [Clock; 4], mask: u8) -> [Clock; 4]
    ensures { cells_of result ≡ restarted mask 0 (cells_of clocks) }
{
    array::from_fn(|i| clocks[i].restart_if(table::resets(mask, i as u8)))
}

// Closes up the ranks.
fn close_all(clocks: [Clock; 4]) -> [Clock; 4]
    ensures { result ≡ four_of (close (cells_of clocks)) }
{
    let fractions = clocks.map(|k| k.fraction());
    clocks.map(|k| k.close(fractions))
}

impl Region {
    // Returns clock i of the region. A clock beyond the count takes no part: it counts as over.
    #[tactic(auto, unfolding(crate::specs::Packed::clock_at))]
    pub fn clock_at(self, bounds: Bounds, i: usize) -> Clock
        ensures { result ≡ clock_at bounds self i }
    {
        if i < usize::from(bounds.count) {
            Clock {
                bound: bounds.bound.get(i).copied().unwrap_or(0),
                whole: self.whole.get(i).copied().unwrap_or(0),
                rank: self.rank.get(i).copied().unwrap_or(0),
            }
        } else {
            Clock {
                bound: 0,
                whole: OVER,
                rank: 0,
            }
        }
    }

    fn clocks(self, bounds: Bounds) -> [Clock; 4]
        ensures { result ≡ four_at bounds self }
    {
        array::from_fn(|i| self.clock_at(bounds, i))
    }

    // Returns the region with these clocks at the same location.
    fn with_clocks(self, bounds: Bounds, clocks: [Clock; 4]) -> Region
        ensures { result ≡ region_of bounds self.location clocks }
    {
        let count = usize::from(bounds.count);
        Region {
            location: self.location,
            whole: array::from_fn(|i| if i < count { clocks[i].whole } else { 0 }),
            rank: array::from_fn(|i| if i < count { clocks[i].rank } else { 0 }),
        }
    }

    // Returns the region that follows by delay, if any does.
    pub fn delay(self, bounds: Bounds) -> Option<Region>
        ensures { result ≡ delayed bounds self }
    {
        let clocks = self.clocks(bounds);
        if clocks.iter().all(|k| k.is_over()) {
            return None;
        }
        let next = if clocks.iter().any(|k| k.is_standing()) {
            leave_all(clocks)
        } else {
            arrive_all(clocks)
        };
        Some(self.with_clocks(bounds, next))
    }

    // Returns the region after a reset of the clocks of a mask.
    pub fn reset(self, bounds: Bounds, mask: u8) -> Region
        ensures { result ≡ after_reset bounds self mask }
    {
        let clocks = self.clocks(bounds);
        self.with_clocks(bounds, close_all(restart_all(clocks, mask)))
    }

    // Returns what an atom says of the region: nothing where there is no such comparison, which no model that was read has.
    #[tactic(auto, unfolding(crate::specs::Atoms::atom))]
    pub fn test(self, bounds: Bounds, clock: u8, comparison: u8, constant: u8) -> Option<bool>
        ensures { result ≡ atom comparison constant (cell_of (clock_at bounds self clock)) }
    {
        let comparison = Comparison::try_from(comparison).ok()?;
        let k = self.clock_at(bounds, usize::from(clock));
        Some(match comparison {
            Comparison::Less => k.is_below(constant),
            Comparison::AtMost => k.is_at_most(constant),
            Comparison::Greater => !k.is_at_most(constant),
            Comparison::AtLeast => !k.is_below(constant),
            Comparison::Equal => k.is_equal(constant),
        })
    }
}
