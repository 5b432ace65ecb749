// A state that the call takes, and the region that it lies in.
ghost use Rattle.std.specs.Prelude.{ℕ, ◌≤◌, ◌<◌, ◌≡◌};
ghost use Rattle.clocks.specs.Cells.{rank};
ghost use Rattle.states.specs.Spots.{spot_wholes, fraction_ranks};
ghost use Rattle.states.specs.StateCall.{most_denominator, strays};

use clocks::{Bounds, OVER, Region};
use std::array;
use table::{Reason, Refusal, Shape};

const MOST_PARTS: u64 = 1_000_000;

// Holds a clock of a state: its whole part (16 for over), and its fraction, a numerator over the state's denominator (0 for over).
#[derive(Clone, Copy)]
pub(crate) struct Spot {
    pub whole: u8,
    pub fraction: u64,
}

// Holds a location, and the four values over a denominator.
#[derive(Clone, Copy)]
pub(crate) struct State {
    pub location: u8,
    pub values: [u64; 4],
    pub denominator: u64,
    ghost positive: { 0 < denominator },
    ghost small: { denominator ≤ most_denominator },
}

// Counts how many different fractions there are from 1 to a fraction, among four: its rank.
fn rank_of(fraction: u64, fractions: [u64; 4]) -> u8
    ensures { result ≡ rank fractions fraction }
{
    let mut rank = 0;
    // Goes over the fractions and not over the numbers up to one, as there are up to 1,000,000.
    for (i, other) in fractions.iter().enumerate() {
        // Counts equal ones once, at the last of them.
        if 0 < *other && *other <= fraction && !fractions[i + 1..].contains(other) {
            rank += 1;
        }
    }
    rank
}

// Returns the integer parts of four clocks, as bytes of a region: 0 beyond the count.
fn wholes_of(count: usize, spots: [Spot; 4]) -> [u8; 4]
    ensures { result ≡ spot_wholes count spots }
{
    array::from_fn(|i| if i < count { spots[i].whole } else { 0 })
}

// Returns the ranks of four fractions among themselves, as bytes of a region: 0 beyond the count.
fn ranks_of(count: usize, fractions: [u64; 4]) -> [u8; 4]
    ensures { result ≡ fraction_ranks count fractions }
{
    array::from_fn(|i| if i < count {
        rank_of(fractions[i], fractions)
    } else {
        0
    })
}

// Tells whether a value beyond the first n is not 0.
fn is_stray(values: [u64; 4], n: u8) -> bool
    ensures { result ≡ strays n 0 values }
{
    values.iter().skip(usize::from(n)).any(|v| *v != 0)
}

impl State {
    ghost use Rattle.std.specs.Prelude.{true, false, map, MatchResult};
    ghost use Rattle.table.specs.Model.{Model};
    ghost use Rattle.table.specs.Reasons.{refusal_at};
    ghost use Rattle.table.specs.declared.refusals.Reason.TheVariants.{BadState};
    ghost use Rattle.states.specs.Placing.{state_cell, state_cells, placed};
    ghost use Rattle.states.specs.Spots.{spot_of};
    ghost use Rattle.states.specs.Taken.{state_of, asked_with};
    ghost use Rattle.states.specs.StateCall.{is_not_taken};

    // Returns the state that is asked for, unless it is one that the call does not take.
    #[tactic(auto, unfolding(crate::specs::StateCall::is_not_taken))]
    pub(crate) fn new(
        shape: Shape,
        location: u64,
        values: [u64; 4],
        denominator: u64,
    ) -> Result<State, Refusal>
        ensures { (m : Model) → shape.locations ≡ m.locations → shape.clocks ≡ m.clocks
            → MatchResult result
            (λ s. (is_not_taken m (asked_with location values denominator) ≡ false) × (state_of s ≡ asked_with location values denominator))
            (λ e. (is_not_taken m (asked_with location values denominator) ≡ true) × (e ≡ refusal_at BadState 0)) }
    {
        let is_taken = location < u64::from(shape.locations)
            && 0 < denominator
            && denominator <= MOST_PARTS
            && !is_stray(values, shape.clocks);
        if is_taken {
            Ok(State {
                location: location as u8,
                values,
                denominator,
            })
        } else {
            Err(Reason::BadState.at(0))
        }
    }

    // Returns clock i of the state. A clock beyond the count takes no part: it counts as over.
    fn spot_at(self, bounds: Bounds, i: usize) -> Spot
        ensures { result ≡ spot_of (state_cell bounds (state_of self) i) }
    {
        let value = slices::at(&self.values, i, 0);
        let most = u64::from(slices::at(&bounds.bound, i, 0)) * self.denominator;
        if i < usize::from(bounds.count) && value <= most {
            Spot {
                whole: (value / self.denominator) as u8,
                fraction: value % self.denominator,
            }
        } else {
            Spot {
                whole: OVER,
                fraction: 0,
            }
        }
    }

    fn spots(self, bounds: Bounds) -> [Spot; 4]
        ensures { result ≡ map spot_of (state_cells bounds (state_of self)) }
    {
        array::from_fn(|i| self.spot_at(bounds, i))
    }

    // Returns the region of the state.
    pub(crate) fn region(self, bounds: Bounds) -> Region
        ensures { result ≡ placed bounds (state_of self) }
    {
        let count = usize::from(bounds.count);
        let spots = self.spots(bounds);
        Region {
            location: self.location,
            whole: wholes_of(count, spots),
            rank: ranks_of(count, spots.map(|s| s.fraction)),
        }
    }
}
