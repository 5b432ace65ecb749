// One clock of a region, by value: its bound, its integer part (16 for over) and its rank.
ghost use Rattle.std.specs.Prelude.{ℕ, ◌≤◌, ◌≡◌, cond, not, ◌&&◌};
ghost use Rattle.clocks.specs.Cells.{fraction_of, rank, closed, restart, is_over, standing, leaving, leave, arrive};
ghost use Rattle.clocks.specs.Atoms.{below, at_most};
ghost use Rattle.clocks.specs.Packed.{cell_of, clock_of};

// Stands for over in place of an integer part.
pub const OVER: u8 = 16;

#[derive(Clone, Copy, Debug, PartialEq, Eq)]
pub struct Clock {
    pub bound: u8,
    pub whole: u8,
    pub rank: u8,
}

// Counts how many of 1 to a fraction are among four: its rank.
fn rank_of(fraction: u8, fractions: [u8; 4]) -> u8
    ensures { (result ≡ rank fractions fraction) × (result ≤ fraction) }
{
    let mut rank = 0;
    for k in 1..=fraction {
        if fractions.contains(&k) {
            rank += 1;
        }
    }
    rank
}

impl Clock {
    pub(crate) fn is_over(self) -> bool
        ensures { result ≡ is_over (cell_of self) }
    {
        self.whole == OVER
    }

    // Tells whether the clock is not over and has rank 0.
    pub(crate) fn is_standing(self) -> bool
        ensures { result ≡ standing (cell_of self) }
    {
        !self.is_over() && self.rank == 0
    }

    // Tells whether the clock is not over, has rank 0, and is below its bound.
    pub(crate) fn is_leaving(self) -> bool
        ensures { result ≡ leaving (cell_of self) }
    {
        self.is_standing() && self.whole < self.bound
    }

    // Returns the clock's rank, and 0 where it is over.
    pub(crate) fn fraction(self) -> u8
        ensures { result ≡ fraction_of (cell_of self) }
    {
        if self.is_over() { 0 } else { self.rank }
    }

    // Returns the clock after a delay that begins where some clock has rank 0; `any` says that some clock gets rank 1.
    pub(crate) fn leave(self, any: bool) -> Clock
        ensures { result ≡ clock_of (leave any (cell_of self)) }
    {
        if self.is_over() {
            Clock { rank: 0, ..self }
        } else if self.is_leaving() {
            Clock { rank: 1, ..self }
        } else if self.rank == 0 {
            Clock {
                whole: OVER,
                ..self
            }
        } else if any {
            Clock {
                rank: self.rank.saturating_add(1),
                ..self
            }
        } else {
            self
        }
    }

    // Returns the clock after a delay to where the clocks of highest rank come to whole numbers.
    pub(crate) fn arrive(self, top: u8) -> Clock
        ensures { result ≡ clock_of (arrive top (cell_of self)) }
    {
        if self.is_over() {
            Clock { rank: 0, ..self }
        } else if self.rank == top {
            Clock {
                whole: self.whole.saturating_add(1),
                rank: 0,
                ..self
            }
        } else {
            self
        }
    }

    // Returns the clock at 0 where it is reset, and else the clock itself.
    pub(crate) fn restart_if(self, reset: bool) -> Clock
        ensures { cell_of result ≡ cond reset (restart (cell_of self)) (cell_of self) }
    {
        if reset {
            Clock {
                whole: 0,
                rank: 0,
                ..self
            }
        } else {
            self
        }
    }

    // Returns the clock with its rank closed up among four fractions.
    pub(crate) fn close(self, fractions: [u8; 4]) -> Clock
        ensures { result ≡ clock_of (closed fractions (cell_of self)) }
    {
        Clock {
            rank: rank_of(self.fraction(), fractions),
            ..self
        }
    }

    // Tells whether the clock is below a constant.
    pub(crate) fn is_below(self, constant: u8) -> bool
        ensures { result ≡ below constant (cell_of self) }
    {
        !self.is_over() && self.whole < constant
    }

    // Tells whether the clock is at most a constant.
    pub(crate) fn is_at_most(self, constant: u8) -> bool
        ensures { result ≡ at_most constant (cell_of self) }
    {
        self.is_below(constant) || self.is_standing() && self.whole == constant
    }

    // Tells whether the clock is a constant.
    pub(crate) fn is_equal(self, constant: u8) -> bool
        ensures { result ≡ (at_most constant (cell_of self) && not (below constant (cell_of self))) }
    {
        self.is_at_most(constant) && !self.is_below(constant)
    }
}
