// Keeps what the reader remembers, and says what each record does: the first row of its refusals that holds decides.
ghost use Rattle.std.specs.Prelude.{◌+◌, ◌<◌, ◌≡◌, Ok, Some, None, leb};
ghost use Rattle.table.specs.Format.{last_bound, last_comparison};
ghost use Rattle.table.specs.Refusals.{bit_beyond, decide, header_rows, location_rows, invariant_rows, edge_rows, guard_rows};
ghost use Rattle.table.specs.Refusals.{branch_rows, end_rows, start, after_header, after_location, after_invariant, after_edge};
ghost use Rattle.table.specs.Refusals.{after_guard, after_branch};

use crate::codes::Comparison;
use crate::format::{
    MAX_BRANCHES, MAX_CLOCKS, MAX_CONSTANT, MAX_DENOMINATOR, MAX_EDGES, MAX_GUARDS, MAX_INVARIANTS,
    MAX_LOCATIONS,
};
use crate::model::{Branch, Edge, Guard, Invariant};
use crate::refusals::{Reason, Refusal};

// Says which records may come next.
#[derive(Clone, Copy, Debug, Default, PartialEq, Eq, PartialOrd, Ord)]
pub(crate) enum Stage {
    // Allows the header.
    #[default]
    AtStart,
    // Allows a location.
    InLocations,
    // Allows an invariant atom, an edge or the end.
    InInvariants,
    // Allows a guard atom, a branch, an edge or the end.
    InGuards,
    // Allows a branch, an edge or the end.
    InBranches,
}

// Remembers what was read so far. `edges` counts the edges begun, and the last five fields are of the last of them.
#[derive(Clone, Copy, Default)]
pub(crate) struct Progress {
    pub stage: Stage,
    pub clocks: u8,
    pub locations: u8,
    pub initial: u8,
    pub labels: usize,
    pub invariants: usize,
    pub edges: usize,
    pub place: usize,
    pub denominator: usize,
    pub guards: usize,
    pub branches: usize,
    pub weights: usize,
}

// Tells whether a byte is a comparison of an invariant atom.
fn is_bound(comparison: u8) -> bool
    ensures { result ≡ leb comparison last_bound }
{
    matches!(
        Comparison::try_from(comparison),
        Ok(Comparison::Less | Comparison::AtMost)
    )
}

// Tells whether a byte is a comparison of a guard atom.
fn is_comparison(comparison: u8) -> bool
    ensures { result ≡ leb comparison last_comparison }
{
    Comparison::try_from(comparison).is_ok()
}

// Tells whether a mask names a clock that does not exist.
fn names_missing_clock(mask: u8, clocks: u8) -> bool
    ensures { result ≡ bit_beyond mask clocks }
{
    clocks < 8 && 0 < mask >> clocks
}

// Says, for each kind of record, what one at a place leads to: what is remembered next, or nothing more after the end record.
impl Progress {
    pub(crate) fn start() -> Progress
        ensures { result ≡ start }
    {
        Progress::default()
    }

    pub(crate) fn read_header(
        self,
        at: usize,
        clocks: u8,
        locations: u8,
        initial: u8,
    ) -> Result<Option<Progress>, Refusal>
        ensures { result ≡ decide (header_rows self at clocks locations initial) (Ok (Some (after_header clocks locations initial))) }
    {
        if Stage::AtStart < self.stage {
            return Err(Reason::OutOfOrder.at(at));
        }
        if MAX_CLOCKS < clocks
            || locations < 1
            || MAX_LOCATIONS < locations
            || locations <= initial
        {
            return Err(Reason::BadHeader.at(at));
        }
        Ok(Some(Progress {
            stage: Stage::InLocations,
            clocks,
            locations,
            initial,
            ..Progress::default()
        }))
    }

    pub(crate) fn read_location(self, at: usize) -> Result<Option<Progress>, Refusal>
        requires { self.labels < 65536 }
        ensures { result ≡ decide (location_rows self at) (Ok (Some (after_location self))) }
    {
        if self.stage != Stage::InLocations {
            return Err(Reason::OutOfOrder.at(at));
        }
        let labels = self.labels + 1;
        let stage = if usize::from(self.locations) <= labels {
            Stage::InInvariants
        } else {
            Stage::InLocations
        };
        Ok(Some(Progress {
            stage,
            labels,
            ..self
        }))
    }

    pub(crate) fn read_invariant(self, at: usize, a: Invariant) -> Result<Option<Progress>, Refusal>
        ensures { result ≡ decide (invariant_rows self at a) (Ok (Some (after_invariant self))) }
    {
        if self.stage != Stage::InInvariants {
            return Err(Reason::OutOfOrder.at(at));
        }
        if self.locations <= a.location || self.clocks <= a.clock {
            return Err(Reason::UnknownName.at(at));
        }
        if !is_bound(a.comparison) {
            return Err(Reason::UnknownComparison.at(at));
        }
        if MAX_CONSTANT < a.constant {
            return Err(Reason::LargeConstant.at(at));
        }
        if MAX_INVARIANTS <= self.invariants {
            return Err(Reason::TooMany.at(at));
        }
        Ok(Some(Progress {
            invariants: self.invariants + 1,
            ..self
        }))
    }

    pub(crate) fn read_edge(self, at: usize, e: Edge) -> Result<Option<Progress>, Refusal>
        ensures { result ≡ decide (edge_rows self at e.source e.denominator) (Ok (Some (after_edge self at e.denominator))) }
    {
        if self.stage < Stage::InInvariants {
            return Err(Reason::OutOfOrder.at(at));
        }
        if self.locations <= e.source {
            return Err(Reason::UnknownName.at(at));
        }
        if e.denominator == 0 || MAX_DENOMINATOR < e.denominator {
            return Err(Reason::BadWeight.at(at));
        }
        if MAX_EDGES <= self.edges {
            return Err(Reason::TooMany.at(at));
        }
        if self.weights != self.denominator {
            return Err(Reason::UnequalWeights.at(self.place));
        }
        Ok(Some(Progress {
            stage: Stage::InGuards,
            edges: self.edges + 1,
            place: at,
            denominator: e.denominator as usize,
            guards: 0,
            branches: 0,
            weights: 0,
            ..self
        }))
    }

    pub(crate) fn read_guard(self, at: usize, g: Guard) -> Result<Option<Progress>, Refusal>
        ensures { result ≡ decide (guard_rows self at g) (Ok (Some (after_guard self))) }
    {
        if self.stage != Stage::InGuards {
            return Err(Reason::OutOfOrder.at(at));
        }
        if self.clocks <= g.clock {
            return Err(Reason::UnknownName.at(at));
        }
        if !is_comparison(g.comparison) {
            return Err(Reason::UnknownComparison.at(at));
        }
        if MAX_CONSTANT < g.constant {
            return Err(Reason::LargeConstant.at(at));
        }
        if MAX_GUARDS <= self.guards {
            return Err(Reason::TooMany.at(at));
        }
        Ok(Some(Progress {
            guards: self.guards + 1,
            ..self
        }))
    }

    pub(crate) fn read_branch(self, at: usize, b: Branch) -> Result<Option<Progress>, Refusal>
        requires { self.weights + b.weight < 4294967296 }
        ensures { result ≡ decide (branch_rows self at b) (Ok (Some (after_branch self b.weight))) }
    {
        if self.stage < Stage::InGuards {
            return Err(Reason::OutOfOrder.at(at));
        }
        if self.locations <= b.target || names_missing_clock(b.mask, self.clocks) {
            return Err(Reason::UnknownName.at(at));
        }
        if b.weight == 0 {
            return Err(Reason::BadWeight.at(at));
        }
        if MAX_BRANCHES <= self.branches {
            return Err(Reason::TooMany.at(at));
        }
        Ok(Some(Progress {
            stage: Stage::InBranches,
            branches: self.branches + 1,
            weights: self.weights + b.weight,
            ..self
        }))
    }

    // Takes the table's length as `size`.
    pub(crate) fn read_end(self, at: usize, size: usize) -> Result<Option<Progress>, Refusal>
        requires { at < 65536 }
        ensures { result ≡ decide (end_rows self at size) (Ok None) }
    {
        if self.stage < Stage::InInvariants {
            return Err(Reason::OutOfOrder.at(at));
        }
        if self.weights != self.denominator {
            return Err(Reason::UnequalWeights.at(self.place));
        }
        if at + 1 < size {
            return Err(Reason::TrailingBytes.at(at + 1));
        }
        Ok(None)
    }
}
