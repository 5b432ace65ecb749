// Reads a table in one pass over its records.
ghost use Rattle.std.specs.Prelude.{◌<◌, ◌≡◌};
ghost use Rattle.table.specs.Records.{record_of, past};
ghost use Rattle.table.specs.Codes.{kind_code};
ghost use Rattle.table.specs.Refusals.{step_of, step_at};
ghost use Rattle.table.specs.Reading.{read_table};
ghost use Rattle.table.specs.Laws.Models.{shape_from};
ghost use Rattle.table.specs.Answer.{reading_of};
ghost use Rattle.table.specs.Laws.Turns.{Ranged};

use crate::bodies::{Body, body_at};
use crate::codes::{Kind, body_length};
use crate::format::MAX_BYTES;
use crate::model::Shape;
use crate::records::Progress;
use crate::refusals::{Reason, Refusal};

// Finds where the record after the one at a place begins.
#[tactic(auto, unfolding(crate::specs::Records::past))]
fn pass(table: &[u8], at: usize) -> usize
    requires { at < 65536 }
    ensures { result ≡ past table.now at }
{
    at + 1 + body_length(slices::at(table, at, 0))
}

impl Progress {
    // Says what a record leads to, by its kind and the four bytes that its body begins with. `size` is the table's length.
    #[tactic(auto, unfolding(crate::specs::Records::record_of, crate::specs::Refusals::rows_of, crate::specs::Refusals::next_of))]
    fn read_kind(
        self,
        at: usize,
        size: usize,
        kind: Kind,
        body: Body,
    ) -> Result<Option<Progress>, Refusal>
        requires at_bound { at < 65536 }
        requires ranged { Ranged self at }
        ensures { result ≡ step_of self at size (record_of (kind_code kind) body) }
    {
        match kind {
            Kind::Header => self.read_header(at, body.a, body.b, body.c),
            Kind::Location => self.read_location(at),
            Kind::Invariant => self.read_invariant(at, body.invariant()),
            Kind::Edge => self.read_edge(at, body.edge()),
            Kind::Guard => self.read_guard(at, body.guard()),
            Kind::Branch => self.read_branch(at, body.branch()),
            Kind::End => self.read_end(at, size),
        }
    }

    // Says what the record at a place leads to.
    #[tactic(auto, unfolding(crate::specs::Refusals::step_at, crate::specs::Records::record_at))]
    fn read_record(self, table: &[u8], at: usize) -> Result<Option<Progress>, Refusal>
        requires at_bound { at < 65536 }
        requires ranged { Ranged self at }
        ensures { result ≡ step_at table.now self at }
    {
        if table.len() <= at {
            return Err(Reason::Missing.at(at));
        }
        let Ok(kind) = Kind::try_from(table[at]) else {
            return Err(Reason::UnknownKind.at(at));
        };
        if table.len() < pass(table, at) {
            return Err(Reason::CutShort.at(at));
        }
        self.read_kind(at, table.len(), kind, body_at(table, at))
    }

    // Returns what is kept of a table that was read to its end.
    fn shape(self) -> Shape
        requires { self.invariants < 65536 }
        ensures { result ≡ shape_from self }
    {
        let first_invariant = 4 + 2 * usize::from(self.locations);
        Shape {
            clocks: self.clocks,
            locations: self.locations,
            initial: self.initial,
            invariants: self.invariants,
            edges: self.edges,
            first_location: 4,
            first_invariant,
            first_edge: first_invariant + 5 * self.invariants,
        }
    }
}

// Reads a table: its counts and where its parts begin, or the first refusal.
pub fn read(table: &[u8]) -> Result<Shape, Refusal>
    ensures { result ≡ reading_of (read_table table.now) }
{
    if MAX_BYTES < table.len() {
        return Err(Reason::TooLong.at(0));
    }
    let mut progress = Progress::start();
    let mut at = 0;
    while let Some(next) = progress.read_record(table, at)? {
        at = pass(table, at);
        progress = next;
    }
    Ok(progress.shape())
}
