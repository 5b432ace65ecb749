// A pass gives each item of a list the id of its signature: the set of the ids of its steps, its name, and the id of the set of names that
// it reaches by delay.
ghost use Rattle.std.specs.Prelude.{ℕ, ◌≤◌, ◌<◌, ◌≡◌, [], length};
ghost use Rattle.signatures.specs.Book.{room, Told, Grows};
ghost use Rattle.signatures.specs.Dictionary.{index_size};
ghost use Rattle.signatures.specs.Memo.{memo_size};
ghost use Rattle.signatures.specs.Named.{items_in, reached_from, Listed, Signed, Passed, steps_from};
ghost use Rattle.signatures.specs.Pass.{State, Ready, Keeps};
ghost use Rattle.signatures.specs.Raw.{raw_step};
ghost use Rattle.signatures.specs.Steps.{name_of};
ghost use Rattle.graph.specs.Readers.{class_of};
ghost use Rattle.signatures.specs.Structure.{edge_of, step_at};

use crate::dictionary::{Dictionary, NoRoom};
use crate::memo::{cell_of, note, noted};
use crate::sets::insert;
use crate::steps::{raw_form, step_of};
use arrayvec::ArrayVec;
use slices::at;
use std::marker::Model;

// What stands in the place of an id where an item has none.
const NO_ID: u16 = 65535;

// A clause sees the graph, its edges, the names and the lists that are held. The names that an item reaches by delay are gathered in
// `delays`: it is kept for the next item, since a new one would be filled with zeros.
#[derive(Drop)]
pub(crate) struct Pass<'a> {
    graph: &'a [u16],
    edges: &'a [u32],
    names: &'a [u16],
    dictionary: Dictionary<'a>,
    memo: &'a mut [u16],
    delays: ArrayVec<u32, 4096>,
}

impl<'a> Model for Pass<'a> {
    ghost Value = { State };

    ghost view = { λ p. record { graph = p.graph.now; edges = p.edges.now; names = p.names.now; held = p.dictionary } };

    ghost invariant = { λ p. Ready p.edges.now p.names.now p.dictionary p.memo.now };
}

// Gathers the names that an item reaches by delay.
fn reach(x: usize, names: &[u16], delays: &mut ArrayVec<u32, 4096>)
    requires { items_in names.now ≤ 4096 }
    ensures { delays.new.items ≡ reached_from names.now x }
{
    let n = names.len() / 2;
    let mut y = x;
    delays.clear();
    for _i in 0..n {
        if n <= y {
            return;
        }
        insert(u32::from(names[y]), delays);
        y = usize::from(names[n + y]);
    }
}

impl<'a> Pass<'a> {
    // Begins a pass, in which nothing is held.
    pub(crate) fn new(
        graph: &'a [u16],
        edges: &'a [u32],
        names: &'a [u16],
        index: &'a mut [u16],
        numbers: &'a mut [u32],
        memo: &'a mut [u16],
    ) -> Pass<'a>
        requires sizes { (length index.old ≡ index_size) × (length numbers.old ≡ room) × (length memo.old ≡ memo_size) }
        requires few { items_in names.now ≤ 4096 }
        ensures { result ≡ record { graph = graph.now; edges = edges.now; names = names.now; held = [] } }
    {
        memo.fill(0);
        Pass {
            graph,
            edges,
            names,
            dictionary: Dictionary::new(index, numbers),
            memo,
            delays: ArrayVec::new(),
        }
    }

    // Returns the id of the step of a raw form, which is listed only if it was not noted.
    fn noted_id(&mut self, raw: &[u16]) -> Result<u16, NoRoom>
        requires { (0 < length raw.now) × (length raw.now ≤ 9) }
        ensures keeps { Keeps self.old self.new }
        ensures told { Told (raw_step self.old.edges raw.now) self.old.held self.new.held result }
    {
        let cell = cell_of(raw);
        let memo = &mut *self.memo;
        if let Some(id) = noted(raw, cell, memo) {
            return Ok(id);
        }
        let step = step_of(raw, self.edges);
        let id = self.dictionary.intern(step.as_slice())?;
        note(raw, id, cell, memo);
        Ok(id)
    }

    // Returns the id of the step of the edge of a rank at an item.
    fn step_id(&mut self, x: usize, rank: usize) -> Result<u16, NoRoom>
        ensures keeps { Keeps self.old self.new }
        ensures told { Told (step_at self.old.graph self.old.edges self.old.names (class_of self.old.graph x)
            (edge_of self.old.graph x rank)) self.old.held self.new.held result }
    {
        let class = graph::class_of(self.graph, x);
        let location = graph::location_of(self.graph, x);
        let edge = graph::edge_at(self.graph, location, rank);
        let raw = raw_form(edge, class, self.graph, self.names);
        self.noted_id(raw.as_slice())
    }

    // Returns the ids of the steps of an item as a set.
    fn step_ids(&mut self, x: usize) -> Result<ArrayVec<u32, 130>, NoRoom>
        ensures keeps { Keeps self.old self.new }
        ensures grows { Grows self.old.held self.new.held }
        ensures listed { Listed self.old.graph self.old.edges self.old.names x self.old.held self.new.held result }
    {
        let graph = self.graph;
        let location = graph::location_of(graph, x);
        let mut ids = ArrayVec::new();
        for rank in 0..graph::edge_count(graph, location) {
            if graph::is_available(graph, x, rank) {
                let id = self.step_id(x, rank)?;
                insert(u32::from(id), &mut ids);
            }
        }
        Ok(ids)
    }

    // Returns the id of the names that an item reaches by delay.
    fn delay_id(&mut self, x: usize) -> Result<u16, NoRoom>
        ensures keeps { Keeps self.old self.new }
        ensures told { Told (reached_from self.old.names x) self.old.held self.new.held result }
        ensures few { length (reached_from self.old.names x) ≤ 4096 }
    {
        reach(x, self.names, &mut self.delays);
        self.dictionary.intern(self.delays.as_slice())
    }

    // Returns the id of the signature of an item.
    fn signature(&mut self, x: usize) -> Result<u16, NoRoom>
        ensures keeps { Keeps self.old self.new }
        ensures grows { Grows self.old.held self.new.held }
        ensures signed { Signed self.old.held self.new.held (name_of self.old.names x) (reached_from self.old.names x)
            (steps_from self.old.graph self.old.edges self.old.names x) result }
    {
        let mut whole = self.step_ids(x)?;
        let delays = self.delay_id(x)?;
        whole.push(u32::from(at(self.names, x, 0)));
        whole.push(u32::from(delays));
        self.dictionary.intern(whole.as_slice())
    }

    // Gives all items of a list the ids of their signatures.
    pub(crate) fn sign_all(&mut self, items: &mut [u16])
        requires { self.old.held ≡ [] }
        ensures { Passed self.old.graph self.old.edges self.old.names items.old items.new }
    {
        for item in items.iter_mut() {
            *item = self.signature(usize::from(*item)).unwrap_or(NO_ID);
        }
    }
}
