// One region by itself, for the layer above: its label, what it reaches by delay, and its edges, from entries that are lent.
ghost use Rattle.std.specs.Prelude.{ℕ, ◌+◌, ◌*◌, ◌≤◌, ◌<◌, ◌≡◌, true, false, length, Ok};
ghost use Rattle.table.specs.Model.{Model};
ghost use Rattle.table.specs.Reading.{read_table, refusal, accepted};
ghost use Rattle.table.specs.Reads.{Reads, edge_of};
ghost use Rattle.regions.specs.Of.{Of, OfEdge};
ghost use Rattle.table.specs.declared.refusals.Reason.{Reason};
ghost use Rattle.regions.specs.Explore.{regions_of, region_of, size_of};
ghost use Rattle.regions.specs.Filling.{Before, Fitting};
ghost use Rattle.regions.specs.Sight.{checked_of, location_labels, labels_after, entry_in, delay_list, Ways, Stepping, is_seen, sight_of};
ghost use Rattle.regions.specs.Sight.{Sighted};

use crate::entry::{ENTRY_BYTES, MAX_ENTRIES, read_entry};
use crate::guards::landing_of;
use crate::index::{Links, Listed};
use crate::marks::Marks;
use crate::moves::link_all;
use crate::prepared::Prepared;
use crate::reach::list_delays;
use crate::rows::{MAX_BRANCHES, ROW, store};
use clocks::Region;
use table::{Refusal, Shape};

// What is said of a region: its label, how many regions it reaches by delay, and how many edges the model has.
#[derive(Clone, Copy, Debug, PartialEq, Eq)]
pub struct Seen {
    pub label: u8,
    pub reached: usize,
    pub edges: usize,
}

// Reads a table, and says how many clocks its model has.
pub fn check_table(bytes: &[u8]) -> Result<u8, Refusal>
    ensures { result ≡ checked_of (read_table bytes.now) }
{
    let shape = table::read(bytes)?;
    Ok(shape.clocks)
}

// Stores the labels of the first locations of a table that was read, as many as the slice is long; 0 past the last location.
fn store_location_labels(bytes: &[u8], shape: Shape, labels: &mut [u8])
    ensures { (m : Model) → Reads bytes.now shape m
        → labels.new ≡ location_labels m (length labels.old) }
{
    for i in 0..labels.len() {
        labels[i] = table::label_at(bytes, shape, i);
    }
}

// Stores the labels of the first locations of a table, as many as the slice is long; the slice stays if the table is refused.
pub fn label_locations(bytes: &[u8], labels: &mut [u8])
    ensures { labels.new ≡ labels_after (read_table bytes.now) labels.old }
{
    if let Ok(shape) = table::read(bytes) {
        store_location_labels(bytes, shape, labels);
    }
}

// The region at an entry.
pub fn entry_at(entries: &[u8], j: usize) -> Region
    ensures { result ≡ entry_in entries.now j }
{
    if j < MAX_ENTRIES {
        return read_entry(entries, j);
    }
    Region {
        location: 0,
        whole: [0; 4],
        rank: [0; 4],
    }
}

// Stores the branches of the edge at a place: weight and target number of each, from a place of the rows on; and how many there are.
fn list_ways(marks: &Marks, place: usize, found: Listed, at: usize, rows: &mut [u16])
    requires { at + 32 ≤ length rows.old }
    ensures before { Before (at + 3) rows.old rows.new }
    ensures ways { (m : Model) (e : ℕ) → Of marks.now.model.now m
        → OfEdge marks.now.model.now place m e → Fitting (edge_of m e)
        → Ways m (regions_of found.entry) marks.now.region e at rows.new }
{
    let count = table::branch_count(marks.model.bytes, place).min(MAX_BRANCHES);
    store(rows, at + 3, count);
    for i in 0..count {
        let b = table::branch_at(marks.model.bytes, place, i);
        let q = landing_of(marks.model.bounds, marks.region, b);
        store(rows, at + 4 + 2 * i, b.weight);
        store(rows, at + 5 + 2 * i, found.number(q));
    }
}

// Stores the row of an edge.
fn list_step(marks: &mut Marks, e: usize, found: Listed, rows: &mut [u16])
    requires { 32 * e + 32 ≤ length rows.old }
    ensures same { (marks.new.model.now ≡ marks.old.model.now) × (marks.new.region ≡ marks.old.region) }
    ensures before { Before (32 * e) rows.old rows.new }
    ensures stepping { (m : Model) → Of marks.old.model.now m
        → e < length m.edges → Stepping m (regions_of found.entry) marks.old.region e rows.new }
{
    let at = ROW * e;
    let place = marks.model.place(e);
    let edge = marks.model.edge(e);
    if marks.is_available(place, edge.source) {
        store(rows, at, 1);
        store(rows, at + 1, usize::from(edge.action));
        store(rows, at + 2, edge.denominator as usize);
        list_ways(marks, place, found, at, rows);
    } else {
        store(rows, at, 0);
    }
}

// Stores the rows of all edges.
fn list_steps(model: &Prepared, r: Region, found: Listed, rows: &mut [u16])
    requires { 128 * 32 ≤ length rows.old }
    ensures { (m : Model) → Of model.now m
        → (e : ℕ) → e < length m.edges → Stepping m (regions_of found.entry) r e rows.new }
{
    let mut marks = Marks::new(model, r);
    for e in 0..model.edge_count() {
        list_step(&mut marks, e, found, rows);
    }
}

// Stores what a region reaches by delay, and its edges, and returns how many it reaches.
fn see_steps(
    model: &Prepared,
    found: Listed,
    x: usize,
    delays: &mut [u16],
    rows: &mut [u16],
) -> usize
    requires { (x < size_of found) × (size_of found < length delays.old) × (128 * 32 ≤ length rows.old) }
    ensures { (m : Model) → Of model.now m
        → (result ≡ length (delay_list m (regions_of found.entry) (region_of found.entry x)))
        × Sighted m found.entry.entries.now (size_of found.entry) x delays.old delays.new rows.new }
{
    let r = found.region(x);
    list_steps(model, r, found, rows);
    list_delays(model, found, r, delays)
}

// Whether region x is one of the first n entries, and there is room for what is said of it.
fn is_seen(n: usize, x: usize, entries: usize, delays: usize, rows: usize) -> bool
    ensures { result ≡ is_seen n x entries delays rows }
{
    n <= MAX_ENTRIES && x < n && ENTRY_BYTES * n <= entries && n < delays && 128 * ROW <= rows
}

// Looks at region x of a table that was read.
fn see_read(
    bytes: &[u8],
    shape: Shape,
    entries: &[u8],
    n: usize,
    x: usize,
    delays: &mut [u16],
    rows: &mut [u16],
) -> Option<Seen>
    ensures value { (m : Model) → Reads bytes.now shape m
        → Ok result ≡ sight_of (is_seen n x (length entries.now) (length delays.old) (length rows.old))
        entries.now n x (accepted m) }
    ensures sighted { (m : Model) → Reads bytes.now shape m
        → is_seen n x (length entries.now) (length delays.old) (length rows.old) ≡ true
        → Sighted m entries.now n x delays.old delays.new rows.new }
    ensures delays_unchanged { is_seen n x (length entries.now) (length delays.old) (length rows.old) ≡ false
        → (delays.new ≡ delays.old) × (rows.new ≡ rows.old) }
{
    if !is_seen(n, x, entries.len(), delays.len(), rows.len()) {
        return None;
    }
    let mut links = Links::new();
    link_all(entries, n, &mut links);
    let found = Listed {
        entries,
        links: &links,
    };
    let model = Prepared::new(bytes, shape);
    let location = usize::from(found.region(x).location);
    Some(Seen {
        label: table::label_at(bytes, shape, location),
        reached: see_steps(&model, found, x, delays, rows),
        edges: shape.edges,
    })
}

// Region x among the first n entries, as the model of a table has it: the numbers of what it reaches by delay in a slice, and its edges
// in rows, where it is seen; else both slices stay.
pub fn show_region(
    bytes: &[u8],
    entries: &[u8],
    n: usize,
    x: usize,
    delays: &mut [u16],
    rows: &mut [u16],
) -> Result<Option<Seen>, Refusal>
    ensures value { result ≡ sight_of (is_seen n x (length entries.now) (length delays.old) (length rows.old))
        entries.now n x (read_table bytes.now) }
    ensures sighted { (m : Model) → read_table bytes.now ≡ accepted m
        → is_seen n x (length entries.now) (length delays.old) (length rows.old) ≡ true
        → Sighted m entries.now n x delays.old delays.new rows.new }
    ensures by_index { (reason : Reason) (place : ℕ) → read_table bytes.now ≡ refusal reason place
        → (delays.new ≡ delays.old) × (rows.new ≡ rows.old) }
    ensures delays_unchanged { is_seen n x (length entries.now) (length delays.old) (length rows.old) ≡ false
        → (delays.new ≡ delays.old) × (rows.new ≡ rows.old) }
{
    let shape = table::read(bytes)?;
    Ok(see_read(bytes, shape, entries, n, x, delays, rows))
}
