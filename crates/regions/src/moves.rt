// Labels, delay regions and available edges of the regions of a graph, stored in slices.
ghost use Rattle.std.specs.Prelude.{ℕ, suc, ◌+◌, ◌*◌, ◌≤◌, ◌<◌, ◌≡◌, get_or, length, replicate};
ghost use Rattle.table.specs.Model.{Model};
ghost use Rattle.table.specs.Reads.{edge_of};
ghost use Rattle.regions.specs.Of.{Of, OfEdge};
ghost use Rattle.regions.specs.Graph.{available};
ghost use Rattle.regions.specs.Entries.{entry_bytes, max_entries};
ghost use Rattle.regions.specs.Index.{Indexed};
ghost use Rattle.regions.specs.Explore.{regions_of, region_of, size_of};
ghost use Rattle.regions.specs.View.{label_of, delay_numbers};
ghost use Rattle.regions.specs.Shown.{followers, open_below};
ghost use Rattle.regions.specs.Filling.{Run, Blocks, Before};
ghost use Rattle.regions.specs.Order.{AllRegions};

use crate::entry::read_entry;
use crate::index::{Links, Listed};
use crate::marks::Marks;
use crate::prepared::Prepared;
use clocks::Region;

// Links the first n entries, with an index of none. (The index is lent, since one that is returned would stand on the stack twice.)
pub(crate) fn link_all(entries: &[u8], n: usize, links: &mut Links)
    requires entries { (n ≤ max_entries) × (entry_bytes * n ≤ length entries.now) }
    requires none { (links.old.heads ≡ replicate 4096 0) × (links.old.count ≡ 0) }
    ensures { Indexed entries.now links.new × (links.new.count ≡ n) }
{
    for x in 0..n {
        links.push(read_entry(entries, x));
    }
}

// Stores the label of each region.
pub(crate) fn show_labels(model: &Prepared, found: Listed, labels: &mut [u16])
    requires { size_of found ≤ length labels.old }
    ensures { (m : Model) → Of model.now m
        → (x : ℕ) → x < size_of found.entry → get_or labels.new x 0 ≡ label_of m (region_of found.entry x) }
{
    for x in 0..found.count() {
        let location = usize::from(found.region(x).location);
        labels[x] = u16::from(table::label_at(model.bytes, model.shape, location));
    }
}

// Returns the number of a region's delay region, and how many regions there are where it has none.
fn delay_number(model: &Prepared, found: Listed, r: Region) -> usize
    ensures upper_bound { result ≤ size_of found.entry }
    ensures r_value { (m : Model) (x : ℕ) → Of model.now m
        → AllRegions m (regions_of found.entry)
        → x < size_of found.entry → r ≡ region_of found.entry x
        → delay_numbers m (regions_of found.entry) r
        ≡ followers (size_of found.entry) result }
{
    let Some(q) = model.follower(r) else {
        return found.count();
    };
    found.find(q).unwrap_or(found.count())
}

// Stores the delay region of each region.
pub(crate) fn show_nexts(model: &Prepared, found: Listed, nexts: &mut [u16])
    requires { size_of found ≤ length nexts.old }
    ensures { (m : Model) → Of model.now m
        → AllRegions m (regions_of found.entry)
        → (x : ℕ) → x < size_of found.entry
        → delay_numbers m (regions_of found.entry) (region_of found.entry x)
        ≡ followers (size_of found.entry) (get_or nexts.new x 0) }
{
    for x in 0..found.count() {
        nexts[x] = delay_number(model, found, found.region(x)) as u16;
    }
}

// Returns the number after an edge with the region's location as its source, where it is available, and `last` where it is not.
fn open_after(marks: &mut Marks, place: usize, e: usize, last: u8) -> u8
    requires { e < 128 }
    ensures same { (marks.new.model.now ≡ marks.old.model.now) × (marks.new.region ≡ marks.old.region) }
    ensures value { (m : Model) → Of marks.old.model.now m
        → OfEdge marks.old.model.now place m e → marks.old.region.location ≡ (edge_of m e).source
        → last ≡ open_below (λ f. available m (edge_of m f) marks.old.region) e
        → result ≡ open_below (λ f. available m (edge_of m f) marks.old.region) (suc e) }
{
    if marks.is_available(place, marks.region.location) {
        e as u8 + 1
    } else {
        last
    }
}

// Stores the available edges of a region, from a place on: at each edge the number after the last one up to and with it. (Most edges
// start at another location: these are passed at once.)
fn mark_edges(model: &Prepared, r: Region, base: usize, flags: &mut [u8])
    requires { base + 128 ≤ length flags.old }
    ensures before { Before base flags.old flags.new }
    ensures run { (m : Model) → Of model.now m
        → Run base (length m.edges) (λ e v. v ≡ open_below (λ f. available m (edge_of m f) r) (suc e)) flags.new }
{
    let mut marks = Marks::new(model, r);
    let mut last = 0;
    let mut link = model.first_link(r.location);
    for e in 0..model.edge_count() {
        if link == e + 1 {
            last = open_after(&mut marks, model.place(e), e, last);
            link = model.next_link(e);
        }
        flags[base + e] = last;
    }
}

// Stores the available edges of each region.
pub(crate) fn show_flags(model: &Prepared, found: Listed, flags: &mut [u8])
    requires { 4096 * 128 ≤ length flags.old }
    ensures { (m : Model) → Of model.now m
        → Blocks 128 (length m.edges) (size_of found.entry)
        (λ x e v. v ≡ open_below (λ f. available m (edge_of m f) (region_of found.entry x)) (suc e)) flags.new }
{
    for x in 0..found.count() {
        mark_edges(model, found.region(x), 128 * x, flags);
    }
}
