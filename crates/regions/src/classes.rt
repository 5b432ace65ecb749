// Sets of clocks by number: a list of entries of their own, as regions at location 0. Where a branch leads is found by the set of
// clocks after its reset, and its location. Only masks that the model uses are looked up, since each costs a reset of every region.
ghost use Rattle.std.specs.Prelude.{ℕ, ◌+◌, ◌*◌, ◌≤◌, ◌<◌, ◌≡◌, true, false, length, get_or};
ghost use Rattle.regions.specs.Entries.{max_entries};
ghost use Rattle.regions.specs.Explore.{SameSlice, region_of, size_of};
ghost use Rattle.regions.specs.Filling.{Run, Blocks, Before, Still, RowFlagged, Flagged};
ghost use Rattle.regions.specs.Filling.{bare, Distinct, Classed, Grouped, Numbers, Targeted};

use crate::index::{Links, Listed, Listing};
use clocks::{Bounds, Region};

// Returns the clocks of a region, at location 0.
fn bare_of(r: Region) -> Region
    ensures { result ≡ bare r }
{
    Region { location: 0, ..r }
}

// Returns the number of a set of clocks, which is put into the list where it is new.
fn group_of(q: Region, sets: &mut Listing) -> usize
    requires { sets.old.links.count < sets.old.cap }
    ensures slice { SameSlice sets.old sets.new }
    ensures cap { sets.new.cap ≡ sets.old.cap }
    ensures classed { Classed q sets.old.entries.now sets.old.links.count sets.new.entries.now sets.new.links.count result }
{
    if let Some(j) = sets.listed().find(q) {
        return j;
    }
    sets.add(q);
    sets.links.count - 1
}

// Lists the sets of clocks of the regions, and stores the regions by set and location.
fn list_sets(found: Listed, sets: &mut Listing, spots: &mut [u16])
    requires { (sets.old.links.count ≡ 0) × (sets.old.cap ≡ max_entries) × (4096 * 64 ≤ length spots.old) }
    ensures slice { SameSlice sets.old sets.new }
    ensures grouped { Grouped found.entry.entries.now (size_of found.entry) (size_of found.entry)
        sets.new.entries.now sets.new.links.count spots.new }
{
    for x in 0..found.count() {
        let r = found.region(x);
        let at = group_of(bare_of(r), sets);
        slices::put(spots, 64 * at + usize::from(r.location), x as u16);
    }
}

// Returns the number of the clocks of a region after a reset, and 0 where they are not in the list.
fn reset_number(bounds: Bounds, r: Region, mask: u8, sets: Listed) -> usize
    ensures upper_bound { result ≤ max_entries }
    ensures numbers { Numbers bounds r sets.entry.entries.now (size_of sets.entry) mask result }
{
    sets.find(bare_of(r.reset(bounds, mask))).unwrap_or(0)
}

// Flags the masks of the branches of an edge, by its row.
fn flag_row(rows: &[u16], at: usize, used: &mut [bool])
    requires { at ≤ 128 * 32 }
    ensures still { Still used.old used.new }
    ensures row_flagged { RowFlagged rows.now at (get_or rows.now (at + 2) 0) used.new }
{
    for i in 0..usize::from(slices::at(rows, at + 2, 0)) {
        let mask = usize::from(slices::at(rows, at + 4 + 3 * i, 0));
        slices::put(used, mask, true);
    }
}

// Flags the masks in use: those of all branches, and 0, under which the layer above finds the clocks of a region as they are.
fn flag_masks(rows: &[u16], edges: usize, used: &mut [bool])
    requires { (edges ≤ 128) × (length used.old ≡ 16) }
    ensures { Flagged rows.now edges used.new }
{
    used[0] = true;
    for e in 0..edges {
        flag_row(rows, 32 * e, used);
    }
}

// Stores these numbers for the masks in use, from a place on.
fn number_masks(
    bounds: Bounds,
    r: Region,
    sets: Listed,
    used: &[bool; 16],
    base: usize,
    resets: &mut [u16],
)
    requires { base + 16 ≤ length resets.old }
    ensures before { Before base resets.old resets.new }
    ensures run { Run base 16
        (λ mask v. get_or used.now mask false ≡ true → Numbers bounds r sets.entry.entries.now (size_of sets.entry) mask v)
        resets.new }
{
    for mask in 0..16u8 {
        let k = usize::from(mask);
        if used[k] {
            resets[base + k] = reset_number(bounds, r, mask, sets) as u16;
        }
    }
}

// Stores these numbers for each region.
fn show_resets(bounds: Bounds, found: Listed, sets: Listed, used: &[bool; 16], resets: &mut [u16])
    requires { 4096 * 16 ≤ length resets.old }
    ensures { Blocks 16 16 (size_of found.entry) (λ x mask v. get_or used.now mask false ≡ true
        → Numbers bounds (region_of found.entry x) sets.entry.entries.now (size_of sets.entry) mask v) resets.new }
{
    for x in 0..found.count() {
        number_masks(bounds, found.region(x), sets, used, 16 * x, resets);
    }
}

// Stores where branches lead from each region.
pub(crate) fn show_targets(
    bounds: Bounds,
    found: Listed,
    rows: &[u16],
    edges: usize,
    resets: &mut [u16],
    spots: &mut [u16],
)
    requires { (4096 * 16 ≤ length resets.old) × (4096 * 64 ≤ length spots.old) × (edges ≤ 128) }
    ensures { Distinct found.entry.entries.now (size_of found.entry)
        → Targeted found.entry.entries.now (size_of found.entry) bounds rows.now edges resets.new spots.new }
{
    let mut entries = [0; 36864];
    let mut sets = Listing {
        entries: &mut entries,
        links: Links::new(),
        cap: 4096,
    };
    list_sets(found, &mut sets, spots);
    let mut used = [false; 16];
    flag_masks(rows, edges, &mut used);
    show_resets(bounds, found, sets.listed(), &used, resets);
}
