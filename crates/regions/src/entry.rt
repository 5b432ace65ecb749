// Regions as entries in a slice of bytes, nine to an entry: reading one and storing one.
ghost use Rattle.std.specs.Prelude.{◌+◌, ◌*◌, ◌≤◌, ◌<◌, ◌≡◌, length};
ghost use Rattle.std.proofs.lemmas.List.Edits.{sets};
ghost use Rattle.regions.specs.Entries.{entry_bytes, max_entries, four_from, bytes_of, region_at};

use clocks::Region;

pub(crate) const ENTRY_BYTES: usize = 9;

pub(crate) const MAX_ENTRIES: usize = 4096;

// Returns four bytes from a place on, each 0 past the end.
fn four_at(entries: &[u8], at: usize) -> [u8; 4]
    requires { at < entry_bytes * max_entries }
    ensures { result ≡ four_from entries.now at }
{
    [
        slices::at(entries, at, 0),
        slices::at(entries, at + 1, 0),
        slices::at(entries, at + 2, 0),
        slices::at(entries, at + 3, 0),
    ]
}

// Returns the region at entry j, all zeros past the end.
pub(crate) fn read_entry(entries: &[u8], j: usize) -> Region
    requires { j < max_entries }
    ensures { result ≡ region_at entries.now j }
{
    let at = ENTRY_BYTES * j;
    Region {
        location: slices::at(entries, at, 0),
        whole: four_at(entries, at + 1),
        rank: four_at(entries, at + 5),
    }
}

// Stores a region at entry j.
pub(crate) fn write_entry(entries: &mut [u8], j: usize, r: Region)
    requires { entry_bytes * j + entry_bytes ≤ length entries.old }
    ensures { entries.new ≡ sets entries.old (entry_bytes * j) (bytes_of r) }
{
    let at = ENTRY_BYTES * j;
    entries[at] = r.location;
    entries[at + 1..at + 5].copy_from_slice(&r.whole);
    entries[at + 5..at + 9].copy_from_slice(&r.rank);
}
