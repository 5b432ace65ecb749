// Reading numbers out of slices: total, with 0 past the end.
ghost use Rattle.std.specs.Prelude.{ℕ, ◌<◌, ◌≤◌, ◌≡◌, get_or, set, eqb};
ghost use Rattle.comparison.specs.Held.{most_items, most_edges, open_below, is_open, Opened, told_at, open_edge};

// A number of two bytes.
pub fn at16(list: &[u16], i: usize) -> usize
    ensures { (result ≡ get_or list.now i 0) × (result < 65536) }
{
    if i < list.len() { wide(list[i]) } else { 0 }
}

fn wide(x: u16) -> usize
    ensures { (result ≡ x) × (result < 65536) }
{
    x as usize
}

// A number of a block list.
pub fn at64(list: &[u64], i: usize) -> u64
    ensures { result ≡ get_or list.now i 0 }
{
    if i < list.len() { list[i] } else { 0 }
}

// Stores a number, where the list has room for it.
pub(crate) fn put64(i: usize, number: u64, list: &mut [u64])
    ensures { list.new ≡ set list.old i number }
{
    if i < list.len() {
        list[i] = number;
    }
}

// A number of a list as a place.
pub fn index_at(list: &[u64], i: usize) -> usize
    ensures { result ≡ get_or list.now i 0 }
{
    at64(list, i) as usize
}

// Is a flag set?
pub fn is_set(flags: &[u8], i: usize) -> bool
    ensures { result ≡ eqb (get_or flags.now i 0) 1 }
{
    if i < flags.len() {
        is_one(flags[i])
    } else {
        false
    }
}

// Is a flag clear? One past the end is.
pub fn is_clear(flags: &[u8], i: usize) -> bool
    ensures { result ≡ eqb (get_or flags.now i 0) 0 }
{
    if i < flags.len() {
        is_zero(flags[i])
    } else {
        true
    }
}

fn is_zero(x: u8) -> bool
    ensures { result ≡ eqb x 0 }
{
    x == 0
}

fn is_one(x: u8) -> bool
    ensures { result ≡ eqb x 1 }
{
    x == 1
}

// A number of one byte.
pub(crate) fn byte_at(list: &[u8], i: usize) -> usize
    ensures { result ≡ get_or list.now i 0 }
{
    if i < list.len() { list[i] as usize } else { 0 }
}
