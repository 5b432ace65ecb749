// One region of the graph by itself, for the layer above.
ghost use Rattle.std.specs.Prelude.{ℕ, ◌≡◌, true, false, length};
ghost use Rattle.table.specs.declared.refusals.Reason.{Reason};
ghost use Rattle.regions.specs.Passed.{Model, read_table, refusal, accepted};
ghost use Rattle.regions.specs.Explore.{listed};
ghost use Rattle.partition.specs.Instances.{graph};
ghost use Rattle.partition.specs.View.{is_seen, showing_of, Alone};

use regions::{Refusal, Seen};

// Item x of the graph of a table, whose regions are the first n entries: the items that it reaches by delay in a slice, and its edges in
// rows, where it is seen; else both slices stay.
pub fn show_item(
    bytes: &[u8],
    entries: &[u8],
    n: usize,
    x: usize,
    delays: &mut [u16],
    rows: &mut [u16],
) -> Result<Option<Seen>, Refusal>
    ensures value { result ≡ showing_of (is_seen n x (length entries.now) (length delays.old) (length rows.old))
        entries.now n x (read_table bytes.now) }
    ensures alone { (m : Model) → read_table bytes.now ≡ accepted m
        → is_seen n x (length entries.now) (length delays.old) (length rows.old) ≡ true
        → Alone (graph m (listed entries.now n)) x delays.old delays.new rows.new }
    ensures by_index { (reason : Reason) (place : ℕ) → read_table bytes.now ≡ refusal reason place
        → (delays.new ≡ delays.old) × (rows.new ≡ rows.old) }
    ensures delays_unchanged { is_seen n x (length entries.now) (length delays.old) (length rows.old) ≡ false
        → (delays.new ≡ delays.old) × (rows.new ≡ rows.old) }
{
    regions::show_region(bytes, entries, n, x, delays, rows)
}
