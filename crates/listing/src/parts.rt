// The parts of the listing, and the line of a refusal.
ghost use Rattle.std.specs.Prelude.{ℕ, ◌*◌, ◌+◌, ◌≤◌, ◌<◌, ◌≡◌, [], ◌++◌, length, get_or, drop};
ghost use Rattle.partition.specs.Passed.{Model, read_table, accepted, listed};
ghost use Rattle.partition.specs.Instances.{graph};
ghost use Rattle.partition.specs.View.{entry_in};
ghost use Rattle.text.specs.Text.{up_to};
ghost use Rattle.totals.specs.Totals.{total_lines};
ghost use Rattle.listing.specs.Printed.{first_line, region_line, block_line, delay_line_of, other_blocks, refusal_line};
ghost use Rattle.listing.specs.Printed.{record_of, region_record, block_record, block_lines, size_below};
ghost use Rattle.listing.specs.Printed.{region_records, block_records, totals_text};
ghost use Rattle.listing.specs.Labels.{block_labels};
ghost use Rattle.listing.specs.Slices.{step_text_at};
ghost use Rattle.listing.specs.Parts.{line_part, part_text, is_borne, fitted, buffer_after, Gives, Parted};

use crate::blocks::Blocks;
use crate::labels::{label_blocks, label_regions};
use crate::lines::{put_block, put_first, put_refusal, put_region};
use crate::steps::{put_delay, put_steps};
use partition::Refusal;
use std::cmp::Ordering;
use text::Writer;

const MOST_REGIONS: u64 = 4096;

const ENTRY_BYTES: u64 = 9;

// The answer of a part call: the part is written, so many bytes; the buffer is too short for it, and so many bytes would do; or there is no
// such part, or the counts cannot be those of what is lent.
#[derive(Clone, Copy, Debug, PartialEq, Eq)]
pub enum Part {
    Written(usize),
    Short(usize),
    End,
}

// Copies a text to the front of a buffer byte by byte: the archive for C then asks for no `memmove`.
fn copy(text: &[u8], buffer: &mut [u8])
    requires { length text.now ≤ length buffer.old }
    ensures { buffer.new ≡ text.now ++ drop (length text.now) buffer.old }
{
    for (i, byte) in text.iter().enumerate() {
        buffer[i] = *byte;
    }
}

// Puts a text into a buffer, where it fits, and says so.
fn deliver(text: &[u8], buffer: &mut [u8]) -> Part
    ensures value { result ≡ fitted text.now (length buffer.old) }
    ensures buffer_after { buffer.new ≡ buffer_after text.now buffer.old }
{
    if text.is_empty() {
        return Part::End;
    }
    let k = text.len();
    if buffer.len() < k {
        return Part::Short(k);
    }
    copy(text, buffer);
    Part::Written(k)
}

// The line of a refusal, in a buffer. Any two numbers are taken.
pub fn refusal_line(number: u64, place: u64, buffer: &mut [u8]) -> Part
    ensures value { result ≡ fitted (refusal_line number place) (length buffer.old) }
    ensures buffer_after { buffer.new ≡ buffer_after (refusal_line number place) buffer.old }
    ensures place_len_bound { length (refusal_line number place) ≤ 128 }
{
    let mut room = [0; 128];
    let mut text = Writer::new(&mut room);
    put_refusal(number, place, &mut text);
    deliver(text.written(), buffer)
}

// The line of region x, of that block, at its entry, with so many clocks. (No label is printed there.)
fn region_text(x: usize, block: u64, clocks: u8, entries: &[u8], buffer: &mut [u8]) -> Part
    requires { clocks ≤ 4 }
    ensures { Gives (region_line (record_of x 0 block clocks (entry_in entries.now x))) buffer.old result buffer.new }
{
    let mut room = [0; 256];
    let mut text = Writer::new(&mut room);
    put_region(
        x as u64,
        block,
        clocks,
        &partition::entry_at(entries, x),
        &mut text,
    );
    deliver(text.written(), buffer)
}

// The lines of block b, whose lowest region has that label, reaches those regions by delay, and has its edges in the rows.
fn block_text(
    blocks: Blocks,
    b: u64,
    label: u8,
    reached: &[u16],
    rows: &[u16],
    edges: usize,
    buffer: &mut [u8],
) -> Part
    requires in_blocks { b < blocks.count }
    requires few { edges ≤ 128 }
    requires few_branches { (e : ℕ) → e < edges → get_or rows.now (32 * e) 0 ≡ 1 → get_or rows.now (32 * e + 3) 0 ≤ 8 }
    ensures { Gives (block_line (record {
      number = b;
      label = label;
      size = size_below blocks.entry.list.now b (length blocks.entry.list.now);
      delays = [];
      steps = [];
    })
        ++ (delay_line_of b (other_blocks blocks.entry.list.now blocks.entry.count b reached.now)
        ++ up_to (step_text_at blocks.entry.list.now rows.now blocks.entry.count b) edges))
        buffer.old result buffer.new }
{
    let mut room = [0; 65536];
    let mut text = Writer::new(&mut room);
    put_block(b, label, blocks.size_of(b), &mut text);
    put_delay(blocks, b, reached, &mut text);
    put_steps(blocks, b, rows, edges, &mut text);
    deliver(text.written(), buffer)
}

// Puts the totals into a buffer, from the labels of all regions.
fn totals_text(labels: &[u8], blocks: Blocks, buffer: &mut [u8]) -> Part
    requires { length labels.now ≡ length blocks.list.now }
    ensures { Gives (total_lines labels.now (block_labels labels.now blocks.entry.list.now blocks.entry.count))
        buffer.old result buffer.new }
{
    let mut room = [0; 4096];
    let of_blocks = &mut room[..blocks.count as usize];
    label_blocks(blocks.list, labels, of_blocks);
    let mut room = [0; 9728];
    let mut text = Writer::new(&mut room);
    totals::put_totals(labels, of_blocks, &mut text);
    deliver(text.written(), buffer)
}

// What a listing is printed from: a table that was read, of a model with so many clocks; the entries of its regions, and their blocks; and
// how many rounds there were.
#[derive(Clone, Copy)]
struct Listed<'a> {
    table: &'a [u8],
    clocks: u8,
    entries: &'a [u8],
    partition: Blocks<'a>,
    rounds: u64,
    ghost few_clocks: { clocks ≤ 4 },
    ghost entries_of_all: { 9 * length partition.list.now ≤ length entries.now },
}

impl Listed<'_> {
    // The first line.
    fn first_part(self, buffer: &mut [u8]) -> Part
        ensures { Gives (first_line (length self.entry.partition.list.now) self.entry.partition.count self.entry.rounds)
            buffer.old result buffer.new }
    {
        let mut room = [0; 128];
        let mut text = Writer::new(&mut room);
        let regions = self.partition.list.len() as u64;
        put_first(regions, self.partition.count, self.rounds, &mut text);
        deliver(text.written(), buffer)
    }

    // The line of region x.
    fn region_part(self, x: usize, buffer: &mut [u8]) -> Part
        requires { x < length self.partition.list.now }
        ensures { (m : Model) → self.entry.clocks ≡ m.clocks
            → Gives (region_line (region_record m (listed self.entry.entries.now (length self.entry.partition.list.now))
            self.entry.partition.list.now x)) buffer.old result buffer.new }
    {
        region_text(x, self.partition.of(x), self.clocks, self.entries, buffer)
    }

    // The lines of block b.
    fn block_part(self, b: u64, buffer: &mut [u8]) -> Part
        requires { b < self.partition.count }
        ensures { (m : Model) → read_table self.entry.table.now ≡ accepted m
            → Gives (block_lines (block_record (graph m (listed self.entry.entries.now (length self.entry.partition.list.now)))
            self.entry.partition.list.now self.entry.partition.count b)) buffer.old result buffer.new }
    {
        let mut delays = [0; 4097];
        let mut rows = [0; 4096];
        let regions = self.partition.list.len();
        let low = self.partition.lowest_of(b);
        let shown = partition::show_item(
            self.table,
            self.entries,
            regions,
            low,
            &mut delays,
            &mut rows,
        );
        // The table was read and the region is one of its entries, so that it is seen.
        let Ok(Some(seen)) = shown else {
            return Part::End;
        };
        block_text(
            self.partition,
            b,
            seen.label,
            &delays[..seen.reached],
            &rows,
            seen.edges,
            buffer,
        )
    }

    // The totals.
    fn totals_part(self, buffer: &mut [u8]) -> Part
        ensures { (m : Model) → read_table self.entry.table.now ≡ accepted m
            → Gives (totals_text
            (region_records m (listed self.entry.entries.now (length self.entry.partition.list.now)) self.entry.partition.list.now)
            (block_records m (listed self.entry.entries.now (length self.entry.partition.list.now)) self.entry.partition.list.now
            self.entry.partition.count)) buffer.old result buffer.new }
    {
        let mut room = [0; 4096];
        let labels = &mut room[..self.partition.list.len()];
        label_regions(self.table, self.entries, labels);
        totals_text(labels, self.partition, buffer)
    }

    // The line of region x, past the regions the lines of a block, and past the blocks the totals.
    fn line_part(self, x: u64, buffer: &mut [u8]) -> Part
        ensures { (m : Model) → read_table self.entry.table.now ≡ accepted m → self.entry.clocks ≡ m.clocks
            → Gives (line_part m (listed self.entry.entries.now (length self.entry.partition.list.now)) self.entry.partition.list.now
            self.entry.partition.count x) buffer.old result buffer.new }
    {
        let Some(b) = x.checked_sub(self.partition.list.len() as u64) else {
            return self.region_part(x as usize, buffer);
        };
        match b.cmp(&self.partition.count) {
            Ordering::Less => self.block_part(b, buffer),
            Ordering::Equal => self.totals_part(buffer),
            Ordering::Greater => Part::End,
        }
    }

    // A part.
    fn part(self, part: u64, buffer: &mut [u8]) -> Part
        ensures { (m : Model) → read_table self.entry.table.now ≡ accepted m → self.entry.clocks ≡ m.clocks
            → Gives (part_text m (listed self.entry.entries.now (length self.entry.partition.list.now)) self.entry.partition.list.now
            self.entry.partition.count self.entry.rounds part) buffer.old result buffer.new }
    {
        if part == 0 {
            self.first_part(buffer)
        } else {
            self.line_part(part - 1, buffer)
        }
    }
}

// Can the counts be those of what is lent?
fn is_borne(regions: u64, blocks: u64, entries: usize, list: usize) -> bool
    ensures { result ≡ is_borne regions blocks entries list }
{
    regions <= MOST_REGIONS
        && ENTRY_BYTES * regions <= entries as u64
        && regions <= list as u64
        && 0 < blocks
        && blocks <= regions
}

// Puts a part of the listing of a table into a buffer. The entries, the list and the counts of regions, blocks and rounds are meant to be
// those that a partition call left; any are taken.
pub fn write_part<'a>(
    bytes: &'a [u8],
    entries: &'a [u8],
    list: &'a [u64],
    regions: u64,
    blocks: u64,
    rounds: u64,
    part: u64,
    buffer: &mut [u8],
) -> Result<Part, Refusal>
    ensures { Parted bytes.now entries.now list.now regions blocks rounds part buffer.old result buffer.new }
{
    let clocks = partition::check_table(bytes)?;
    if !is_borne(regions, blocks, entries.len(), list.len()) {
        return Ok(Part::End);
    }
    let partition = Blocks {
        list: &list[..regions as usize],
        count: blocks,
    };
    let listed = Listed {
        table: bytes,
        clocks,
        entries,
        partition,
        rounds,
    };
    Ok(listed.part(part, buffer))
}
