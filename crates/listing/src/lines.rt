// The lines of the listing that need no graph: the first line, a region's, a block's first, a refusal's.
#![tactic(auto, using(text::specs::Laws::Writer::writing))]

ghost use Rattle.std.specs.Prelude.{◌≤◌, []};
ghost use Rattle.text.specs.Text.{each};
ghost use Rattle.text.specs.Writing.{Puts};
ghost use Rattle.listing.specs.Printed.{rank_text, clock_field, clocks_at, record_of, first_line, refusal_line, region_line, block_line};

use partition::Region;
use text::Writer;

pub(crate) const LINE_FEED: u8 = b'\n';

const PLUS: u8 = b'+';

const OVER: u8 = 16;

// The first line: the counts of regions, blocks and rounds.
pub(crate) fn put_first(regions: u64, blocks: u64, rounds: u64, text: &mut Writer)
    ensures { Puts text.old text.new (first_line regions blocks rounds) }
{
    text.put_named(b"regions", regions);
    text.put_named(b" blocks", blocks);
    text.put_named(b" rounds", rounds);
    text.put(LINE_FEED);
}

// A refusal's line.
pub(crate) fn put_refusal(number: u64, place: u64, text: &mut Writer)
    ensures { Puts text.old text.new (refusal_line number place) }
{
    text.put_named(b"refused", number);
    text.put_named(b" place", place);
    text.put(LINE_FEED);
}

// `+` and the rank of a clock, where it is not 0.
fn put_rank(rank: u8, text: &mut Writer)
    ensures { Puts text.old text.new (rank_text rank) }
{
    if rank != 0 {
        text.put(PLUS);
        text.put_number(u64::from(rank));
    }
}

// A clock of a region.
fn put_clock(whole: u8, rank: u8, text: &mut Writer)
    ensures { Puts text.old text.new (clock_field (record { whole = whole; rank = rank })) }
{
    if whole == OVER {
        text.put_word(b" >");
    } else {
        text.put_field(u64::from(whole));
        put_rank(rank, text);
    }
}

// The first n clocks of a region.
fn put_clocks(n: u8, region: &Region, text: &mut Writer)
    requires { n ≤ 4 }
    ensures { Puts text.old text.new (each clock_field (clocks_at n region.now)) }
{
    let clocks = region.whole.iter().zip(&region.rank);
    for (whole, rank) in clocks.take(usize::from(n)) {
        put_clock(*whole, *rank, text);
    }
}

// The line of a region. (No label is printed there.)
pub(crate) fn put_region(number: u64, block: u64, clocks: u8, region: &Region, text: &mut Writer)
    requires { clocks ≤ 4 }
    ensures { Puts text.old text.new (region_line (record_of number 0 block clocks region.now)) }
{
    text.put_named(b"region", number);
    text.put_field(u64::from(region.location));
    text.put_field(block);
    put_clocks(clocks, region, text);
    text.put(LINE_FEED);
}

// The first line of a block.
pub(crate) fn put_block(number: u64, label: u8, size: u64, text: &mut Writer)
    ensures { Puts text.old text.new
        (block_line (record { number = number; label = label; size = size; delays = []; steps = [] })) }
{
    text.put_named(b"block", number);
    text.put_field(u64::from(label));
    text.put_field(size);
    text.put(LINE_FEED);
}
