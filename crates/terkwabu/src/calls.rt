// The exported calls. The contract of each is its record in specs/Calls.antt.
ghost use Rattle.terkwabu.specs.Calls.{GraphCall, PlaceCall, ReduceCall, PairCall, JudgeCall, PartCall, LineCall};

use crate::answer::Answer;

// The graph call: explores the regions of a table into the lent entries. The value is N.
#[unsafe(no_mangle)]
pub extern "C" fn terkwabu_graph(table: &[u8], entries: &mut [u8]) -> Answer
    ensures { GraphCall table.now entries.old result entries.new }
{
    regions::explore_table(table, entries).into()
}

// The state call: explores the regions of a table into the lent entries, and finds the region of a state, at a location, with four
// values over a denominator. The value is the region's number.
#[unsafe(no_mangle)]
pub extern "C" fn terkwabu_place(
    table: &[u8],
    entries: &mut [u8],
    location: u64,
    v0: u64,
    v1: u64,
    v2: u64,
    v3: u64,
    denominator: u64,
) -> Answer
    ensures { PlaceCall table.now entries.old location v0 v1 v2 v3 denominator result entries.new }
{
    let place = states::place_state(table, entries, location, v0, v1, v2, v3, denominator);
    place.into()
}

// The partition call: the blocks of a table's regions, in both lists. The value is N.
#[unsafe(no_mangle)]
pub extern "C" fn terkwabu_reduce(
    table: &[u8],
    entries: &mut [u8],
    first: &mut [u64],
    second: &mut [u64],
) -> Answer
    ensures { ReduceCall table.now entries.old first.old second.old result
        entries.new first.new second.new }
{
    partition::reduce_table(table, entries, first, second).into()
}

// The pair call: whether two regions share a block; the blocks in both lists. The value is 1 where they do, 0 where not.
#[unsafe(no_mangle)]
pub extern "C" fn terkwabu_pair(
    table: &[u8],
    entries: &mut [u8],
    first: &mut [u64],
    second: &mut [u64],
    r: u64,
    s: u64,
) -> Answer
    ensures { PairCall table.now entries.old first.old second.old r s result
        entries.new first.new second.new }
{
    partition::pair_table(table, entries, first, second, r, s).into()
}

// The judging call: is a proposed partition a bisimulation? The value is 1 where it is accepted.
#[unsafe(no_mangle)]
pub extern "C" fn terkwabu_judge(table: &[u8], entries: &mut [u8], proposal: &[u64]) -> Answer
    ensures { JudgeCall table.now entries.old proposal.now result entries.new }
{
    partition::judge_table(table, entries, proposal).into()
}

// The part call: a part of the listing of a table, from what a partition call left, in a buffer. The value is how many bytes were written.
// Where it is 0 nothing was: a place that is not 0, without a refusal, is how many bytes the part takes; else there is no such part.
#[unsafe(no_mangle)]
pub extern "C" fn terkwabu_part(
    table: &[u8],
    entries: &[u8],
    list: &[u64],
    regions: u64,
    blocks: u64,
    rounds: u64,
    part: u64,
    buffer: &mut [u8],
) -> Answer
    ensures { PartCall table.now entries.now list.now regions blocks rounds part
        buffer.old result buffer.new }
{
    listing::write_part(table, entries, list, regions, blocks, rounds, part, buffer).into()
}

// The line of a refusal, in a buffer. The value is how many bytes were written; where it is 0, the place is how many the line takes.
#[unsafe(no_mangle)]
pub extern "C" fn terkwabu_refusal_line(number: u64, place: u64, buffer: &mut [u8]) -> Answer
    ensures { LineCall number place buffer.old result buffer.new }
{
    listing::refusal_line(number, place, buffer).into()
}
