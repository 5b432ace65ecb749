// The totals: counts of labels, and the lines over them.
#![tactic(auto, using(text::specs::Laws::Writer::writing))]

ghost use Rattle.std.specs.Prelude.{length};
ghost use Rattle.text.specs.Writing.{Puts};
ghost use Rattle.totals.specs.Totals.{counts_text, label_line, all_line, total_lines};
ghost use Rattle.totals.specs.Counts.{LabelCounts, counted_lines};

use text::Writer;

const LINE_FEED: u8 = b'\n';

const LABELS: usize = 256;

// Counts each label: number L of the counts is how many of the labels are L.
fn count_labels(labels: &[u8]) -> [u64; LABELS]
    ensures { LabelCounts labels.now result }
{
    let mut counts = [0; LABELS];
    for label in labels {
        counts[usize::from(*label)] += 1;
    }
    counts
}

// Puts the two counts of a line, and its line feed.
fn put_counts(regions: u64, blocks: u64, text: &mut Writer)
    ensures { Puts text.old text.new (counts_text regions blocks) }
{
    text.put_named(b" regions", regions);
    text.put_named(b" blocks", blocks);
    text.put(LINE_FEED);
}

// Puts the line of a label.
fn put_label(label: u64, regions: u64, blocks: u64, text: &mut Writer)
    ensures { Puts text.old text.new (label_line (record { label = label; regions = regions; blocks = blocks })) }
{
    text.put_named(b"label", label);
    put_counts(regions, blocks, text);
}

// Puts the line of all labels.
fn put_all(regions: u64, blocks: u64, text: &mut Writer)
    ensures { Puts text.old text.new (all_line regions blocks) }
{
    text.put_word(b"all");
    put_counts(regions, blocks, text);
}

// Puts a line for each label that some region bears.
fn put_labels(regions: &[u64; LABELS], blocks: &[u64; LABELS], text: &mut Writer)
    ensures { Puts text.old text.new (counted_lines regions.now blocks.now (length regions.now)) }
{
    for (label, count) in regions.iter().enumerate() {
        if 0 < *count {
            put_label(label as u64, *count, blocks[label], text);
        }
    }
}

// Puts the totals, of the labels of all regions and those of all blocks.
pub fn put_totals(regions: &[u8], blocks: &[u8], text: &mut Writer)
    ensures { Puts text.old text.new (total_lines regions.now blocks.now) }
{
    let of_regions = count_labels(regions);
    let of_blocks = count_labels(blocks);
    put_labels(&of_regions, &of_blocks, text);
    put_all(regions.len() as u64, blocks.len() as u64, text);
}
