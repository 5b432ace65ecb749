// The delay line and the step lines of a block, from the slices of its lowest region.
#![tactic(auto, using(text::specs::Laws::Writer::writing))]

ghost use Rattle.std.specs.Prelude.{ℕ, ◌+◌, ◌*◌, ◌≤◌, ◌<◌, ◌≡◌, length, get_or};
ghost use Rattle.text.specs.Text.{each, field, up_to};
ghost use Rattle.text.specs.Writing.{Puts};
ghost use Rattle.rounding.specs.Rounding.{ten_thousandths};
ghost use Rattle.listing.specs.Printed.{other_blocks, delay_line_of, weight_into};
ghost use Rattle.listing.specs.Printed.{share_field, shares_of, targets_of, step_line};
ghost use Rattle.listing.specs.Slices.{branches_from, branches_at, step_at, step_text_at};

use crate::blocks::Blocks;
use crate::lines::LINE_FEED;
use std::cmp::Ordering;
use text::Writer;

const COLON: u8 = b':';

const ROW: usize = 32;

// The fields of the other blocks reached.
fn put_others(blocks: Blocks, own: u64, reached: &[u16], text: &mut Writer)
    requires { own < blocks.count }
    ensures { Puts text.old text.new (each field (other_blocks blocks.entry.list.now blocks.entry.count own reached.now)) }
{
    let mut next = blocks.next_other(reached, own, 0);
    while let Some(c) = next {
        text.put_field(c);
        next = blocks.next_other(reached, own, c + 1);
    }
}

// The delay line of a block, where its lowest region reaches others.
pub(crate) fn put_delay(blocks: Blocks, own: u64, reached: &[u16], text: &mut Writer)
    requires { own < blocks.count }
    ensures { Puts text.old text.new (delay_line_of own (other_blocks blocks.entry.list.now blocks.entry.count own reached.now)) }
{
    if blocks.next_other(reached, own, 0).is_some() {
        text.put_named(b"delay", own);
        put_others(blocks, own, reached, text);
        text.put(LINE_FEED);
    }
}

// A share in ten-thousandths: the nearest, an exact half to the even one; 0 where the denominator is.
fn ten_thousandths(weight: u64, denominator: u64) -> u64
    requires { (weight < 4294967296) × (denominator < 65536) }
    ensures { result ≡ ten_thousandths weight denominator }
{
    if denominator == 0 {
        return 0;
    }
    let down = 10000 * weight / denominator;
    let remainder = 10000 * weight % denominator;
    match (2 * remainder).cmp(&denominator) {
        Ordering::Less => down,
        Ordering::Equal => down + down % 2,
        Ordering::Greater => down + 1,
    }
}

// An available edge in its row: its action, its denominator, how many branches it has, and of each its weight and its target.
#[derive(Clone, Copy)]
struct Edge<'a> {
    rows: &'a [u16],
    number: usize,
    ghost in_rows: { number < 128 },
    ghost few_branches: { get_or rows.now (32 * number + 3) 0 ≤ 8 },
}

impl Edge<'_> {
    fn get(self, i: usize) -> u16
        requires { i < 32 }
        ensures { result ≡ get_or self.entry.rows.now (32 * self.entry.number + i) 0 }
    {
        slices::at(self.rows, ROW * self.number + i, 0)
    }

    fn action(self) -> u16
        ensures { result ≡ get_or self.entry.rows.now (32 * self.entry.number + 1) 0 }
    {
        self.get(1)
    }

    fn denominator(self) -> u16
        ensures { result ≡ get_or self.entry.rows.now (32 * self.entry.number + 2) 0 }
    {
        self.get(2)
    }

    // How many branches there are.
    fn branches(self) -> usize
        ensures value { result ≡ get_or self.entry.rows.now (32 * self.entry.number + 3) 0 }
        ensures few { result ≤ 8 }
    {
        usize::from(self.get(3))
    }

    fn weight(self, i: usize) -> u16
        requires { i < 8 }
        ensures { result ≡ get_or self.entry.rows.now (32 * self.entry.number + 4 + 2 * i) 0 }
    {
        self.get(4 + 2 * i)
    }

    fn target(self, i: usize) -> u16
        requires { i < 8 }
        ensures { result ≡ get_or self.entry.rows.now (32 * self.entry.number + 4 + 2 * i + 1) 0 }
    {
        self.get(4 + 2 * i + 1)
    }

    // Stores the targets of as many branches as the slice is long.
    fn list_targets(self, targets: &mut [u16])
        requires { length targets.old ≤ 8 }
        ensures { targets.new ≡ targets_of (branches_from self.entry.rows.now (32 * self.entry.number + 4) (length targets.old)) }
    {
        for (i, target) in targets.iter_mut().enumerate() {
            *target = self.target(i);
        }
    }

    // The weight of the branches that land in a block.
    fn weight_into(self, blocks: Blocks, c: u64) -> u64
        ensures value { result ≡ weight_into blocks.entry.list.now c (branches_at self.entry.rows.now self.entry.number) }
        ensures most { result < 4294967296 }
    {
        let mut total = 0;
        for i in 0..self.branches() {
            if blocks.of(usize::from(self.target(i))) == c {
                total += u64::from(self.weight(i));
            }
        }
        total
    }
}

// A block landed in, and its share.
fn put_share(c: u64, weight: u64, denominator: u64, text: &mut Writer)
    requires { (weight < 4294967296) × (denominator < 65536) }
    ensures { Puts text.old text.new (share_field (record { block = c; weight = weight; denominator = denominator })) }
{
    text.put_field(c);
    text.put(COLON);
    text.put_number(ten_thousandths(weight, denominator));
}

// The fields of the blocks landed in; the slice has the targets of all branches.
fn put_shares(blocks: Blocks, edge: Edge, targets: &[u16], text: &mut Writer)
    requires { targets.now ≡ targets_of (branches_at edge.rows.now edge.number) }
    ensures { Puts text.old text.new (each share_field (shares_of blocks.entry.list.now blocks.entry.count
        (get_or edge.entry.rows.now (32 * edge.entry.number + 2) 0) (branches_at edge.entry.rows.now edge.entry.number))) }
{
    let mut next = blocks.next_of(targets, 0);
    while let Some(c) = next {
        put_share(
            c,
            edge.weight_into(blocks, c),
            u64::from(edge.denominator()),
            text,
        );
        next = blocks.next_of(targets, c + 1);
    }
}

// The line of a step.
fn put_step(blocks: Blocks, own: u64, edge: Edge, text: &mut Writer)
    ensures { Puts text.old text.new
        (step_line own (step_at blocks.entry.list.now edge.entry.rows.now blocks.entry.count edge.entry.number)) }
{
    let mut room = [0; 8];
    let targets = &mut room[..edge.branches()];
    edge.list_targets(targets);
    text.put_named(b"step", own);
    text.put_field(u64::from(edge.action()));
    put_shares(blocks, edge, targets, text);
    text.put(LINE_FEED);
}

// The step lines of all edges that are available.
pub(crate) fn put_steps(blocks: Blocks, own: u64, rows: &[u16], edges: usize, text: &mut Writer)
    requires few { edges ≤ 128 }
    requires few_branches { (e : ℕ) → e < edges → get_or rows.now (32 * e) 0 ≡ 1 → get_or rows.now (32 * e + 3) 0 ≤ 8 }
    ensures { Puts text.old text.new (up_to (step_text_at blocks.entry.list.now rows.now blocks.entry.count own) edges) }
{
    for number in 0..edges {
        if slices::at(rows, ROW * number, 0) == 1 {
            put_step(blocks, own, Edge { rows, number }, text);
        }
    }
}
