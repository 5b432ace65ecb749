// Signatures of the items of a list.
ghost use Rattle.std.specs.Prelude.{◌≡◌, true, false};
ghost use Rattle.signatures.specs.Dictionary.{Tells};
ghost use Rattle.signatures.specs.Named.{Passed, Roomy};

use crate::pass::Pass;

// The sizes of the work memory of a pass.
pub const INDEX: usize = 24578;

pub const NUMBERS: usize = 36864;

pub const MEMO: usize = 45056;

// Tells whether the slices have the sizes that a pass asks for.
fn is_roomy(names: &[u16], index: &[u16], numbers: &[u32], memo: &[u16], items: &[u16]) -> bool
    ensures { Tells result (Roomy names.now index.now numbers.now memo.now items.now) }
{
    names.len() <= 8192
        && items.len() <= 4096
        && index.len() == INDEX
        && numbers.len() == NUMBERS
        && memo.len() == MEMO
}

// Gives each item of a list the id of its signature over names, or 65,535. Which items get 65,535 is unspecified, but the first always gets
// an id (`pass-first`). In a closed structure, with items below the count and right ways along the delays, ids are equal exactly for items
// that the next round relates (`pass-tells`), and an item without an id is related to none that has one (`pass-apart`).
//
// names has two halves: the names of the items, and for each item where to go on along its delays. index, numbers and memo are work memory
// of INDEX, NUMBERS and MEMO numbers. Their contents do not matter; afterwards they are unspecified. If they have other sizes, or the list
// has more than 4,096 items, or names more than 8,192 numbers, the answer is false and all that was lent stays as it is. Otherwise the
// answer is true.
#[tactic(auto, unfolding(crate::specs::Named::items_in))]
pub fn sign(
    graph: &[u16],
    edges: &[u32],
    names: &[u16],
    index: &mut [u16],
    numbers: &mut [u32],
    memo: &mut [u16],
    items: &mut [u16],
) -> bool
    ensures tells { Tells result (Roomy names.now index.old numbers.old memo.old
        items.old) }
    ensures passed { (result ≡ true → Passed graph.now edges.now names.now items.old
        items.new)
        × (result ≡ false → (items.new ≡ items.old) × (index.new ≡ index.old)
        × (numbers.new ≡ numbers.old) × (memo.new ≡ memo.old)) }
{
    if !is_roomy(names, index, numbers, memo, items) {
        return false;
    }
    let mut pass = Pass::new(graph, edges, names, index, numbers, memo);
    pass.sign_all(items);
    true
}
