// Clock classes: an index by buckets, and the class after each reset, noted both ways, and after a delay.
ghost use Rattle.std.specs.Prelude.{ℕ, ◌<◌, ◌≡◌};
ghost use Rattle.graph.specs.Readers.{reset_class, delay_class, class_head, class_link, reset_number, reset_source, reset_mask};
ghost use Rattle.graph.specs.Readers.{source_head, source_link};
ghost use Rattle.graph.specs.Writers.{with_class, with_class_delay, with_source, with_reset};

use crate::columns::{
    CLASS_DELAYS, CLASS_HEADS, CLASS_LINKS, NOTHING, RESETS, SOURCE_HEADS, SOURCE_LINKS,
};

// Returns the last clock class of a bucket.
#[tactic(auto, unfolding(crate::specs::Readers::class_head))]
pub fn class_head(graph: &[u16], bucket: usize) -> usize
    ensures { (result ≡ class_head graph.now bucket) × (result < 65536) }
{
    CLASS_HEADS.get(graph, bucket)
}

// Returns the clock class before one in its bucket.
#[tactic(auto, unfolding(crate::specs::Readers::class_link))]
pub fn class_link(graph: &[u16], class: usize) -> usize
    ensures { (result ≡ class_link graph.now class) × (result < 65536) }
{
    CLASS_LINKS.get(graph, class)
}

// Returns the clock class after the reset of a mask.
#[tactic(auto, unfolding(crate::specs::Readers::reset_class))]
pub fn reset_class(graph: &[u16], class: usize, mask: usize) -> usize
    ensures { (result ≡ reset_class graph.now class mask) × (result < 65536) }
{
    RESETS.get(graph, 16 * (class % 4096) + mask % 16)
}

// Returns the clock class after a delay.
#[tactic(auto, unfolding(crate::specs::Readers::delay_class))]
pub fn delay_class(graph: &[u16], class: usize) -> usize
    ensures { (result ≡ delay_class graph.now class) × (result < 65536) }
{
    CLASS_DELAYS.get(graph, class)
}

// Returns the reset of a class by a mask from 1 to 15 as one number.
#[tactic(auto, unfolding(crate::specs::Readers::reset_number))]
pub fn reset_number(class: usize, mask: usize) -> usize
    ensures { (result ≡ reset_number class mask) × (result < 61440) }
{
    4096 * (mask.saturating_sub(1) % 15) + class % 4096
}

// Returns the clock class of a reset.
#[tactic(auto, unfolding(crate::specs::Readers::reset_source))]
pub fn reset_source(reset: usize) -> usize
    ensures { (result ≡ reset_source reset) × (result < 4096) }
{
    reset % 4096
}

// Returns the mask of a reset.
#[tactic(auto, unfolding(crate::specs::Readers::reset_mask))]
pub fn reset_mask(reset: usize) -> usize
    ensures { (result ≡ reset_mask reset) × (result < 16) }
{
    reset / 4096 % 15 + 1
}

// Returns the last reset that leads to a class.
#[tactic(auto, unfolding(crate::specs::Readers::source_head))]
pub fn source_head(graph: &[u16], class: usize) -> usize
    ensures { (result ≡ source_head graph.now class) × (result < 65536) }
{
    SOURCE_HEADS.get(graph, class)
}

// Returns the reset before one among those that lead to its class.
#[tactic(auto, unfolding(crate::specs::Readers::source_link))]
pub fn source_link(graph: &[u16], reset: usize) -> usize
    ensures { (result ≡ source_link graph.now reset) × (result < 65536) }
{
    SOURCE_LINKS.get(graph, reset)
}

// Stores a clock class; it is now the last of its bucket.
#[tactic(auto, unfolding(crate::specs::Writers::with_class))]
pub fn store_class(bucket: usize, class: usize, graph: &mut [u16])
    ensures { graph.new ≡ with_class graph.old bucket class }
{
    let head = class_head(graph, bucket);
    CLASS_LINKS.set(class, head, graph);
    CLASS_HEADS.set(bucket, class, graph);
}

// Stores the clock class after a delay.
#[tactic(auto, unfolding(crate::specs::Writers::with_class_delay))]
pub fn store_class_delay(class: usize, after: usize, graph: &mut [u16])
    ensures { graph.new ≡ with_class_delay graph.old class after }
{
    CLASS_DELAYS.set(class, after, graph);
}

// Notes a reset backwards; it is now the last that leads to its class.
#[tactic(auto, unfolding(crate::specs::Writers::with_source))]
fn store_source(class: usize, mask: usize, after: usize, graph: &mut [u16])
    ensures { graph.new ≡ with_source graph.old class mask after }
{
    let reset = reset_number(class, mask);
    let head = source_head(graph, after);
    SOURCE_LINKS.set(reset, head, graph);
    SOURCE_HEADS.set(after, reset, graph);
}

// Notes the clock class after a reset both ways, unless it is known. (A reset noted twice would make a cycle of links. A class is below
// 4,096: with 65,535 the reset stays unknown, and is noted backwards all the same.)
pub fn store_reset(class: usize, mask: usize, after: usize, graph: &mut [u16])
    ensures { graph.new ≡ with_reset graph.old class mask after }
{
    if reset_class(graph, class, mask) != NOTHING {
        return;
    }
    RESETS.set(16 * (class % 4096) + mask % 16, after, graph);
    if mask % 16 != 0 {
        store_source(class, mask % 16, after, graph);
    }
}
