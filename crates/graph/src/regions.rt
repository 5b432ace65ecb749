// What exploring finds of each region: location, clock class, what follows by delay, available edges.
ghost use Rattle.std.specs.Prelude.{ℕ, ◌%◌, ◌^◌, ◌<◌, ◌≡◌};
ghost use Rattle.std.specs.Int.Bits.{bit_or};
ghost use Rattle.graph.specs.Readers.{class_of, location_of, delay_of, available_count, available_word, bit_of, is_available};
ghost use Rattle.graph.specs.Writers.{with_location, with_delay, with_available_count, with_none_available, with_available};

use crate::columns::{AVAILABLE, AVAILABLE_COUNTS, CLASSES, DELAYS, LOCATIONS};

// Returns the clock class of a region.
#[tactic(auto, unfolding(crate::specs::Readers::class_of))]
pub fn class_of(graph: &[u16], region: usize) -> usize
    ensures { (result ≡ class_of graph.now region) × (result < 65536) }
{
    CLASSES.get(graph, region)
}

// Returns the location of a region.
#[tactic(auto, unfolding(crate::specs::Readers::location_of))]
pub fn location_of(graph: &[u16], region: usize) -> usize
    ensures { (result ≡ location_of graph.now region) × (result < 65536) }
{
    LOCATIONS.get(graph, region)
}

// Returns what follows a region by delay.
#[tactic(auto, unfolding(crate::specs::Readers::delay_of))]
pub fn delay_of(graph: &[u16], region: usize) -> usize
    ensures { (result ≡ delay_of graph.now region) × (result < 65536) }
{
    DELAYS.get(graph, region)
}

// Returns how many edges are available at a region.
#[tactic(auto, unfolding(crate::specs::Readers::available_count))]
pub fn available_count(graph: &[u16], region: usize) -> usize
    ensures { (result ≡ available_count graph.now region) × (result < 65536) }
{
    AVAILABLE_COUNTS.get(graph, region)
}

// Returns the bits of sixteen ranks.
#[tactic(auto, unfolding(crate::specs::Readers::available_word))]
pub fn available_word(graph: &[u16], region: usize, word: usize) -> usize
    ensures { (result ≡ available_word graph.now region word) × (result < 65536) }
{
    AVAILABLE.get(graph, 8 * (region % 4096) + word % 8)
}

// Is bit k of a word set? (k counts modulo 16.)
#[tactic(auto, unfolding(crate::specs::Readers::bit_of))]
pub fn bit_of(word: usize, k: usize) -> bool
    ensures { result ≡ bit_of word (k % 16) }
{
    (word >> (k % 16)) & 1 == 1
}

// Sets bit k of a word. (k counts modulo 16.)
fn set_bit(word: usize, k: usize) -> usize
    ensures { result ≡ bit_or word (2 ^ (k % 16)) }
{
    word | (1 << (k % 16))
}

// Is the edge of a rank available at a region?
#[tactic(auto, unfolding(crate::specs::Readers::is_available))]
pub fn is_available(graph: &[u16], region: usize, rank: usize) -> bool
    ensures { result ≡ is_available graph.now region rank }
{
    bit_of(available_word(graph, region, rank / 16), rank)
}

// Stores the location of a region.
#[tactic(auto, unfolding(crate::specs::Writers::with_location))]
pub fn store_location(region: usize, location: usize, graph: &mut [u16])
    ensures { graph.new ≡ with_location graph.old region location }
{
    LOCATIONS.set(region, location, graph);
}

// Stores what follows a region by delay.
#[tactic(auto, unfolding(crate::specs::Writers::with_delay))]
pub fn store_delay(region: usize, next: usize, graph: &mut [u16])
    ensures { graph.new ≡ with_delay graph.old region next }
{
    DELAYS.set(region, next, graph);
}

// Stores how many edges are available at a region.
#[tactic(auto, unfolding(crate::specs::Writers::with_available_count))]
pub fn store_available_count(region: usize, count: usize, graph: &mut [u16])
    ensures { graph.new ≡ with_available_count graph.old region count }
{
    AVAILABLE_COUNTS.set(region, count, graph);
}

// Clears the bits of all ranks. In a fresh slice they are set, so this comes before any rank is marked.
pub fn clear_available(region: usize, graph: &mut [u16])
    ensures { graph.new ≡ with_none_available graph.old region }
{
    for word in 0..8 {
        AVAILABLE.set(8 * (region % 4096) + word, 0, graph);
    }
}

// Sets the bit of a rank.
#[tactic(auto, unfolding(crate::specs::Writers::with_available))]
pub fn mark_available(region: usize, rank: usize, graph: &mut [u16])
    ensures { graph.new ≡ with_available graph.old region rank }
{
    let word = set_bit(available_word(graph, region, rank / 16), rank);
    AVAILABLE.set(8 * (region % 4096) + rank / 16 % 8, word, graph);
}
