// Slots: the distinct masks and targets of one location. All branches of a slot lead from a region to one region.
ghost use Rattle.std.specs.Prelude.{ℕ, ◌<◌, ◌≡◌};
ghost use Rattle.graph.specs.Readers.{slot_mask, slot_target, slot_location, key_of, key_head, key_link};
ghost use Rattle.graph.specs.Writers.{with_slot};

use crate::columns::{KEY_HEADS, KEY_LINKS, SLOT_KEYS, SLOT_LOCATIONS};

// Returns the mask of a slot.
#[tactic(auto, unfolding(crate::specs::Readers::slot_mask))]
pub fn slot_mask(graph: &[u16], slot: usize) -> usize
    ensures { (result ≡ slot_mask graph.now slot) × (result < 16) }
{
    SLOT_KEYS.get(graph, slot) / 64 % 16
}

// Returns the target of a slot.
#[tactic(auto, unfolding(crate::specs::Readers::slot_target))]
pub fn slot_target(graph: &[u16], slot: usize) -> usize
    ensures { (result ≡ slot_target graph.now slot) × (result < 64) }
{
    SLOT_KEYS.get(graph, slot) % 64
}

// Returns the location of a slot.
#[tactic(auto, unfolding(crate::specs::Readers::slot_location))]
pub fn slot_location(graph: &[u16], slot: usize) -> usize
    ensures { (result ≡ slot_location graph.now slot) × (result < 65536) }
{
    SLOT_LOCATIONS.get(graph, slot)
}

// Returns a mask and a target as one number.
#[tactic(auto, unfolding(crate::specs::Readers::key_of))]
fn key_of(mask: usize, target: usize) -> usize
    ensures { (result ≡ key_of mask target) × (result < 1024) }
{
    64 * (mask % 16) + target % 64
}

// Returns the last slot with a mask and a target.
#[tactic(auto, unfolding(crate::specs::Readers::key_head))]
pub fn key_head(graph: &[u16], mask: usize, target: usize) -> usize
    ensures { (result ≡ key_head graph.now mask target) × (result < 65536) }
{
    KEY_HEADS.get(graph, key_of(mask, target))
}

// Returns the slot before a slot among those with its mask and target.
#[tactic(auto, unfolding(crate::specs::Readers::key_link))]
pub fn key_link(graph: &[u16], slot: usize) -> usize
    ensures { (result ≡ key_link graph.now slot) × (result < 65536) }
{
    KEY_LINKS.get(graph, slot)
}

// Stores a slot of a location with its mask and target; it is now the last with these.
#[tactic(auto, unfolding(crate::specs::Writers::with_slot))]
pub fn store_slot(slot: usize, location: usize, mask: usize, target: usize, graph: &mut [u16])
    ensures { graph.new ≡ with_slot graph.old slot location mask target }
{
    let head = key_head(graph, mask, target);
    let key = key_of(mask, target);
    SLOT_KEYS.set(slot, key, graph);
    SLOT_LOCATIONS.set(slot, location, graph);
    KEY_LINKS.set(slot, head, graph);
    KEY_HEADS.set(key, slot, graph);
}
