// The index of regions by clock class and location, and where a slot leads.
ghost use Rattle.std.specs.Prelude.{ℕ, ◌<◌, ◌≡◌};
ghost use Rattle.graph.specs.Readers.{bucket_of, region_head, region_link, region_at, landing_of};
ghost use Rattle.graph.specs.Writers.{with_region};

use crate::classes::reset_class;
use crate::columns::{CLASSES, NOTHING, REGION_HEADS, REGION_LINKS};
use crate::regions::class_of;
use crate::slots::{slot_mask, slot_target};

// Returns the bucket of a clock class and a location.
#[tactic(auto, unfolding(crate::specs::Readers::bucket_of))]
fn bucket_of(class: usize, location: usize) -> usize
    ensures { (result ≡ bucket_of class location) × (result < 8192) }
{
    (class % 8192 + 1021 * (location % 64)) % 8192
}

// Returns the last region of the bucket of a clock class and a location.
#[tactic(auto, unfolding(crate::specs::Readers::region_head))]
fn region_head(graph: &[u16], class: usize, location: usize) -> usize
    ensures { (result ≡ region_head graph.now class location) × (result < 65536) }
{
    REGION_HEADS.get(graph, bucket_of(class, location))
}

// Returns the region before one in its bucket.
#[tactic(auto, unfolding(crate::specs::Readers::region_link))]
fn region_link(graph: &[u16], region: usize) -> usize
    ensures { (result ≡ region_link graph.now region) × (result < 65536) }
{
    REGION_LINKS.get(graph, region)
}

// Returns the region of a clock class and a location, or 65,535 if there is none.
pub fn region_at(graph: &[u16], class: usize, location: usize) -> usize
    ensures { (result ≡ region_at graph.now class location) × (result < 65536) }
{
    let mut region = region_head(graph, class, location);
    for _step in 0..REGION_LINKS.size {
        if region == NOTHING {
            return NOTHING;
        }
        if class_of(graph, region) == class {
            return region;
        }
        region = region_link(graph, region);
    }
    NOTHING
}

// Returns the region where a slot leads from the regions of a clock class, or 65,535 if none was stored
// with the clock class after the reset.
#[tactic(auto, unfolding(crate::specs::Readers::landing_of))]
pub fn landing_of(graph: &[u16], class: usize, slot: usize) -> usize
    ensures { (result ≡ landing_of graph.now class slot) × (result < 65536) }
{
    let after = reset_class(graph, class, slot_mask(graph, slot));
    region_at(graph, after, slot_target(graph, slot))
}

// Stores a region with its clock class; it is now the last of its bucket.
#[tactic(auto, unfolding(crate::specs::Writers::with_region))]
pub fn store_region(region: usize, class: usize, location: usize, graph: &mut [u16])
    ensures { graph.new ≡ with_region graph.old region class location }
{
    let head = region_head(graph, class, location);
    CLASSES.set(region, class, graph);
    REGION_LINKS.set(region, head, graph);
    REGION_HEADS.set(bucket_of(class, location), region, graph);
}
