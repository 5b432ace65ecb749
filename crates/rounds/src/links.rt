// Links to items in stored arrays: link y + 1 tells item y, and 0 tells none.
ghost use Rattle.std.specs.Prelude.{ℕ, ◌+◌, ◌<◌, ◌≡◌, length, get_or, set};
ghost use Rattle.comparison.specs.Held.{most_items};
ghost use Rattle.rounds.specs.Links.{link_to};

use crate::MOST_ITEMS;
use slices::{at, put};

// Returns the item that link i tells.
pub(crate) fn linked(links: &[u16], i: usize) -> Option<usize>
    ensures { link_to result ≡ get_or links.now i 0 }
{
    usize::from(at(links, i, 0)).checked_sub(1)
}

// Makes link i tell item y, where there is such a link.
pub(crate) fn link(links: &mut [u16], i: usize, y: usize)
    requires { y < most_items }
    ensures { links.new ≡ set links.old i (y + 1) }
{
    put(links, i, (y + 1) as u16);
}

// Holds items in buckets: links from each bucket to the item that came last, and from each item to the one before it.
#[derive(Drop)]
pub(crate) struct Buckets {
    heads: [u16; MOST_ITEMS],
    links: [u16; MOST_ITEMS],
}

impl Buckets {
    // Makes empty buckets.
    pub(crate) fn new() -> Self
        ensures { (b : ℕ) → (get_or result.heads b 0 ≡ 0) × (get_or result.links b 0 ≡ 0) }
    {
        Buckets {
            heads: [0; MOST_ITEMS],
            links: [0; MOST_ITEMS],
        }
    }

    // Returns the item that came last.
    pub(crate) fn newest(&self, bucket: usize) -> Option<usize>
        ensures { link_to result ≡ get_or self.now.heads bucket 0 }
    {
        linked(&self.heads, bucket)
    }

    // Returns the item that came before item x.
    pub(crate) fn before(&self, x: usize) -> Option<usize>
        ensures { link_to result ≡ get_or self.now.links x 0 }
    {
        linked(&self.links, x)
    }

    // Puts item x into a bucket.
    pub(crate) fn put(&mut self, bucket: usize, x: usize)
        requires { (bucket < most_items) × (x < most_items) }
        ensures after { self.new ≡ record {
          heads = set self.old.heads bucket (x + 1);
          links = set self.old.links x (get_or self.old.heads bucket 0);
        } }
        ensures room { (length self.old.heads ≡ most_items) × (length self.old.links ≡ most_items) }
    {
        self.links[x] = self.heads[bucket];
        self.heads[bucket] = (x + 1) as u16;
    }
}
