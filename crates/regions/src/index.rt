// A chained hash index over regions that are entries in a slice of bytes. Links of zeros are the index of no entry.
ghost use Rattle.std.specs.Prelude.{◌+◌, ◌*◌, ◌≤◌, ◌<◌, ◌≡◌, get_or, length, replicate, set};
ghost use Rattle.regions.specs.Entries.{entry_bytes, max_entries, four_from, region_at};
ghost use Rattle.regions.specs.Index.{bucket_count, mixed, hash_of, Indexed, Room, Found, Added};

use crate::entry::{read_entry, write_entry};
use clocks::Region;

// Hashes are below the largest prime that is no more than the number of buckets, 4,096.
const HASH_PRIME: usize = 4093;

const HASH_BASE: usize = 31;

// The links of the first `count` entries. A link is the number after that of an entry, and 0 where there is none: for each bucket the
// link to its last entry, and for each entry that to the one before it in its bucket.
#[derive(Drop)]
pub(crate) struct Links {
    pub heads: [u16; 4096],
    pub nexts: [u16; 4096],
    pub count: usize,
}

// Entries that are listed, and their index.
#[derive(Clone, Copy)]
pub(crate) struct Listed<'a> {
    pub entries: &'a [u8],
    pub links: &'a Links,
    ghost index: { Indexed entries.now links.now },
}

// Entries that are being listed, with room for `cap` of them, and their index.
#[derive(Drop)]
pub(crate) struct Listing<'a> {
    pub entries: &'a mut [u8],
    pub links: Links,
    pub cap: usize,
    ghost room: { Room cap entries.now links },
}

// Mixes four bytes into a number.
fn mix_four(x: usize, four: [u8; 4]) -> usize
    requires { x < bucket_count }
    ensures { (result ≡ mixed x (four_from four 0)) × (result < bucket_count) }
{
    let half = (x * HASH_BASE + usize::from(four[0])) * HASH_BASE + usize::from(four[1]);
    let all = (half * HASH_BASE + usize::from(four[2])) * HASH_BASE + usize::from(four[3]);
    all % HASH_PRIME
}

// Returns the bucket of a region.
pub(crate) fn hash_of(r: Region) -> usize
    ensures { (result ≡ hash_of r) × (result < bucket_count) }
{
    mix_four(mix_four(usize::from(r.location), r.whole), r.rank)
}

impl Links {
    // Returns the index of no entry.
    pub(crate) fn new() -> Links
        ensures { (result.heads ≡ replicate 4096 0) × (result.count ≡ 0) }
    {
        Links {
            heads: [0; 4096],
            nexts: [0; 4096],
            count: 0,
        }
    }

    // Links a region that is the next entry.
    pub(crate) fn push(&mut self, r: Region)
        requires { self.old.count < max_entries }
        ensures { (self.new.heads ≡ set self.old.heads (hash_of r) (self.old.count + 1))
            × (self.new.nexts ≡ set self.old.nexts self.old.count (get_or self.old.heads (hash_of r) 0))
            × (self.new.count ≡ self.old.count + 1) }
    {
        let bucket = hash_of(r);
        self.nexts[self.count] = self.heads[bucket];
        self.count += 1;
        self.heads[bucket] = self.count as u16;
    }
}

impl Listed<'_> {
    // Returns the number of entries.
    pub(crate) fn count(self) -> usize
        ensures count { result ≡ self.entry.links.now.count }
        ensures few { result ≤ max_entries }
    {
        self.links.count
    }

    // Returns the region at an entry.
    pub(crate) fn region(self, j: usize) -> Region
        requires { j < max_entries }
        ensures { result ≡ region_at self.entry.entries.now j }
    {
        read_entry(self.entries, j)
    }

    // Returns the number of an entry that is a region: along its bucket, from the last entry of it to the first.
    pub(crate) fn find(self, r: Region) -> Option<usize>
        ensures { Found self.entry.entries.now self.entry.links.now.count r result }
    {
        let mut link = self.links.heads[hash_of(r)];
        while 0 < link {
            let j = usize::from(link - 1);
            if read_entry(self.entries, j) == r {
                return Some(j);
            }
            link = self.links.nexts[j];
        }
        None
    }
}

impl<'a> Listing<'a> {
    // Returns the entries that are listed so far.
    pub(crate) fn listed(&self) -> Listed<'_>
        ensures { (result.entries.now ≡ self.now.entries.now) × (result.links.now ≡ self.now.links) }
    {
        Listed {
            entries: self.entries,
            links: &self.links,
        }
    }

    // Lists one more region.
    pub(crate) fn add(&mut self, r: Region)
        requires { self.old.links.count < self.old.cap }
        ensures slice { self.new.entries.ghost_name ≡ self.old.entries.ghost_name }
        ensures cap { self.new.cap ≡ self.old.cap }
        ensures added { Added r self.old.entries.now self.old.links self.new.entries.now self.new.links }
    {
        write_entry(self.entries, self.links.count, r);
        self.links.push(r);
    }
}
