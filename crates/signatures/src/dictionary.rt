// A dictionary of lists of numbers (hash-consing): equal lists have equal ids, and different lists different ids. Two lent slices hold it:
// the index (count, heads of buckets, starts and ends, links) and the numbers of all lists.
ghost use Rattle.std.specs.Prelude.{ℕ, ◌+◌, ◌≤◌, ◌<◌, ◌≡◌, ◌↔◌, IsTrue, [], length, slice_index_or};
ghost use Rattle.std.proofs.Math.Seq.{paste};
ghost use Rattle.signatures.specs.Chain.{buckets, hash_of};
ghost use Rattle.signatures.specs.Book.{max_ids, room, Absent, Sound, Told};
ghost use Rattle.signatures.specs.Dictionary.{index_size, entered, Found};

use crate::mixing::mix;
use std::marker::Model;

const COUNT: usize = 0;

const HEADS: usize = 1;

const STARTS: usize = 8193;

const ENDS: usize = 8194;

const LINKS: usize = 16386;

const MAX_IDS: usize = 8192;

const ROOM: usize = 36864;

// There is no room for a list.
#[derive(Clone, Copy, Debug, PartialEq, Eq)]
pub(crate) struct NoRoom;

// A clause sees the lists that it holds, in the order of their ids.
#[derive(Drop)]
pub(crate) struct Dictionary<'a> {
    index: &'a mut [u16],
    numbers: &'a mut [u32],
}

impl<'a> Model for Dictionary<'a> {
    ghost use Rattle.std.specs.Prelude.{ℕ, List};
    ghost use Rattle.signatures.specs.Dictionary.{Dictionary as IsDictionary, entries_of};

    ghost Value = { List (List ℕ) };

    ghost view = { λ d. entries_of d.index.now d.numbers.now };

    ghost invariant = { λ d. IsDictionary d.index.now d.numbers.now };
}

// Returns the bucket of a list.
fn bucket_of(list: &[u32]) -> usize
    ensures { (result ≡ hash_of list.now) × (result < buckets) }
{
    (mix(list) >> 19) as usize
}

// Enters a list, which ends at a place and is in a bucket, into the index.
fn enter(id: u16, end: usize, bucket: usize, index: &mut [u16])
    requires { (length index.old ≡ index_size) × (id < max_ids) × (end ≤ room) × (bucket < buckets) }
    ensures { index.new ≡ entered index.old id end bucket }
{
    let place = usize::from(id);
    index[ENDS + place] = end as u16;
    index[LINKS + place] = index[HEADS + bucket];
    index[HEADS + bucket] = id + 1;
    index[COUNT] = id + 1;
}

impl<'a> Dictionary<'a> {
    // Makes an empty dictionary in two slices.
    pub(crate) fn new(index: &'a mut [u16], numbers: &'a mut [u32]) -> Dictionary<'a>
        requires { (length index.old ≡ index_size) × (length numbers.old ≡ room) }
        ensures { result ≡ [] }
    {
        index.fill(0);
        Dictionary { index, numbers }
    }

    // Tells whether a list has an id.
    fn is_entry(&self, id: u16, list: &[u32]) -> bool
        requires { id < length self.now }
        ensures { IsTrue result ↔ (slice_index_or self.now id [] ≡ list.now) }
    {
        let start = usize::from(self.index[STARTS + usize::from(id)]);
        let end = usize::from(self.index[ENDS + usize::from(id)]);
        let entry = &self.numbers[start..end];
        entry == list
    }

    // Looks for a list, along its bucket.
    fn find(&self, list: &[u32]) -> Option<u16>
        ensures found { Found list.now self.now result }
        ensures sound { Sound self.now }
    {
        let mut link = self.index[HEADS + bucket_of(list)];
        while link != 0 {
            let id = link - 1;
            if self.is_entry(id, list) {
                return Some(id);
            }
            link = self.index[LINKS + usize::from(id)];
        }
        None
    }

    // Adds a list that is not there, where there is room for it.
    fn add(&mut self, list: &[u32]) -> Result<u16, NoRoom>
        requires { Absent self.old list.now }
        ensures told { Told list.now self.old self.new result }
        ensures sound { Sound self.new }
    {
        let id = self.index[COUNT];
        if MAX_IDS <= usize::from(id) {
            return Err(NoRoom);
        }
        let start = usize::from(self.index[STARTS + usize::from(id)]);
        if ROOM - start < list.len() {
            return Err(NoRoom);
        }
        let end = start + list.len();
        self.numbers[start..end].copy_from_slice(list);
        enter(id, end, bucket_of(list), self.index);
        Ok(id)
    }

    // Returns the id of a list, which is added if it is not there.
    pub(crate) fn intern(&mut self, list: &[u32]) -> Result<u16, NoRoom>
        ensures told { Told list.now self.old self.new result }
        ensures sound { Sound self.new }
    {
        match self.find(list) {
            Some(id) => Ok(id),
            None => self.add(list),
        }
    }
}
