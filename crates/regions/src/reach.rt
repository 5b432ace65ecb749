// What a region reaches by delay, by number among lent entries.
ghost use Rattle.std.specs.Prelude.{◌≤◌, ◌<◌, ◌≡◌, ◌++◌, length, drop};
ghost use Rattle.table.specs.Model.{Model};
ghost use Rattle.regions.specs.Of.{Of};
ghost use Rattle.regions.specs.Explore.{listed, regions_of, size_of};
ghost use Rattle.regions.specs.View.{number_in};
ghost use Rattle.regions.specs.Sight.{delay_list};

use crate::entry::read_entry;
use crate::index::{Listed, hash_of};
use crate::prepared::Prepared;
use clocks::Region;

impl Listed<'_> {
    // Returns the number of a region, and how many entries there are where it is none of them. A region that stands there twice has
    // the lower number: its bucket is gone through to the end, from the last entry to the first.
    pub(crate) fn number(self, q: Region) -> usize
        ensures value { result ≡ number_in (listed self.entry.entries.now self.entry.links.now.count) q }
        ensures upper_bound { result ≤ self.entry.links.now.count }
    {
        let mut best = self.links.count;
        let mut link = self.links.heads[hash_of(q)];
        while 0 < link {
            let j = usize::from(link - 1);
            if read_entry(self.entries, j) == q {
                best = j;
            }
            link = self.links.nexts[j];
        }
        best
    }
}

// Stores the numbers of what a region reaches by delay, from the front of a slice on, and returns how many there are.
pub(crate) fn list_delays(model: &Prepared, found: Listed, r: Region, delays: &mut [u16]) -> usize
    requires { size_of found < length delays.old }
    ensures { (m : Model) → Of model.now m
        → (result ≡ length (delay_list m (regions_of found.entry) r))
        × (delays.new ≡ delay_list m (regions_of found.entry) r
        ++ drop (length (delay_list m (regions_of found.entry) r)) delays.old) }
{
    delays[0] = found.number(r) as u16;
    let mut at = r;
    for i in 0..found.count() {
        let Some(q) = model.follower(at) else {
            return i + 1;
        };
        at = q;
        delays[i + 1] = found.number(at) as u16;
    }
    found.count() + 1
}
