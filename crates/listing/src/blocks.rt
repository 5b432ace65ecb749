// Blocks in a list of block numbers: the lowest region of one, its size, and which of them some regions have.
ghost use Rattle.std.specs.Prelude.{ℕ, ◌≤◌, ◌<◌, ◌≡◌, not, ◌&&◌, eqb, length, get_or};
ghost use Rattle.listing.specs.Printed.{lowest_of, size_below, is_among};
ghost use Rattle.listing.specs.Slices.{Next};

// The block of each region, and how many blocks there are.
#[derive(Clone, Copy)]
pub(crate) struct Blocks<'a> {
    pub list: &'a [u64],
    pub count: u64,
    ghost some: { 0 < count },
    ghost within: { count ≤ length list.now },
    ghost few: { length list.now ≤ 4096 },
}

impl Blocks<'_> {
    // The block of a region, and 0 past the last.
    pub(crate) fn of(self, region: usize) -> u64
        ensures { result ≡ get_or self.entry.list.now region 0 }
    {
        slices::at(self.list, region, 0)
    }

    // The lowest region of a block, and 0 where none has it.
    pub(crate) fn lowest_of(self, b: u64) -> usize
        ensures value { result ≡ lowest_of self.entry.list.now b }
        ensures within { 0 < length self.entry.list.now → result < length self.entry.list.now }
    {
        self.list.iter().position(|c| *c == b).unwrap_or(0)
    }

    // How many regions a block has.
    pub(crate) fn size_of(self, b: u64) -> u64
        ensures { result ≡ size_below self.entry.list.now b (length self.entry.list.now) }
    {
        self.list.iter().filter(|c| **c == b).count() as u64
    }

    // The lowest block from `from` on that one of some regions has.
    pub(crate) fn next_of(self, regions: &[u16], from: u64) -> Option<u64>
        ensures { Next (λ b. is_among self.entry.list.now b regions.now) from self.entry.count result }
    {
        regions
            .iter()
            .map(|region| self.of(usize::from(*region)))
            .filter(|c| from <= *c && *c < self.count)
            .min()
    }

    // The same of another block than one's own.
    pub(crate) fn next_other(self, regions: &[u16], own: u64, from: u64) -> Option<u64>
        requires { own < self.count }
        ensures { Next (λ b. not (eqb b own) && is_among self.entry.list.now b regions.now) from self.entry.count result }
    {
        match self.next_of(regions, from) {
            Some(c) if c == own => self.next_of(regions, own + 1),
            next => next,
        }
    }
}
