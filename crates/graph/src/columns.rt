// The columns of the graph slice, one behind the other, and how many numbers each slice has.
ghost use Rattle.std.specs.Prelude.{ℕ, ◌+◌, ◌%◌, ◌<◌, ◌≤◌, ◌≡◌};
ghost use Rattle.graph.specs.Columns.{load, store};

use slices::{at, put};

// How many numbers of the graph slice a call lends, as it needs them; and how many numbers the edge slice has.
pub const SHORT: usize = 27074;

pub const MIDDLE: usize = 141762;

pub const LONG: usize = 210370;

pub const EDGES: usize = 2304;

// What a fresh graph slice holds at every place, and what is read past the end of one that was cut short.
pub(crate) const NOTHING: usize = 65535;

pub(crate) const LABELS: Column = Column { from: 0, size: 64 };

pub(crate) const EDGE_STARTS: Column = Column { from: 64, size: 65 };

pub(crate) const EDGE_NUMBERS: Column = Column {
    from: 129,
    size: 128,
};

pub(crate) const SLOT_STARTS: Column = Column {
    from: 257,
    size: 65,
};

pub(crate) const SLOT_KEYS: Column = Column {
    from: 322,
    size: 1024,
};

pub(crate) const BRANCH_SLOTS: Column = Column {
    from: 1346,
    size: 1152,
};

pub(crate) const CLASS_HEADS: Column = Column {
    from: 2498,
    size: 4096,
};

pub(crate) const CLASS_LINKS: Column = Column {
    from: 6594,
    size: 4096,
};

pub(crate) const REGION_HEADS: Column = Column {
    from: 10690,
    size: 8192,
};

pub(crate) const REGION_LINKS: Column = Column {
    from: 18882,
    size: 4096,
};

pub(crate) const CLASSES: Column = Column {
    from: 22978,
    size: 4096,
};

pub(crate) const LOCATIONS: Column = Column {
    from: 27074,
    size: 4096,
};

pub(crate) const DELAYS: Column = Column {
    from: 31170,
    size: 4096,
};

pub(crate) const AVAILABLE_COUNTS: Column = Column {
    from: 35266,
    size: 4096,
};

pub(crate) const AVAILABLE: Column = Column {
    from: 39362,
    size: 32768,
};

pub(crate) const RESETS: Column = Column {
    from: 72130,
    size: 65536,
};

pub(crate) const CLASS_DELAYS: Column = Column {
    from: 137666,
    size: 4096,
};

pub(crate) const SLOT_LOCATIONS: Column = Column {
    from: 141762,
    size: 1024,
};

pub(crate) const KEY_HEADS: Column = Column {
    from: 142786,
    size: 1024,
};

pub(crate) const KEY_LINKS: Column = Column {
    from: 143810,
    size: 1024,
};

pub(crate) const SOURCE_HEADS: Column = Column {
    from: 144834,
    size: 4096,
};

pub(crate) const SOURCE_LINKS: Column = Column {
    from: 148930,
    size: 61440,
};

// A column of the graph slice: where it begins, and how many numbers it has.
#[derive(Clone, Copy)]
pub(crate) struct Column {
    pub from: usize,
    pub size: usize,
}

impl Column {
    // Returns a number of the column, whose places count modulo its size.
    #[tactic(auto, unfolding(crate::specs::Columns::load))]
    pub(crate) fn get(self, graph: &[u16], place: usize) -> usize
        requires { (0 < self.size) × (self.from + self.size ≤ 210370) }
        ensures { (result ≡ load self graph.now (place % self.size)) × (result < 65536) }
    {
        usize::from(at(graph, self.from + place % self.size, u16::MAX))
    }

    // Stores a number, modulo 65,536, in the column, unless its place is past the end of the slice.
    #[tactic(auto, unfolding(crate::specs::Columns::store))]
    pub(crate) fn set(self, place: usize, number: usize, graph: &mut [u16])
        requires { (0 < self.size) × (self.from + self.size ≤ 210370) }
        ensures { graph.new ≡ store self graph.old (place % self.size) number }
    {
        put(
            graph,
            self.from + place % self.size,
            (number % 65536) as u16,
        );
    }
}
