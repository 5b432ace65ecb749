// Names of blocks that change as little as they may from round to round. A leader is an item that is its own rep. Leaders have tags of
// their own, and an item's name is the tag of its leader. Of the parts of a block the largest keeps the tag; the others get numbers of
// new leaders, which no block had. Which part is the largest counts for speed alone: nothing is proved of sizes.
ghost use Rattle.std.specs.Prelude.{ℕ, ◌+◌, ◌<◌, ◌≤◌, ◌≡◌, true, List, length, get_or};
ghost use Rattle.comparison.specs.Held.{most_items};
ghost use Rattle.rounds.specs.Names.{Tagged, Named, Changed, LeadersKept, Reached, TaggedIn};

use crate::MOST_ITEMS;
use crate::links::{link, linked};
use slices::at;

// Gives each item of round 0 its tag, which is its own number, and its name.
pub(crate) fn first_names(reps: &[u64], tags: &mut [u16; MOST_ITEMS], names: &mut [u64; MOST_ITEMS])
    requires { length reps.now ≤ most_items }
    ensures { (n : ℕ) → length reps.now ≡ n → ((x : ℕ) → x < n → get_or reps.now x 0 < n)
        → Named n reps.now tags.new names.new }
{
    for (x, rep) in reps.iter().enumerate() {
        tags[x] = x as u16;
        names[x] = *rep;
    }
}

// Counts how many items each leader leads, up to 65,535.
fn count_sizes(reps: &[u64]) -> [u16; MOST_ITEMS] {
    let mut sizes = [0u16; MOST_ITEMS];
    for rep in reps {
        if let Some(size) = sizes.get_mut(*rep as usize) {
            *size = size.saturating_add(1);
        }
    }
    sizes
}

// Does leader x lead more items than a lower one that holds the tag?
fn outgrows(x: usize, holder: usize, new: &[u64], sizes: &[u16; MOST_ITEMS]) -> bool
    requires { x < most_items }
    ensures { result ≡ true → (holder < x) × (get_or new.now holder 0 ≡ holder) }
{
    holder < x && at(new, holder, 0) == holder as u64 && sizes[holder] < sizes[x]
}

// Tags item x where it leads now and did not before: by its own number, or by the tag of its old block where it leads more items than the
// leader that holds it. `holders` links an old leader to the new one that holds its tag, and to none where it holds the tag itself.
fn tag_leader(
    x: usize,
    old: &[u64],
    new: &[u64],
    sizes: &[u16; MOST_ITEMS],
    holders: &mut [u16; MOST_ITEMS],
    tags: &mut [u16; MOST_ITEMS],
)
    requires { x < most_items }
    ensures { (n : ℕ) → x < n → n ≤ most_items → TaggedIn n (Reached old.now new.now x) tags.old
        → TaggedIn n (Reached old.now new.now (x + 1)) tags.new }
{
    let lead = at(old, x, 0) as usize;
    if at(new, x, 0) != x as u64 || lead == x {
        return;
    }
    tags[x] = x as u16;
    let holder = linked(holders, lead).unwrap_or(lead);
    if outgrows(x, holder, new, sizes) {
        tags.swap(x, holder);
        link(holders, lead, x);
    }
}

// Gives the leaders of a round their tags.
fn tag_leaders(old: &[u64], new: &[u64], tags: &mut [u16; MOST_ITEMS])
    requires { length new.now ≤ most_items }
    ensures { (n : ℕ) → length new.now ≡ n → LeadersKept n old.now new.now
        → Tagged n old.now tags.old → Tagged n new.now tags.new }
{
    let sizes = count_sizes(new);
    let mut holders = [0u16; MOST_ITEMS];
    for x in 0..new.len() {
        tag_leader(x, old, new, &sizes, &mut holders, tags);
    }
}

// Gives each item its name, and tells which names changed.
fn rename(
    new: &[u64],
    tags: &[u16; MOST_ITEMS],
    names: &mut [u64; MOST_ITEMS],
) -> [bool; MOST_ITEMS]
    requires { length new.now ≤ most_items }
    ensures by_index { (x : ℕ) → x < length new.now
        → get_or names.new x 0 ≡ get_or tags.now (get_or new.now x 0) 0 }
    ensures changed { Changed (length new.now) names.old names.new result }
{
    let mut changed = [false; MOST_ITEMS];
    for (x, lead) in new.iter().enumerate() {
        let name = u64::from(at(tags, *lead as usize, 0));
        changed[x] = name != names[x];
        names[x] = name;
    }
    changed
}

// Makes tags and names of a round from those of the round before, and tells which names changed.
pub(crate) fn name_round(
    old: &[u64],
    new: &[u64],
    tags: &mut [u16; MOST_ITEMS],
    names: &mut [u64; MOST_ITEMS],
) -> [bool; MOST_ITEMS]
    requires { length new.now ≤ most_items }
    ensures named { (n : ℕ) → length new.now ≡ n → LeadersKept n old.now new.now
        → Tagged n old.now tags.old → Named n new.now tags.new names.new }
    ensures changed { (n : ℕ) → length new.now ≡ n → Changed n names.old names.new result }
{
    tag_leaders(old, new, tags);
    rename(new, tags, names)
}
