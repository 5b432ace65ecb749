// Block numbers from a rep map, in place.
ghost use Rattle.std.specs.Prelude.{ℕ, ◌≡◌, length};
ghost use Rattle.bisimulation.specs.Finite.{related, blocks_by};
ghost use Rattle.bisimulation.specs.Below.{Reps};

use slices::at;

// Turns a rep map into the block numbers of what it says: an item that leads itself gets a new number, and any other the one that its lead
// has got.
pub(crate) fn number_blocks(list: &mut [u64])
    ensures { (n : ℕ) → length list.old ≡ n → Reps (related list.old) n list.old
        → list.new ≡ blocks_by n (related list.old) }
{
    let mut count = 0;
    for i in 0..list.len() {
        let lead = list[i] as usize;
        if lead == i {
            list[i] = count;
            count += 1;
        } else {
            list[i] = at(list, lead, 0);
        }
    }
}
