// Sets of numbers as rising lists.
ghost use Rattle.std.specs.Prelude.{◌<◌, ◌≡◌, length};
ghost use Rattle.signatures.specs.Sets.{Rising, PutAt, put_in};

use arrayvec::ArrayVec;

// Finds a number in a rising list, or its place there. Looks at the last one first, since the names along a delay mostly rise.
fn place_of(number: u32, list: &[u32]) -> Result<usize, usize>
    requires { Rising list.now }
    ensures { PutAt number list.now result }
{
    let n = list.len();
    if n == 0 || list[n - 1] < number {
        return Err(n);
    }
    if list[n - 1] == number {
        return Ok(n - 1);
    }
    list.binary_search(&number)
}

// Puts a number into a set, once.
pub(crate) fn insert<const N: usize>(number: u32, set: &mut ArrayVec<u32, N>)
    requires rising { Rising set.old.items }
    requires room { length set.old.items < N }
    ensures { set.new.items ≡ put_in number set.old.items }
{
    if let Err(place) = place_of(number, set.as_slice()) {
        set.insert(place, number);
    }
}
