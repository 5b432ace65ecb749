// Reading and storing an element at any place of a slice: past the end a given value is read, and nothing is stored.
#![tactic(auto)]

ghost use Rattle.std.specs.Prelude.{◌≡◌, set, slice_index_or};

// Returns the element at a place, and a given one past the end.
pub fn at<T: Copy>(list: &[T], i: usize, past: T) -> T
    ensures { result ≡ slice_index_or list.now i past }
{
    list.get(i).copied().unwrap_or(past)
}

// Stores an element at a place, where the slice has room for it.
pub fn put<T: Copy>(list: &mut [T], i: usize, element: T)
    ensures { list.new ≡ set list.old i element }
{
    if i < list.len() {
        list[i] = element;
    }
}
