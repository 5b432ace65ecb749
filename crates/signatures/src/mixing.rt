// Numbers mixed into one, by which lists are found again.
ghost use Rattle.std.specs.Prelude.{ℕ, ◌≡◌, map};
ghost use Rattle.signatures.specs.Chain.{stirred};

// Returns the numbers of a list mixed into one.
pub(crate) fn mix<T: Copy + Into<u32>>(list: &[T]) -> u32
    ensures { (number : T → ℕ) → ((x : T) (y : ℕ) → T.converts x y → y ≡ number x) → result ≡ stirred 0 (map number list.now) }
{
    let mut sum: u32 = 0;
    for number in list {
        sum = sum.wrapping_add((*number).into()).wrapping_mul(1540483477);
    }
    sum
}
