// A digest of a sequence of numbers: 0, and then for each number x the old digest times 257 plus x plus 1, modulo MODULUS.
use std::fmt;

const MODULUS: u64 = 4294967291;

#[derive(Clone, Copy, Debug, PartialEq, Eq)]
pub(crate) struct Digest(u64);

impl Digest {
    // The digest of no numbers.
    pub(crate) const EMPTY: Digest = Digest(0);

    // The digest with one number more, of which the low 32 bits count.
    pub(crate) fn with(self, number: u64) -> Digest {
        Digest(((self.0 % MODULUS) * 257 + number % 4294967296 + 1) % MODULUS)
    }

    // The digest with all numbers of a list more.
    pub(crate) fn with_all<T: Copy + Into<u64>>(self, list: &[T]) -> Digest {
        list.iter()
            .fold(self, |digest, &number| digest.with(number.into()))
    }
}

impl fmt::Display for Digest {
    fn fmt<W: fmt::Write>(&self, f: &mut fmt::Formatter<W>) -> fmt::Result {
        write!(f, "{}", self.0)
    }
}
