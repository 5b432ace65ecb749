// What is lent to a call, filled beforehand so that a stray write shows.
use crate::digest::Digest;
use crate::source::{Source, Stop};
use std::io::Read;

#[derive(Drop)]
pub(crate) struct Lent<'a> {
    pub entries: &'a mut [u8],
    pub first: &'a mut [u64],
    pub second: &'a mut [u64],
}

// What number i of list k holds before the call.
pub(crate) fn filler(byte: u8, k: usize, i: usize) -> usize {
    usize::from(byte)
        .wrapping_add(256usize.wrapping_mul(k))
        .wrapping_add(1024usize.wrapping_mul(i))
}

// Fills a list by the places of its elements.
pub(crate) fn fill<T: Drop, F: Fn(usize) -> T>(list: &mut [T], filler: F)
    requires { F.IsAlwaysCallable filler }
{
    for (i, element) in list.iter_mut().enumerate() {
        *element = filler(i);
    }
}

impl Lent<'_> {
    pub(crate) fn fill(&mut self, byte: u8) {
        fill(
            self.entries,
            |i| byte.wrapping_add(7u8.wrapping_mul((i % 256) as u8)),
        );
        fill(self.first, |i| filler(byte, 0, i) as u64);
        fill(self.second, |i| filler(byte, 1, i) as u64);
    }

    // Puts a proposal, which the input has, into the first list.
    pub(crate) fn propose<R: Read>(&mut self, source: &mut Source<R>) -> Result<(), Stop> {
        for number in self.first.iter_mut() {
            *number = source.eight_bytes()?;
        }
        Ok(())
    }

    pub(crate) fn digest_lists(&self) -> Digest {
        Digest::EMPTY.with_all(self.first).with_all(self.second)
    }
}
