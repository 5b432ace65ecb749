// Text that is put together at the front of a slice: bytes, words and decimal numbers.
#![tactic(auto)]

mod writing;

pub use writing::Writer;
