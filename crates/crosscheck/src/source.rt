// The cases, read from the input: numbers stand with the low byte first.
ghost use Rattle.std.specs.Prelude.{◌≤◌, IfOk};

use std::io;
use std::io::{ErrorKind, Read};

// Why no more cases are run: the input ends early, a case is none that this program knows, or the input or the output failed.
#[derive(Debug, Drop)]
pub(crate) enum Stop {
    Ended,
    Unknown,
    Failed(io::Error),
}

impl From<io::Error> for Stop {
    fn from(error: io::Error) -> Stop {
        Stop::Failed(error)
    }
}

// A number, where it is at most another.
pub(crate) fn at_most(number: usize, most: usize) -> Result<usize, Stop>
    ensures { IfOk result (λ n. n ≤ most) }
{
    if number <= most {
        Ok(number)
    } else {
        Err(Stop::Unknown)
    }
}

#[derive(Drop)]
pub(crate) struct Source<R> {
    from: R,
}

impl<R: Read> Source<R> {
    pub(crate) fn new(from: R) -> Source<R> {
        Source { from }
    }

    // Fills some bytes.
    pub(crate) fn fill(&mut self, bytes: &mut [u8]) -> Result<(), Stop> {
        self.from.read_exact(bytes).map_err(|error| if error.kind() == ErrorKind::UnexpectedEof {
            Stop::Ended
        } else {
            Stop::Failed(error)
        })
    }

    pub(crate) fn bytes<const N: usize>(&mut self) -> Result<[u8; N], Stop> {
        let mut bytes = [0u8; N];
        self.fill(&mut bytes)?;
        Ok(bytes)
    }

    // A number of two bytes.
    pub(crate) fn two_bytes(&mut self) -> Result<usize, Stop> {
        Ok(usize::from(u16::from_le_bytes(self.bytes()?)))
    }

    // A number of four bytes.
    pub(crate) fn four_bytes(&mut self) -> Result<usize, Stop> {
        Ok(u32::from_le_bytes(self.bytes()?) as usize)
    }

    // A number of eight bytes.
    pub(crate) fn eight_bytes(&mut self) -> Result<u64, Stop> {
        Ok(u64::from_le_bytes(self.bytes()?))
    }
}
