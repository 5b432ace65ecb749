// Numbers of two bytes from the input, the low byte first.
ghost use Rattle.std.specs.Prelude.{◌<◌, IfOk};

use std::io;
use std::io::{ErrorKind, Read};

#[derive(Drop)]
pub(crate) struct Source<R> {
    from: R,
}

impl<R: Read> Source<R> {
    pub(crate) fn new(from: R) -> Source<R> {
        Source { from }
    }

    // Reads a number, unless the input ends before it or within it.
    pub(crate) fn next(&mut self) -> io::Result<Option<u16>> {
        let mut bytes = [0u8; 2];
        match self.from.read_exact(&mut bytes) {
            Ok(()) => Ok(Some(u16::from_le_bytes(bytes))),
            Err(error) if error.kind() == ErrorKind::UnexpectedEof => Ok(None),
            Err(error) => Err(error),
        }
    }

    // Reads a number that must be there; at the end of the input it is 0.
    pub(crate) fn number(&mut self) -> io::Result<usize>
        ensures { IfOk result (λ n. n < 65536) }
    {
        Ok(usize::from(self.next()?.unwrap_or(0)))
    }
}
