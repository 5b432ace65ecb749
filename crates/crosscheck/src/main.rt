// The test program: reads cases from standard input, runs each, and prints its answer at once, one line a case. Its input and
// the expected output are made by the independent implementation, whose README gives their format.
#![tactic(auto)]

mod answers;
mod digest;
mod lent;
mod listings;
mod questions;
mod source;
mod tables;

use questions::Question;
use source::{Source, Stop, at_most};
use std::io;
use std::io::Read;

// The longest table of a case.
const MOST_BYTES: usize = 17000;

// Reads a case and runs it. Call 1 asks nothing of its table but to read it.
fn run_case<R: Read>(rt: &impl Print, source: &mut Source<R>) -> Result<(), Stop> {
    let [call, byte]: [u8; 2] = source.bytes()?;
    let room = source.two_bytes()?;
    let size = source.four_bytes()?;
    let entries = source.four_bytes()?;
    let _unused = source.four_bytes()?;
    let question = match call {
        1 => None,
        _ => Some(Question::read(call, source)?),
    };
    let mut buffer = [0u8; MOST_BYTES];
    let table = &mut buffer[..at_most(size, MOST_BYTES)?];
    source.fill(table)?;
    match question {
        Some(question) => answers::run(rt, source, table, question, byte, entries),
        None => {
            tables::run(rt, table, at_most(room, tables::MOST_EDGES)?, byte)?;
            Ok(())
        }
    }
}

fn run_cases<R: Read>(rt: &impl Print, source: &mut Source<R>) -> Result<(), Stop> {
    for _ in 0..source.four_bytes()? {
        run_case(rt, source)?;
    }
    Ok(())
}

fn main(rt: HostRuntime) -> io::Result<()> {
    let mut source = Source::new(rt.reader());
    match run_cases(&rt, &mut source) {
        Err(Stop::Failed(error)) => Err(error),
        _ => Ok(()),
    }
}
