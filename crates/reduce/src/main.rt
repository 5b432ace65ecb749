// The program: reads a table from standard input, lends 2,048 entries, and prints the listing, or the line of a refusal. Of a longer input
// 16,385 bytes are read, one more than a table may have, so that it is refused (1) and not cut. No contract can say what is printed. What
// is proved is that the program is safe, prints no more of a buffer than the call says it wrote, never stops for want of room in its
// buffer or of steps, and counts, of what it prints, as many bytes as the listing has: it does not end before the last part. That what it
// counts is printed is read off `print_listing` and `print_refusal`; that the parts are the listing is proved of the calls
// (`call-written`, `call-end` and `joined` of crates/listing). A read or a write that fails ends the program with its error.
#![tactic(auto)]

ghost use Rattle.std.specs.Prelude.{◌≤◌, ◌<◌, ◌≡◌, IfOk, length, take};
ghost use Rattle.std.specs.Io.KnownBytes.{Consumes, IsAtEnd};
ghost use Rattle.partition.specs.Passed.{number};
ghost use Rattle.listing.specs.Parts.{most_bytes, text_of};
ghost use Rattle.listing.specs.Printed.{refusal_line, program_listing};
ghost use Rattle.reduce.specs.Printing.{Printed};

use listing::Part;
use partition::{Reduction, Refusal};
use std::io;
use std::io::Read;

// How many parts are asked for: one more than any listing has, so that the last answer is the end.
const STEPS: u64 = 8195;

// Prints the listing, part by part, until the call says that there are no more, and returns how many bytes it has.
fn print_listing(
    rt: &impl Print,
    table: &[u8],
    entries: &[u8],
    list: &[u64],
    counts: Reduction,
    buffer: &mut [u8],
) -> io::Result<usize>
    requires { most_bytes ≤ length buffer.old }
    ensures { IfOk result (Printed (text_of table.now entries.now list.now counts.regions counts.blocks counts.rounds)) }
{
    let Reduction {
        regions,
        blocks,
        rounds,
    } = counts;
    let mut bytes = 0;
    for part in 0..STEPS {
        match listing::write_part(
            table,
            entries,
            list,
            regions as u64,
            blocks,
            rounds,
            part,
            buffer,
        ) {
            Ok(Part::Written(k)) => {
                rt.write_all(&buffer[..k])?;
                bytes += k;
            }
            Ok(Part::Short(_)) => unreachable!(),
            Ok(Part::End) | Err(_) => return Ok(bytes),
        }
    }
    unreachable!()
}

// Prints the line of a refusal, and returns how many bytes it has.
fn print_refusal(rt: &impl Print, refusal: Refusal, buffer: &mut [u8]) -> io::Result<usize>
    requires { most_bytes ≤ length buffer.old }
    ensures { IfOk result (λ bytes. bytes ≡ length (refusal_line (number refusal.reason) refusal.place)) }
{
    let number = u64::from(refusal.reason.number());
    match listing::refusal_line(number, refusal.place as u64, buffer) {
        Part::Written(k) => {
            rt.write_all(&buffer[..k])?;
            Ok(k)
        }
        Part::Short(_) => unreachable!(),
        Part::End => Ok(0),
    }
}

// Reduces a table, prints what that comes to, and returns how many bytes that has.
fn run(rt: &impl Print, table: &[u8]) -> io::Result<usize>
    ensures { IfOk result (λ bytes. bytes ≡ length (program_listing table.now)) }
{
    let mut entries = [0u8; 18432];
    let mut first = [0u64; 2048];
    let mut second = [0u64; 2048];
    let mut buffer = [0u8; 65536];
    match partition::reduce_table(table, &mut entries, &mut first, &mut second) {
        Ok(counts) => print_listing(rt, table, &entries, &first, counts, &mut buffer),
        Err(refusal) => print_refusal(rt, refusal, &mut buffer),
    }
}

// Reads until the buffer is full or the input ends, and returns how many bytes were read. Goes read by read: `read_exact` does not say how
// many bytes came before the end.
fn read_full<R: Read>(from: &mut R, buffer: &mut [u8]) -> io::Result<usize>
    ensures within { IfOk result (λ n. n ≤ length buffer.new) }
    ensures bytes { IfOk result (λ n. Consumes (R.remaining from.old) (R.remaining from.new) (take n buffer.new)) }
    ensures full { IfOk result (λ n. n < length buffer.new → IsAtEnd (R.remaining from.new)) }
{
    let mut done = 0;
    while done < buffer.len() {
        let n = from.read(&mut buffer[done..])?;
        if n == 0 {
            break;
        }
        done += n;
    }
    Ok(done)
}

fn main(rt: HostRuntime) -> io::Result<()> {
    let mut table = [0u8; 16385];
    let n = read_full(&mut rt.stdin(), &mut table)?;
    run(&rt, &table[..n])?;
    Ok(())
}
