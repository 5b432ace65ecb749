// Call 7: explores a table's regions into lent entries, lists their blocks, and makes the listing part by part, or the line of a refusal.
// Only the length of all bytes and their digest are printed.
use crate::digest::Digest;
use listing::Part;
use std::fmt;

// As many parts as the longest listing has: its first line, 4,096 regions, as many blocks and the totals, and the end.
const PARTS: u64 = 8195;

// How many bytes there were, and their digest.
#[derive(Clone, Copy)]
pub(crate) struct Text {
    length: usize,
    digest: Digest,
}

impl Text {
    const EMPTY: Text = Text {
        length: 0,
        digest: Digest::EMPTY,
    };

    fn push(&mut self, bytes: &[u8]) {
        self.length = self.length.saturating_add(bytes.len());
        self.digest = self.digest.with_all(bytes);
    }

    // The text that the call makes of a table.
    pub(crate) fn of_table(
        table: &[u8],
        entries: &mut [u8],
        first: &mut [u64],
        second: &mut [u64],
    ) -> Text {
        let mut text = Text::EMPTY;
        let mut buffer = [0u8; 65536];
        match partition::reduce_table(table, entries, first, second) {
            Err(refusal) => {
                let number = u64::from(refusal.reason.number());
                let line = listing::refusal_line(number, refusal.place as u64, &mut buffer);
                if let Part::Written(k) = line {
                    text.push(&buffer[..k]);
                }
            }
            Ok(counts) => {
                for part in 0..PARTS {
                    let Ok(Part::Written(k)) = listing::write_part(
                        table,
                        entries,
                        second,
                        counts.regions as u64,
                        counts.blocks,
                        counts.rounds,
                        part,
                        &mut buffer,
                    ) else {
                        break;
                    };
                    text.push(&buffer[..k]);
                }
            }
        }
        text
    }
}

impl fmt::Display for Text {
    fn fmt<W: fmt::Write>(&self, f: &mut fmt::Formatter<W>) -> fmt::Result {
        let Text { length, digest } = *self;
        write!(f, "listing {length} digest {digest}")
    }
}
