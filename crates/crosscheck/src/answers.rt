// Calls 2 to 7: what each answers, and how it is printed.
use crate::digest::Digest;
use crate::lent::Lent;
use crate::listings::Text;
use crate::questions::{MOST_NUMBERS, Question, State};
use crate::source::{Source, Stop, at_most};
use partition::Reduction;
use std::io::Read;
use std::{fmt, io};
use table::Refusal;

// The most bytes that are lent for entries.
const MOST_ENTRY_BYTES: usize = 37000;

// What a call answers where it refuses nothing.
#[derive(Clone, Copy)]
enum Answer {
    Graph(usize),
    State(usize),
    Blocks(Reduction),
    Pair(bool),
    Judged,
    Listing(Text),
}

impl fmt::Display for Answer {
    fn fmt<W: fmt::Write>(&self, f: &mut fmt::Formatter<W>) -> fmt::Result {
        match *self {
            Answer::Graph(regions) => write!(f, "graph {regions}"),
            Answer::State(region) => write!(f, "state {region}"),
            Answer::Blocks(counts) => {
                let Reduction {
                    regions,
                    blocks,
                    rounds,
                } = counts;
                write!(f, "blocks {regions} {blocks} {rounds}")
            }
            Answer::Pair(shared) => write!(f, "pair {}", u8::from(shared)),
            Answer::Judged => write!(f, "judged 1"),
            Answer::Listing(text) => write!(f, "{text}"),
        }
    }
}

// Prints a refusal: its number and place.
pub(crate) fn print_refusal(rt: &impl Print, refusal: Refusal) -> io::Result<()> {
    print!(rt;
        "refused {} place {}",
        refusal.reason.number(),
        refusal.place
    )
}

fn place(table: &[u8], state: State, entries: &mut [u8]) -> Result<usize, Refusal> {
    let [v0, v1, v2, v3] = state.values;
    states::place_state(
        table,
        entries,
        state.location,
        v0,
        v1,
        v2,
        v3,
        state.denominator,
    )
}

// Runs the call that answers the question.
fn ask(table: &[u8], question: Question, lent: &mut Lent) -> Result<Answer, Refusal> {
    Ok(match question {
        Question::Graph => Answer::Graph(regions::explore_table(table, lent.entries)?),
        Question::Place(state) => Answer::State(place(table, state, lent.entries)?),
        Question::Blocks(_) => {
            Answer::Blocks(partition::reduce_table(table, lent.entries, lent.first, lent.second)?)
        }
        Question::Pair { r, s, .. } => {
            Answer::Pair(partition::pair_table(table, lent.entries, lent.first, lent.second, r, s)?)
        }
        Question::Proposal(_) => {
            let proposal = &mut *lent.first;
            partition::judge_table(table, lent.entries, proposal)?;
            Answer::Judged
        }
        Question::Listing => {
            Answer::Listing(Text::of_table(table, lent.entries, lent.first, lent.second))
        }
    })
}

// Prints what the call answers, what the lent bytes hold after it unless the answer is a listing, and the lists where it writes those.
fn print_answer(
    rt: &impl Print,
    table: &[u8],
    question: Question,
    lent: &mut Lent,
) -> io::Result<()> {
    match ask(table, question, lent) {
        Ok(answer) => print!(rt; "{answer}")?,
        Err(refusal) => print_refusal(rt, refusal)?,
    }
    if !matches!(question, Question::Listing) {
        print!(rt; " entries {}", Digest::EMPTY.with_all(lent.entries))?;
    }
    if matches!(question, Question::Blocks(_) | Question::Pair { .. }) {
        print!(rt; " lists {}", lent.digest_lists())?;
    }
    println!(rt)
}

// Runs the call that answers the question, with so many bytes lent and the lists of its lengths.
pub(crate) fn run<R: Read>(
    rt: &impl Print,
    source: &mut Source<R>,
    table: &[u8],
    question: Question,
    byte: u8,
    entries: usize,
) -> Result<(), Stop> {
    let mut room = [0u8; MOST_ENTRY_BYTES];
    let mut first = [0u64; MOST_NUMBERS];
    let mut second = [0u64; MOST_NUMBERS];
    let lengths = question.lengths();
    let mut lent = Lent {
        entries: &mut room[..at_most(entries, MOST_ENTRY_BYTES)?],
        first: &mut first[..lengths.first],
        second: &mut second[..lengths.second],
    };
    lent.fill(byte);
    if let Question::Proposal(_) = question {
        lent.propose(source)?;
    }
    print_answer(rt, table, question, &mut lent)?;
    Ok(())
}
