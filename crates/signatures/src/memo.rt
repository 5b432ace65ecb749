// A memo of the ids of steps by their raw forms, in the cells of a lent slice. Nothing but speed rests on where a raw form is kept.
ghost use Rattle.std.specs.Prelude.{◌*◌, ◌+◌, ◌≤◌, ◌<◌, ◌≡◌, length, get_or, MatchOption};
ghost use Rattle.std.proofs.Math.Seq.{paste};
ghost use Rattle.signatures.specs.Memo.{cells, memo_size, max_raw, Holds, id_of, written};

use crate::mixing::mix;

const CELL: usize = 11;

// Returns the cell of a raw form.
pub(crate) fn cell_of(raw: &[u16]) -> usize
    ensures { result < cells }
{
    (mix(raw) >> 20) as usize
}

// Returns the id that a cell notes for a raw form, if it notes this one.
pub(crate) fn noted(raw: &[u16], cell: usize, memo: &[u16]) -> Option<u16>
    requires { (cell < cells) × (length memo.now ≡ memo_size) × (get_or memo.now (11 * cell) 0 ≤ max_raw + 1) }
    ensures { MatchOption result (¬ (Holds memo.now cell raw.now)) (λ id. Holds memo.now cell raw.now × (id ≡ id_of memo.now cell)) }
{
    let size = usize::from(memo[CELL * cell]);
    if size == 0 {
        return None;
    }
    let start = CELL * cell + 2;
    let end = start + (size - 1);
    if &memo[start..end] == raw {
        Some(memo[CELL * cell + 1])
    } else {
        None
    }
}

// Writes a raw form and its id into a cell.
pub(crate) fn note(raw: &[u16], id: u16, cell: usize, memo: &mut [u16])
    requires { (cell < cells) × (length memo.old ≡ memo_size) × (length raw.now ≤ max_raw) }
    ensures { memo.new ≡ written memo.old cell raw.now id }
{
    memo[CELL * cell] = (raw.len() + 1) as u16;
    memo[CELL * cell + 1] = id;
    let start = CELL * cell + 2;
    let end = start + raw.len();
    memo[start..end].copy_from_slice(raw);
}
