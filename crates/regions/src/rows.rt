// The edges of a model as rows of numbers.
ghost use Rattle.std.specs.Prelude.{ℕ, ◌+◌, ◌*◌, ◌%◌, ◌≤◌, ◌<◌, ◌≡◌, length, set};
ghost use Rattle.table.specs.Model.{Model};
ghost use Rattle.table.specs.Reads.{ReadsEdge, edge_of};
ghost use Rattle.regions.specs.Of.{Of};
ghost use Rattle.regions.specs.Filling.{Before, Fitting, RowTo, RowsTo, three_set};

use crate::prepared::Prepared;
use table::Edge;

pub(crate) const MAX_BRANCHES: usize = 8;

pub(crate) const ROW: usize = 32;

// Stores a number, its lowest 16 bits, where the list has room for it.
pub(crate) fn store(list: &mut [u16], at: usize, number: usize)
    ensures { list.new ≡ set list.old at (number % 65536) }
{
    slices::put(list, at, (number % 65536) as u16);
}

// Stores three numbers from a place on.
fn store_three(list: &mut [u16], at: usize, a: usize, b: usize, c: usize)
    requires { at + 3 ≤ length list.old }
    ensures { list.new ≡ three_set list.old at (a % 65536) (b % 65536) (c % 65536) }
{
    store(list, at, a);
    store(list, at + 1, b);
    store(list, at + 2, c);
}

// Stores the row of the edge at a place: its action, its denominator, how many branches it has, and three numbers for each.
fn show_row(bytes: &[u8], place: usize, edge: Edge, at: usize, rows: &mut [u16])
    requires { at + 32 ≤ length rows.old }
    ensures before { Before at rows.old rows.new }
    ensures row_to { (m : Model) (e : ℕ) → ReadsEdge bytes.now place m e → Fitting (edge_of m e)
        → edge.action ≡ (edge_of m e).action → edge.denominator ≡ (edge_of m e).denominator
        → RowTo (edge_of m e) at (length (edge_of m e).branches) rows.new }
{
    let branches = table::branch_count(bytes, place).min(MAX_BRANCHES);
    let action = usize::from(edge.action);
    store_three(rows, at, action, edge.denominator as usize, branches);
    for i in 0..branches {
        let b = table::branch_at(bytes, place, i);
        store_three(
            rows,
            at + 3 + 3 * i,
            b.weight,
            usize::from(b.mask),
            usize::from(b.target),
        );
    }
}

// Stores the rows of all edges.
pub(crate) fn show_rows(model: &Prepared, rows: &mut [u16])
    requires { 128 * 32 ≤ length rows.old }
    ensures { (m : Model) → Of model.now m → RowsTo m (length m.edges) rows.new }
{
    for e in 0..model.edge_count() {
        show_row(model.bytes, model.place(e), model.edge(e), ROW * e, rows);
    }
}
