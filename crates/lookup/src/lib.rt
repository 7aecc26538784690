// The lookup in a selected-inverse result and its diagonal list, after `SparseSelectedInverse::get` and `diag` of uncertainty.rs.
#![tactic(auto)]

pub mod diagonal_list;
pub mod ordered;
pub mod well_formed;
pub mod whole;

ghost use Rattle.std.specs.Prelude.{◌≡◌, length};
ghost use Rattle.refusal.specs.Refusal.{reply_of};
ghost use Rattle.result.specs.Counted.{lookup_looks};
ghost use Rattle.result.specs.Lookup.{lookup};
ghost use Rattle.lookup.specs.DiagonalList.{DiagonalsListed};

use column_search::pair_place::pair_place;
use column_search::result_check::check_result;
use diagonal_list::write_diagonals;
use ordered::{CountedEntry, value_at};
use refusal::Refusal;

// The entry at a row and a column, exchanged if row < column, and how many places the column search looked at.
pub fn get_counted(
    starts: &[u32],
    rows: &[u32],
    values: &[f64],
    row: usize,
    col: usize,
) -> CountedEntry
    ensures result_value { reply_of result.entry ≡ lookup starts.now rows.now values.now row col }
    ensures looks_value { result.looks ≡ lookup_looks starts.now rows.now (length values.now) row col }
{
    let found = pair_place(starts, rows, values.len(), row, col);
    CountedEntry {
        entry: value_at(values, found.place),
        looks: found.looks,
    }
}

// The entry alone.
pub fn get(
    starts: &[u32],
    rows: &[u32],
    values: &[f64],
    row: usize,
    col: usize,
) -> Result<f64, Refusal>
    ensures { reply_of result ≡ lookup starts.now rows.now values.now row col }
{
    get_counted(starts, rows, values, row, col).entry
}

// The diagonal list and its marks, 1 where the lookup finds the pair and 0 where it does not, written to the front of the outputs.
pub fn diag(
    starts: &[u32],
    rows: &[u32],
    values: &[f64],
    output: &mut [f64],
    marks: &mut [u8],
) -> Result<(), Refusal>
    ensures { DiagonalsListed starts.now rows.now values.now output.old marks.old
        (reply_of result) output.new marks.new }
{
    check_result(starts, rows, values.len())?;
    if output.len() < starts.len() - 1 {
        return Err(Refusal::TooShort);
    }
    if marks.len() < starts.len() - 1 {
        return Err(Refusal::TooShort);
    }
    write_diagonals(starts, rows, values, output, marks);
    Ok(())
}
