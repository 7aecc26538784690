// The finishing steps of a column of the inverse, once its sums are stored: the last step below the diagonal, and the diagonal's entry.
ghost use Rattle.std.specs.Prelude.{◌≡◌, ◌<◌, ◌≤◌, eqb, length};
ghost use Rattle.refusal.specs.Bounds.{max_dimension};
ghost use Rattle.columns.specs.Columns.{row};
ghost use Rattle.exact.specs.PivotCase.{step_below, step_on};
ghost use Rattle.last_steps.specs.DivisorParts.{is_pivot, number};
ghost use Rattle.closure_route.specs.Column.{sum_terms};
ghost use Rattle.closure_route.specs.Sums.{entry_sum};
ghost use Rattle.closure_route.specs.Finish.{SumsFinished, put_if, StoreDiagonalInput};

use super::sums::entry_sum;
use kept_entries::diagonal::first_from;
use last_steps::{Divisor, entry_below, entry_on_diagonal};
use words::at;

// The last step of the sums of column j, whose own part of the inverse and of the result's rows are lent. Rows ascend, so those from the first
// below j on are all below it.
fn finish_column(part: &mut [f64], rows: &[u32], j: usize, divisor: Divisor)
    requires { (length rows.now ≡ length part.old) × (j < max_dimension) }
    ensures { SumsFinished j (step_below (is_pivot divisor) (number divisor)) rows.now 0 (length part.old) part.old part.new }
{
    let first = first_from(j + 1, rows, 0, part.len());
    for q in first..part.len() {
        part[q] = entry_below(divisor, part[q]);
    }
}

// Lends column j's own part of the values, from first to last, to the last step.
pub fn finish_part(
    result_values: &mut [f64],
    rows: &[u32],
    first: usize,
    last: usize,
    j: usize,
    divisor: Divisor,
)
    requires { (first ≤ last) × (last ≤ length result_values.old) × (last ≤ length rows.now) × (j < max_dimension) }
    ensures { SumsFinished j (step_below (is_pivot divisor) (number divisor)) rows.now first last result_values.old result_values.new }
{
    finish_column(
        &mut result_values[first..last],
        &rows[first..last],
        j,
        divisor,
    );
}

// Stores the diagonal's entry of column j at q, where q's row is j.
pub fn store_diagonal(
    n: usize,
    j: usize,
    q: usize,
    s: usize,
    e: usize,
    divisor: Divisor,
    rows: &[u32],
    values: &[f64],
    result_rows: &[u32],
    scratch: &[u32],
    result_values: &mut [f64],
)
    requires { StoreDiagonalInput (sum_terms n j s e rows.now values.now scratch.now) q result_rows.now (length result_values.old) }
    ensures { result_values.new ≡ put_if (eqb (row result_rows.now q) j) result_values.old q
        (step_on (is_pivot divisor) (number divisor) (entry_sum (sum_terms n j s e rows.now values.now scratch.now) result_values.old j)) }
{
    if at(result_rows, q) != j {
        return;
    }
    let sum = entry_sum(n, j, j, s, e, rows, values, scratch, result_values);
    result_values[q] = entry_on_diagonal(divisor, sum);
}
