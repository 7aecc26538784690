// The variances of an operator's rows with a limit that the caller gives, else after `selected_inverse_transformed_diag` of uncertainty.rs, the vector that its loop
// builds.
#![tactic(auto)]

ghost use Rattle.std.specs.Prelude.{◌≡◌, [], ◌∷◌, not, eqb};
ghost use Rattle.refusal.specs.Steps.{verdict};
ghost use Rattle.refusal.specs.Refusal.{reply_of};
ghost use Rattle.selection.specs.Selection.{lists, room};
ghost use Rattle.operator_variances_with_limit.specs.Transformed.{transformed_call, transformed_steps, TransformedDiagonal};

use diagnostics::{SelectedInverseDiagnostics, SelectedInverseStatus};
use factor_check::bounds::check_bounds;
use factor_check::check_stored;
use fill::fill_lists;
use operator_check::{check_operator, check_operator_bounds, operator_rows};
use operator_values::operator_values;
use pair_places::scratch::clear_scratch;
use refusal::Refusal;
use request_marks::operator::mark_operator_pairs;
use selected_checks::check_fill;
use verdicts::check_output;

// 4: the operator's columns are n.
fn check_column_count(ncols: usize, n: usize) -> Result<(), Refusal>
    ensures { reply_of result ≡ verdict ((4, not (eqb ncols n)) ∷ []) }
{
    if ncols != n {
        return Err(Refusal::DimensionMismatch);
    }
    Ok(())
}

// Refusals 1 to 7 and 18; the lists lent for writing are judged by their lengths.
fn check_transformed(
    n: usize,
    starts: &[u32],
    rows: &[u32],
    values: &[f64],
    ncols: usize,
    row_starts: &[u32],
    columns: &[u32],
    weights: &[f64],
    limit: usize,
    result_starts: usize,
    result_rows: usize,
    result_values: usize,
    scratch: usize,
    output: usize,
) -> Result<(), Refusal>
    ensures { reply_of result ≡ verdict (transformed_steps
        (transformed_call n starts.now rows.now values.now ncols row_starts.now columns.now weights.now limit)
        (room result_starts result_rows result_values scratch) output) }
{
    check_bounds(n, rows.len())?;
    check_operator_bounds(row_starts, columns)?;
    check_stored(n, starts, rows, values)?;
    check_column_count(ncols, n)?;
    check_operator(n, row_starts, columns, weights.len())?;
    check_fill(
        n,
        starts,
        rows,
        values,
        limit,
        result_starts,
        result_rows,
        result_values,
        scratch,
    )?;
    check_output(operator_rows(row_starts), output)
}

// The value of each row, if the closed set of all rows' pairs has at most `limit` pairs. The result lists are filled as by selected entries.
pub fn selected_inverse_transformed_diag_with_limit(
    n: usize,
    starts: &[u32],
    rows: &[u32],
    values: &[f64],
    ncols: usize,
    row_starts: &[u32],
    columns: &[u32],
    weights: &[f64],
    limit: usize,
    result_starts: &mut [u32],
    result_rows: &mut [u32],
    result_values: &mut [f64],
    scratch: &mut [u32],
    output: &mut [f64],
) -> Result<SelectedInverseDiagnostics, Refusal>
    ensures { TransformedDiagonal
        (transformed_call n starts.now rows.now values.now ncols row_starts.now columns.now weights.now limit)
        (lists result_starts.old result_rows.old result_values.old scratch.old) output.old result
        (lists result_starts.new result_rows.new result_values.new scratch.new) output.new }
{
    check_transformed(
        n,
        starts,
        rows,
        values,
        ncols,
        row_starts,
        columns,
        weights,
        limit,
        result_starts.len(),
        result_rows.len(),
        result_values.len(),
        scratch.len(),
        output.len(),
    )?;
    let requested_pairs = mark_operator_pairs(n, row_starts, columns, scratch);
    let diagnosis = fill_lists(
        n,
        starts,
        rows,
        values,
        None,
        requested_pairs,
        limit,
        result_starts,
        result_rows,
        result_values,
        scratch,
    );
    let status = diagnosis.status;
    match status {
        SelectedInverseStatus::ClosureTooLarge => {
            clear_scratch(n, scratch);
            return Ok(diagnosis);
        }
        SelectedInverseStatus::Complete => {
            operator_values(
                n,
                row_starts,
                columns,
                weights,
                scratch,
                result_values,
                output,
            );
            clear_scratch(n, scratch);
            Ok(diagnosis)
        }
    }
}
