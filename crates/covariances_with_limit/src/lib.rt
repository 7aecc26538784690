// The covariances of row pairs of two operators with a limit that the caller gives.
#![tactic(auto)]

pub mod checks;

ghost use Rattle.selection.specs.Selection.{lists};
ghost use Rattle.covariances_with_limit.specs.Covariances.{operator, covariance_call, Covariances};

use checks::check_covariances;
use diagnostics::{SelectedInverseDiagnostics, SelectedInverseStatus};
use fill::fill_lists;
use operator_values::row_pair_values;
use pair_places::scratch::clear_scratch;
use refusal::Refusal;
use request_marks::cross::mark_cross_pairs;

// The value of each row pair, if the closed set of all their columns' pairs has at most `limit` pairs. The result lists are filled as by selected entries.
pub fn selected_inverse_transformed_covariances_with_limit(
    n: usize,
    starts: &[u32],
    rows: &[u32],
    values: &[f64],
    a_ncols: usize,
    a_row_starts: &[u32],
    a_columns: &[u32],
    a_weights: &[f64],
    b_ncols: usize,
    b_row_starts: &[u32],
    b_columns: &[u32],
    b_weights: &[f64],
    a_rows: &[u32],
    b_rows: &[u32],
    limit: usize,
    result_starts: &mut [u32],
    result_rows: &mut [u32],
    result_values: &mut [f64],
    scratch: &mut [u32],
    output: &mut [f64],
) -> Result<SelectedInverseDiagnostics, Refusal>
    ensures { Covariances
        (covariance_call n starts.now rows.now values.now
        (operator a_ncols a_row_starts.now a_columns.now a_weights.now)
        (operator b_ncols b_row_starts.now b_columns.now b_weights.now)
        a_rows.now b_rows.now limit)
        (lists result_starts.old result_rows.old result_values.old scratch.old) output.old result
        (lists result_starts.new result_rows.new result_values.new scratch.new) output.new }
{
    check_covariances(
        n,
        starts,
        rows,
        values,
        a_ncols,
        a_row_starts,
        a_columns,
        a_weights,
        b_ncols,
        b_row_starts,
        b_columns,
        b_weights,
        a_rows,
        b_rows,
        limit,
        result_starts.len(),
        result_rows.len(),
        result_values.len(),
        scratch.len(),
        output.len(),
    )?;
    let requested_pairs = mark_cross_pairs(
        n,
        a_row_starts,
        a_columns,
        b_row_starts,
        b_columns,
        a_rows,
        b_rows,
        scratch,
    );
    let diagnosis = fill_lists(
        n,
        starts,
        rows,
        values,
        None,
        requested_pairs,
        limit,
        result_starts,
        result_rows,
        result_values,
        scratch,
    );
    let status = diagnosis.status;
    match status {
        SelectedInverseStatus::ClosureTooLarge => {
            clear_scratch(n, scratch);
            return Ok(diagnosis);
        }
        SelectedInverseStatus::Complete => {
            row_pair_values(
                n,
                a_row_starts,
                a_columns,
                a_weights,
                b_row_starts,
                b_columns,
                b_weights,
                a_rows,
                b_rows,
                scratch,
                result_values,
                output,
            );
            clear_scratch(n, scratch);
            Ok(diagnosis)
        }
    }
}
