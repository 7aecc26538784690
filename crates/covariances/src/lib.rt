// The covariances of row pairs of two operators.
#![tactic(auto)]

ghost use Rattle.selection.specs.Selection.{lists};
ghost use Rattle.covariances.specs.Covariances.{operator, covariance_call, Covariances};

use covariances_with_limit::selected_inverse_transformed_covariances_with_limit;
use diagnostics::SelectedInverseDiagnostics;
use refusal::{MAX_ENTRIES, Refusal};
use selected_checks::default_limit;

// The value of each row pair, if the closed set of all their columns' pairs is within the default limit. The result lists are filled as by selected entries.
// Above the bound on entries there is no limit to compute.
pub fn selected_inverse_transformed_covariances(
    n: usize,
    starts: &[u32],
    rows: &[u32],
    values: &[f64],
    a_ncols: usize,
    a_row_starts: &[u32],
    a_columns: &[u32],
    a_weights: &[f64],
    b_ncols: usize,
    b_row_starts: &[u32],
    b_columns: &[u32],
    b_weights: &[f64],
    a_rows: &[u32],
    b_rows: &[u32],
    result_starts: &mut [u32],
    result_rows: &mut [u32],
    result_values: &mut [f64],
    scratch: &mut [u32],
    output: &mut [f64],
) -> Result<SelectedInverseDiagnostics, Refusal>
    ensures { Covariances
        (covariance_call n starts.now rows.now values.now
        (operator a_ncols a_row_starts.now a_columns.now a_weights.now)
        (operator b_ncols b_row_starts.now b_columns.now b_weights.now)
        a_rows.now b_rows.now)
        (lists result_starts.old result_rows.old result_values.old scratch.old) output.old result
        (lists result_starts.new result_rows.new result_values.new scratch.new) output.new }
{
    if MAX_ENTRIES < rows.len() {
        return Err(Refusal::TooLarge);
    }
    selected_inverse_transformed_covariances_with_limit(
        n,
        starts,
        rows,
        values,
        a_ncols,
        a_row_starts,
        a_columns,
        a_weights,
        b_ncols,
        b_row_starts,
        b_columns,
        b_weights,
        a_rows,
        b_rows,
        default_limit(rows.len()),
        result_starts,
        result_rows,
        result_values,
        scratch,
        output,
    )
}
