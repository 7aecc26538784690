// The variances of an operator's rows, after `selected_inverse_transformed_diag` of uncertainty.rs, the vector that its loop builds.
#![tactic(auto)]

ghost use Rattle.selection.specs.Selection.{lists};
ghost use Rattle.operator_variances.specs.Transformed.{transformed_call, TransformedDiagonal};

use diagnostics::SelectedInverseDiagnostics;
use operator_variances_with_limit::selected_inverse_transformed_diag_with_limit;
use refusal::{MAX_ENTRIES, Refusal};
use selected_checks::default_limit;

// The value of each row, if the closed set of all rows' pairs is within the default limit. The result lists are filled as by selected entries.
// Above the bound on entries there is no limit to compute.
pub fn selected_inverse_transformed_diag(
    n: usize,
    starts: &[u32],
    rows: &[u32],
    values: &[f64],
    ncols: usize,
    row_starts: &[u32],
    columns: &[u32],
    weights: &[f64],
    result_starts: &mut [u32],
    result_rows: &mut [u32],
    result_values: &mut [f64],
    scratch: &mut [u32],
    output: &mut [f64],
) -> Result<SelectedInverseDiagnostics, Refusal>
    ensures { TransformedDiagonal
        (transformed_call n starts.now rows.now values.now ncols row_starts.now columns.now weights.now)
        (lists result_starts.old result_rows.old result_values.old scratch.old) output.old result
        (lists result_starts.new result_rows.new result_values.new scratch.new) output.new }
{
    if MAX_ENTRIES < rows.len() {
        return Err(Refusal::TooLarge);
    }
    selected_inverse_transformed_diag_with_limit(
        n,
        starts,
        rows,
        values,
        ncols,
        row_starts,
        columns,
        weights,
        default_limit(rows.len()),
        result_starts,
        result_rows,
        result_values,
        scratch,
        output,
    )
}
