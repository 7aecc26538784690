// Calls that fill result lists.
ghost use Rattle.selection.specs.Selection.{lists, default_limit};
ghost use Rattle.selection.specs.Call.{call};
ghost use Rattle.selected.specs.Selected.{SelectedEntries};
ghost use Rattle.original_diagonal.specs.Original.{original_call, OriginalDiagonal};
ghost use Rattle.operator_variances.specs.Transformed.{transformed_call, TransformedDiagonal};
ghost use Rattle.covariances.specs.Covariances.{operator, covariance_call, Covariances};
ghost use Rattle.c_replies.specs.Numbers.{selected_numbers, Shows};
ghost use Rattle.refusal.specs.Refusal.{reply_of};

use c_replies::SelectedNumbers;

// Selected entries with a limit.
#[unsafe(no_mangle)]
pub extern "C" fn redstartgilt_selected_inverse_entries_with_limit(
    n: usize,
    starts: &[u32],
    rows: &[u32],
    values: &[f64],
    dimension: usize,
    request_rows: &[u32],
    request_columns: &[u32],
    limit: usize,
    result_starts: &mut [u32],
    result_rows: &mut [u32],
    result_values: &mut [f64],
    scratch: &mut [u32],
) -> SelectedNumbers
    ensures { Shows (λ d. selected_numbers (reply_of d)) (λ d. SelectedEntries
        (call n starts.now rows.now values.now dimension request_rows.now request_columns.now limit)
        (lists result_starts.old result_rows.old result_values.old scratch.old) d
        (lists result_starts.new result_rows.new result_values.new scratch.new)) result }
{
    SelectedNumbers::from(selected::selected_inverse_entries_with_limit(
        n,
        starts,
        rows,
        values,
        dimension,
        request_rows,
        request_columns,
        limit,
        result_starts,
        result_rows,
        result_values,
        scratch,
    ))
}

// Selected entries with the default limit.
#[unsafe(no_mangle)]
pub extern "C" fn redstartgilt_selected_inverse_entries(
    n: usize,
    starts: &[u32],
    rows: &[u32],
    values: &[f64],
    dimension: usize,
    request_rows: &[u32],
    request_columns: &[u32],
    result_starts: &mut [u32],
    result_rows: &mut [u32],
    result_values: &mut [f64],
    scratch: &mut [u32],
) -> SelectedNumbers
    ensures { Shows (λ d. selected_numbers (reply_of d)) (λ d. SelectedEntries
        (call n starts.now rows.now values.now dimension request_rows.now request_columns.now (default_limit rows.now))
        (lists result_starts.old result_rows.old result_values.old scratch.old) d
        (lists result_starts.new result_rows.new result_values.new scratch.new)) result }
{
    SelectedNumbers::from(selected::selected_inverse_entries(
        n,
        starts,
        rows,
        values,
        dimension,
        request_rows,
        request_columns,
        result_starts,
        result_rows,
        result_values,
        scratch,
    ))
}

// The diagonal in original order.
#[unsafe(no_mangle)]
pub extern "C" fn redstartgilt_selected_inverse_diag_with_diagnostics(
    n: usize,
    starts: &[u32],
    rows: &[u32],
    values: &[f64],
    orig_to_perm: &[u32],
    result_starts: &mut [u32],
    result_rows: &mut [u32],
    result_values: &mut [f64],
    scratch: &mut [u32],
    output: &mut [f64],
) -> SelectedNumbers
    ensures { Shows (λ d. selected_numbers (reply_of d)) (λ d. OriginalDiagonal
        (original_call n starts.now rows.now values.now orig_to_perm.now)
        (lists result_starts.old result_rows.old result_values.old scratch.old) output.old d
        (lists result_starts.new result_rows.new result_values.new scratch.new) output.new) result }
{
    SelectedNumbers::from(original_diagonal::selected_inverse_diag_with_diagnostics(
        n,
        starts,
        rows,
        values,
        orig_to_perm,
        result_starts,
        result_rows,
        result_values,
        scratch,
        output,
    ))
}

// The variances of an operator's rows.
#[unsafe(no_mangle)]
pub extern "C" fn redstartgilt_selected_inverse_transformed_diag(
    n: usize,
    starts: &[u32],
    rows: &[u32],
    values: &[f64],
    ncols: usize,
    row_starts: &[u32],
    columns: &[u32],
    weights: &[f64],
    result_starts: &mut [u32],
    result_rows: &mut [u32],
    result_values: &mut [f64],
    scratch: &mut [u32],
    output: &mut [f64],
) -> SelectedNumbers
    ensures { Shows (λ d. selected_numbers (reply_of d)) (λ d. TransformedDiagonal
        (transformed_call n starts.now rows.now values.now ncols row_starts.now columns.now weights.now)
        (lists result_starts.old result_rows.old result_values.old scratch.old) output.old d
        (lists result_starts.new result_rows.new result_values.new scratch.new) output.new) result }
{
    SelectedNumbers::from(operator_variances::selected_inverse_transformed_diag(
        n,
        starts,
        rows,
        values,
        ncols,
        row_starts,
        columns,
        weights,
        result_starts,
        result_rows,
        result_values,
        scratch,
        output,
    ))
}

// The covariances of row pairs of two operators.
#[unsafe(no_mangle)]
pub extern "C" fn redstartgilt_selected_inverse_transformed_covariances(
    n: usize,
    starts: &[u32],
    rows: &[u32],
    values: &[f64],
    a_ncols: usize,
    a_row_starts: &[u32],
    a_columns: &[u32],
    a_weights: &[f64],
    b_ncols: usize,
    b_row_starts: &[u32],
    b_columns: &[u32],
    b_weights: &[f64],
    a_rows: &[u32],
    b_rows: &[u32],
    result_starts: &mut [u32],
    result_rows: &mut [u32],
    result_values: &mut [f64],
    scratch: &mut [u32],
    output: &mut [f64],
) -> SelectedNumbers
    ensures { Shows (λ d. selected_numbers (reply_of d)) (λ d. Covariances
        (covariance_call n starts.now rows.now values.now
        (operator a_ncols a_row_starts.now a_columns.now a_weights.now)
        (operator b_ncols b_row_starts.now b_columns.now b_weights.now)
        a_rows.now b_rows.now)
        (lists result_starts.old result_rows.old result_values.old scratch.old) output.old d
        (lists result_starts.new result_rows.new result_values.new scratch.new) output.new) result }
{
    SelectedNumbers::from(covariances::selected_inverse_transformed_covariances(
        n,
        starts,
        rows,
        values,
        a_ncols,
        a_row_starts,
        a_columns,
        a_weights,
        b_ncols,
        b_row_starts,
        b_columns,
        b_weights,
        a_rows,
        b_rows,
        result_starts,
        result_rows,
        result_values,
        scratch,
        output,
    ))
}
