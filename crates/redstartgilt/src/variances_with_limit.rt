// The diagonal in original order, and the variances of an operator's rows, with a limit that the caller gives.
ghost use Rattle.selection.specs.Selection.{lists};
ghost use Rattle.original_diagonal_with_limit.specs.Original.{original_call, OriginalDiagonal};
ghost use Rattle.operator_variances_with_limit.specs.Transformed.{transformed_call, TransformedDiagonal};
ghost use Rattle.c_replies.specs.Numbers.{selected_numbers, Shows};
ghost use Rattle.refusal.specs.Refusal.{reply_of};

use c_replies::SelectedNumbers;

// The diagonal in original order, with a limit.
#[unsafe(no_mangle)]
pub extern "C" fn redstartgilt_selected_inverse_diag_with_limit(
    n: usize,
    starts: &[u32],
    rows: &[u32],
    values: &[f64],
    orig_to_perm: &[u32],
    limit: usize,
    result_starts: &mut [u32],
    result_rows: &mut [u32],
    result_values: &mut [f64],
    scratch: &mut [u32],
    output: &mut [f64],
) -> SelectedNumbers
    ensures { Shows (λ d. selected_numbers (reply_of d)) (λ d. OriginalDiagonal
        (original_call n starts.now rows.now values.now orig_to_perm.now limit)
        (lists result_starts.old result_rows.old result_values.old scratch.old) output.old d
        (lists result_starts.new result_rows.new result_values.new scratch.new) output.new) result }
{
    SelectedNumbers::from(
        original_diagonal_with_limit::selected_inverse_diag_with_limit(
            n,
            starts,
            rows,
            values,
            orig_to_perm,
            limit,
            result_starts,
            result_rows,
            result_values,
            scratch,
            output,
        ),
    )
}

// The variances of an operator's rows, with a limit.
#[unsafe(no_mangle)]
pub extern "C" fn redstartgilt_selected_inverse_transformed_diag_with_limit(
    n: usize,
    starts: &[u32],
    rows: &[u32],
    values: &[f64],
    ncols: usize,
    row_starts: &[u32],
    columns: &[u32],
    weights: &[f64],
    limit: usize,
    result_starts: &mut [u32],
    result_rows: &mut [u32],
    result_values: &mut [f64],
    scratch: &mut [u32],
    output: &mut [f64],
) -> SelectedNumbers
    ensures { Shows (λ d. selected_numbers (reply_of d)) (λ d. TransformedDiagonal
        (transformed_call n starts.now rows.now values.now ncols row_starts.now columns.now weights.now limit)
        (lists result_starts.old result_rows.old result_values.old scratch.old) output.old d
        (lists result_starts.new result_rows.new result_values.new scratch.new) output.new) result }
{
    SelectedNumbers::from(
        operator_variances_with_limit::selected_inverse_transformed_diag_with_limit(
            n,
            starts,
            rows,
            values,
            ncols,
            row_starts,
            columns,
            weights,
            limit,
            result_starts,
            result_rows,
            result_values,
            scratch,
            output,
        ),
    )
}
