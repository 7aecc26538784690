// The covariances of row pairs of two operators, with a limit that the caller gives.
ghost use Rattle.selection.specs.Selection.{lists};
ghost use Rattle.covariances_with_limit.specs.Covariances.{operator, covariance_call, Covariances};
ghost use Rattle.c_replies.specs.Numbers.{selected_numbers, Shows};
ghost use Rattle.refusal.specs.Refusal.{reply_of};

use c_replies::SelectedNumbers;

// The covariances, with a limit.
#[unsafe(no_mangle)]
pub extern "C" fn redstartgilt_selected_inverse_transformed_covariances_with_limit(
    n: usize,
    starts: &[u32],
    rows: &[u32],
    values: &[f64],
    a_ncols: usize,
    a_row_starts: &[u32],
    a_columns: &[u32],
    a_weights: &[f64],
    b_ncols: usize,
    b_row_starts: &[u32],
    b_columns: &[u32],
    b_weights: &[f64],
    a_rows: &[u32],
    b_rows: &[u32],
    limit: usize,
    result_starts: &mut [u32],
    result_rows: &mut [u32],
    result_values: &mut [f64],
    scratch: &mut [u32],
    output: &mut [f64],
) -> SelectedNumbers
    ensures { Shows (λ d. selected_numbers (reply_of d)) (λ d. Covariances
        (covariance_call n starts.now rows.now values.now
        (operator a_ncols a_row_starts.now a_columns.now a_weights.now)
        (operator b_ncols b_row_starts.now b_columns.now b_weights.now)
        a_rows.now b_rows.now limit)
        (lists result_starts.old result_rows.old result_values.old scratch.old) output.old d
        (lists result_starts.new result_rows.new result_values.new scratch.new) output.new) result }
{
    SelectedNumbers::from(
        covariances_with_limit::selected_inverse_transformed_covariances_with_limit(
            n,
            starts,
            rows,
            values,
            a_ncols,
            a_row_starts,
            a_columns,
            a_weights,
            b_ncols,
            b_row_starts,
            b_columns,
            b_weights,
            a_rows,
            b_rows,
            limit,
            result_starts,
            result_rows,
            result_values,
            scratch,
            output,
        ),
    )
}
