// Selected entries of a factor given as L, D, L transposed.
ghost use Rattle.selection.specs.Selection.{lists, default_limit};
ghost use Rattle.selection.specs.LdlCall.{ldl_call};
ghost use Rattle.ldl_entries.specs.LdlEntries.{LdlEntries};
ghost use Rattle.c_replies.specs.Numbers.{selected_numbers, Shows};
ghost use Rattle.refusal.specs.Refusal.{reply_of};

use c_replies::SelectedNumbers;

// Selected entries of L.D.Lᵀ with a limit.
#[unsafe(no_mangle)]
pub extern "C" fn redstartgilt_selected_inverse_entries_ldl_with_limit(
    n: usize,
    starts: &[u32],
    rows: &[u32],
    values: &[f64],
    pivots: &[f64],
    dimension: usize,
    request_rows: &[u32],
    request_columns: &[u32],
    limit: usize,
    result_starts: &mut [u32],
    result_rows: &mut [u32],
    result_values: &mut [f64],
    scratch: &mut [u32],
) -> SelectedNumbers
    ensures { Shows (λ d. selected_numbers (reply_of d)) (λ d. LdlEntries
        (ldl_call n starts.now rows.now values.now pivots.now dimension request_rows.now
        request_columns.now limit)
        (lists result_starts.old result_rows.old result_values.old scratch.old) d
        (lists result_starts.new result_rows.new result_values.new scratch.new)) result }
{
    SelectedNumbers::from(ldl_entries::selected_inverse_entries_ldl_with_limit(
        n,
        starts,
        rows,
        values,
        pivots,
        dimension,
        request_rows,
        request_columns,
        limit,
        result_starts,
        result_rows,
        result_values,
        scratch,
    ))
}

// Selected entries of L.D.Lᵀ with the default limit.
#[unsafe(no_mangle)]
pub extern "C" fn redstartgilt_selected_inverse_entries_ldl(
    n: usize,
    starts: &[u32],
    rows: &[u32],
    values: &[f64],
    pivots: &[f64],
    dimension: usize,
    request_rows: &[u32],
    request_columns: &[u32],
    result_starts: &mut [u32],
    result_rows: &mut [u32],
    result_values: &mut [f64],
    scratch: &mut [u32],
) -> SelectedNumbers
    ensures { Shows (λ d. selected_numbers (reply_of d)) (λ d. LdlEntries
        (ldl_call n starts.now rows.now values.now pivots.now dimension request_rows.now
        request_columns.now (default_limit rows.now))
        (lists result_starts.old result_rows.old result_values.old scratch.old) d
        (lists result_starts.new result_rows.new result_values.new scratch.new)) result }
{
    SelectedNumbers::from(ldl_entries::selected_inverse_entries_ldl(
        n,
        starts,
        rows,
        values,
        pivots,
        dimension,
        request_rows,
        request_columns,
        result_starts,
        result_rows,
        result_values,
        scratch,
    ))
}
