// Selected entries in whole numbers: the calls, a factor's check, and the lookup in a result.
ghost use Rattle.std.specs.Prelude.{◌≡◌, ◌++◌, length, pos};
ghost use Rattle.refusal.specs.Steps.{verdict};
ghost use Rattle.columns.specs.Columns.{bound_steps, column_steps};
ghost use Rattle.result.specs.Lookup.{lookup_of};
ghost use Rattle.selection.specs.Selection.{default_limit};
ghost use Rattle.whole_selection.specs.Call.{whole_call, whole_lent, WholeEntries};
ghost use Rattle.verdicts.specs.Number.{reply_number};
ghost use Rattle.c_replies.specs.Numbers.{selected_numbers, whole_entry_numbers, Shows};
ghost use Rattle.refusal.specs.Refusal.{reply_of};

use c_replies::{SelectedNumbers, WholeEntryNumbers};
use lookup::whole::get_whole;
use verdicts::checked_number;
use whole_entries::checks::check_whole_factor;

// Selected entries in whole numbers with a limit.
#[unsafe(no_mangle)]
pub extern "C" fn redstartgilt_selected_inverse_entries_whole_with_limit(
    n: usize,
    starts: &[u32],
    rows: &[u32],
    values: &[i64],
    dimension: usize,
    request_rows: &[u32],
    request_columns: &[u32],
    limit: usize,
    result_starts: &mut [u32],
    result_rows: &mut [u32],
    result_values: &mut [i64],
    scratch: &mut [u32],
    work: &mut [i64],
) -> SelectedNumbers
    ensures { Shows (λ d. selected_numbers (reply_of d)) (λ d. WholeEntries
        (whole_call n starts.now rows.now values.now dimension request_rows.now request_columns.now limit)
        (whole_lent result_starts.old result_rows.old result_values.old scratch.old work.old) d
        (whole_lent result_starts.new result_rows.new result_values.new scratch.new work.new)) result }
{
    SelectedNumbers::from(whole_entries::selected_inverse_entries_whole_with_limit(
        n,
        starts,
        rows,
        values,
        dimension,
        request_rows,
        request_columns,
        limit,
        result_starts,
        result_rows,
        result_values,
        scratch,
        work,
    ))
}

// Selected entries in whole numbers with the default limit.
#[unsafe(no_mangle)]
pub extern "C" fn redstartgilt_selected_inverse_entries_whole(
    n: usize,
    starts: &[u32],
    rows: &[u32],
    values: &[i64],
    dimension: usize,
    request_rows: &[u32],
    request_columns: &[u32],
    result_starts: &mut [u32],
    result_rows: &mut [u32],
    result_values: &mut [i64],
    scratch: &mut [u32],
    work: &mut [i64],
) -> SelectedNumbers
    ensures { Shows (λ d. selected_numbers (reply_of d)) (λ d. WholeEntries
        (whole_call n starts.now rows.now values.now dimension request_rows.now request_columns.now
        (default_limit rows.now))
        (whole_lent result_starts.old result_rows.old result_values.old scratch.old work.old) d
        (whole_lent result_starts.new result_rows.new result_values.new scratch.new work.new)) result }
{
    SelectedNumbers::from(whole_entries::selected_inverse_entries_whole(
        n,
        starts,
        rows,
        values,
        dimension,
        request_rows,
        request_columns,
        result_starts,
        result_rows,
        result_values,
        scratch,
        work,
    ))
}

// Whether the lists of a factor of whole numbers are well formed.
#[unsafe(no_mangle)]
pub extern "C" fn redstartgilt_check_whole_factor(
    n: usize,
    starts: &[u32],
    rows: &[u32],
    values: &[i64],
) -> u32
    ensures { result ≡ reply_number (verdict (bound_steps n (length rows.now)
        ++ column_steps n starts.now rows.now (length values.now))) }
{
    checked_number(check_whole_factor(n, starts, rows, values.len()))
}

// A lookup in a result of whole numbers.
#[unsafe(no_mangle)]
pub extern "C" fn redstartgilt_get_whole(
    starts: &[u32],
    rows: &[u32],
    values: &[i64],
    row: usize,
    column: usize,
) -> WholeEntryNumbers
    ensures { result ≡ whole_entry_numbers (lookup_of (pos 0) starts.now rows.now values.now row column) }
{
    WholeEntryNumbers::from(get_whole(starts, rows, values, row, column))
}
