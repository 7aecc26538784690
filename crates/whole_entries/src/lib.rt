// Selected entries of the inverse of L.Lᵀ in whole numbers, for a factor with ones on its diagonal: exact, or refused where a size exceeds 2^53.
#![tactic(auto)]

pub mod checks;
pub mod filling;

ghost use Rattle.selection.specs.Selection.{default_limit};
ghost use Rattle.whole_selection.specs.Call.{whole_call, whole_lent, WholeEntries};

use checks::check_whole;
use diagnostics::SelectedInverseDiagnostics;
use filling::fill_whole;
use refusal::{MAX_ENTRIES, Refusal};
use selected_checks::default_limit;

// The entries at the closed set of the requests, if it has at most `limit` pairs.
pub fn selected_inverse_entries_whole_with_limit(
    n: usize,
    starts: &[u32],
    rows: &[u32],
    values: &[i64],
    dimension: usize,
    request_rows: &[u32],
    request_columns: &[u32],
    limit: usize,
    result_starts: &mut [u32],
    result_rows: &mut [u32],
    result_values: &mut [i64],
    scratch: &mut [u32],
    work: &mut [i64],
) -> Result<SelectedInverseDiagnostics, Refusal>
    ensures { WholeEntries
        (whole_call n starts.now rows.now values.now dimension request_rows.now request_columns.now limit)
        (whole_lent result_starts.old result_rows.old result_values.old scratch.old work.old) result
        (whole_lent result_starts.new result_rows.new result_values.new scratch.new work.new) }
{
    check_whole(
        n,
        starts,
        rows,
        values,
        dimension,
        request_rows,
        request_columns,
        limit,
        result_starts.len(),
        result_rows.len(),
        result_values.len(),
        scratch.len(),
        work.len(),
    )?;
    fill_whole(
        n,
        starts,
        rows,
        values,
        dimension,
        request_rows,
        request_columns,
        limit,
        result_starts,
        result_rows,
        result_values,
        scratch,
        work,
    )
}

// The same with the default limit: 10 times the stored entries, dropped ones counted. Above the bound on entries there is no limit to compute.
pub fn selected_inverse_entries_whole(
    n: usize,
    starts: &[u32],
    rows: &[u32],
    values: &[i64],
    dimension: usize,
    request_rows: &[u32],
    request_columns: &[u32],
    result_starts: &mut [u32],
    result_rows: &mut [u32],
    result_values: &mut [i64],
    scratch: &mut [u32],
    work: &mut [i64],
) -> Result<SelectedInverseDiagnostics, Refusal>
    ensures { WholeEntries
        (whole_call n starts.now rows.now values.now dimension request_rows.now request_columns.now
        (default_limit rows.now))
        (whole_lent result_starts.old result_rows.old result_values.old scratch.old work.old) result
        (whole_lent result_starts.new result_rows.new result_values.new scratch.new work.new) }
{
    if MAX_ENTRIES < rows.len() {
        return Err(Refusal::TooLarge);
    }
    selected_inverse_entries_whole_with_limit(
        n,
        starts,
        rows,
        values,
        dimension,
        request_rows,
        request_columns,
        default_limit(rows.len()),
        result_starts,
        result_rows,
        result_values,
        scratch,
        work,
    )
}
