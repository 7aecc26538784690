// Selected entries of the inverse of L.Lᵀ, after `selected_inverse_entries_with_limit` and
// `selected_inverse_entries` of uncertainty.rs.
#![tactic(auto)]

ghost use Rattle.selection.specs.Selection.{lists, default_limit};
ghost use Rattle.selection.specs.Call.{call};
ghost use Rattle.selected.specs.Selected.{SelectedEntries};

use diagnostics::SelectedInverseDiagnostics;
use fill::fill_entries;
use refusal::{MAX_ENTRIES, Refusal};
use request_marks::requests::mark_requests;
use selected_checks::{check_selected, default_limit};

// The entries at the closed set of the requests, if it has at most `limit` pairs.
pub fn selected_inverse_entries_with_limit(
    n: usize,
    starts: &[u32],
    rows: &[u32],
    values: &[f64],
    dimension: usize,
    request_rows: &[u32],
    request_columns: &[u32],
    limit: usize,
    result_starts: &mut [u32],
    result_rows: &mut [u32],
    result_values: &mut [f64],
    scratch: &mut [u32],
) -> Result<SelectedInverseDiagnostics, Refusal>
    ensures { SelectedEntries
        (call n starts.now rows.now values.now dimension request_rows.now request_columns.now limit)
        (lists result_starts.old result_rows.old result_values.old scratch.old) result
        (lists result_starts.new result_rows.new result_values.new scratch.new) }
{
    check_selected(
        n,
        starts,
        rows,
        values,
        dimension,
        request_rows,
        request_columns,
        limit,
        result_starts.len(),
        result_rows.len(),
        result_values.len(),
        scratch.len(),
    )?;
    let requested_pairs = mark_requests(n, request_rows, request_columns, scratch);
    let diagnosis = fill_entries(
        n,
        starts,
        rows,
        values,
        None,
        requested_pairs,
        limit,
        result_starts,
        result_rows,
        result_values,
        scratch,
    );
    Ok(diagnosis)
}

// The same with the default limit: 10 times the stored entries, dropped ones counted. Above the bound on entries there is no limit to compute.
pub fn selected_inverse_entries(
    n: usize,
    starts: &[u32],
    rows: &[u32],
    values: &[f64],
    dimension: usize,
    request_rows: &[u32],
    request_columns: &[u32],
    result_starts: &mut [u32],
    result_rows: &mut [u32],
    result_values: &mut [f64],
    scratch: &mut [u32],
) -> Result<SelectedInverseDiagnostics, Refusal>
    ensures { SelectedEntries
        (call n starts.now rows.now values.now dimension request_rows.now request_columns.now
        (default_limit rows.now))
        (lists result_starts.old result_rows.old result_values.old scratch.old) result
        (lists result_starts.new result_rows.new result_values.new scratch.new) }
{
    if MAX_ENTRIES < rows.len() {
        return Err(Refusal::TooLarge);
    }
    selected_inverse_entries_with_limit(
        n,
        starts,
        rows,
        values,
        dimension,
        request_rows,
        request_columns,
        default_limit(rows.len()),
        result_starts,
        result_rows,
        result_values,
        scratch,
    )
}
