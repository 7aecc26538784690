// The starred cases' calls for selected entries, of a factor given.
ghost use Rattle.std.specs.Prelude.{◌≡◌, ◌≤◌, ◌<◌, ◌+◌};
ghost use Rattle.selection.specs.Selection.{room};
ghost use Rattle.selection.specs.Call.{call};
ghost use Rattle.starred_table.specs.Calls.{call_reply};
ghost use Rattle.selected_entry.specs.SelectedEntry.{answer_of, entry_answer};
ghost use Rattle.refusal.specs.Refusal.{reply_of};

use diagnostics::SelectedInverseDiagnostics;
use refusal::Refusal;
use selected::selected_inverse_entries_with_limit;
use selected_entry::{SelectedEntry, selected_inverse_entry_with_limit};

// The call for a factor, in lists of these lengths.
pub fn entries(
    n: usize,
    starts: &[u32],
    rows: &[u32],
    values: &[f64],
    request_rows: &[u32],
    request_columns: &[u32],
    limit: usize,
    total: usize,
    words: usize,
) -> Result<SelectedInverseDiagnostics, Refusal>
    requires { (n < 4) × (total ≤ 6) × (words ≤ 19) }
    ensures { reply_of result
        ≡ call_reply (call n starts.now rows.now values.now n request_rows.now request_columns.now limit)
        (room (n + 1) total total words) }
{
    let mut result_starts = [7u32; 4];
    let mut result_rows = [7u32; 6];
    let mut result_values = [7.0f64; 6];
    let mut scratch = [7u32; 19];
    selected_inverse_entries_with_limit(
        n,
        starts,
        rows,
        values,
        n,
        request_rows,
        request_columns,
        limit,
        &mut result_starts[0..n + 1],
        &mut result_rows[0..total],
        &mut result_values[0..total],
        &mut scratch[0..words],
    )
}

// The entry of a factor at a row and a column, for the requests and limit 3, in lists of these lengths.
pub fn entry(
    n: usize,
    starts: &[u32],
    rows: &[u32],
    values: &[f64],
    request_rows: &[u32],
    request_columns: &[u32],
    row: usize,
    col: usize,
    total: usize,
    words: usize,
) -> SelectedEntry
    requires { (n < 4) × (total ≤ 6) × (words ≤ 19) }
    ensures { answer_of result
        ≡ entry_answer (call n starts.now rows.now values.now n request_rows.now request_columns.now 3)
        (room (n + 1) total total words) row col }
{
    let mut result_starts = [7u32; 4];
    let mut result_rows = [7u32; 6];
    let mut result_values = [7.0f64; 6];
    let mut scratch = [7u32; 19];
    selected_inverse_entry_with_limit(
        n,
        starts,
        rows,
        values,
        n,
        request_rows,
        request_columns,
        3,
        row,
        col,
        &mut result_starts[0..n + 1],
        &mut result_rows[0..total],
        &mut result_values[0..total],
        &mut scratch[0..words],
    )
}
