// One selected entry: the call for selected entries, then the lookup of a pair in its result. Its contract holds the exact case.
#![tactic(auto)]

ghost use Rattle.selection.specs.Selection.{lists, default_limit};
ghost use Rattle.selection.specs.Call.{call};
ghost use Rattle.selected_entry.specs.SelectedEntry.{LookUpInput, LookUpResult, ReadEntry};

use diagnostics::{SelectedInverseDiagnostics, SelectedInverseStatus};
use lookup::get;
use refusal::Refusal;
use selected::{selected_inverse_entries, selected_inverse_entries_with_limit};

// What the lookup finds, or why there is no result; `answer_of` of specs/SelectedEntry.antt gives the number and value of each case.
#[derive(Clone, Copy)]
pub enum SelectedEntry {
    Found(Result<f64, Refusal>),
    ClosureTooLarge,
    Refused(Refusal),
}

// The lookup after a call's answer.
fn look_up(
    n: usize,
    answer: Result<SelectedInverseDiagnostics, Refusal>,
    result_starts: &[u32],
    result_rows: &[u32],
    result_values: &[f64],
    row: usize,
    col: usize,
) -> SelectedEntry
    requires { LookUpInput n result_starts.now answer }
    ensures { LookUpResult n row col result_starts.now result_rows.now result_values.now answer result }
{
    match answer {
        Err(why) => SelectedEntry::Refused(why),
        Ok(diagnosis) => {
            let status = diagnosis.status;
            match status {
                SelectedInverseStatus::ClosureTooLarge => SelectedEntry::ClosureTooLarge,
                SelectedInverseStatus::Complete => {
                    let end = n + 1;
                    let entry = get(&result_starts[0..end], result_rows, result_values, row, col);
                    SelectedEntry::Found(entry)
                }
            }
        }
    }
}

// The entry at a row and a column, of those selected by the requests.
pub fn selected_inverse_entry_with_limit(
    n: usize,
    starts: &[u32],
    rows: &[u32],
    values: &[f64],
    dimension: usize,
    request_rows: &[u32],
    request_columns: &[u32],
    limit: usize,
    row: usize,
    col: usize,
    result_starts: &mut [u32],
    result_rows: &mut [u32],
    result_values: &mut [f64],
    scratch: &mut [u32],
) -> SelectedEntry
    ensures { ReadEntry
        (call n starts.now rows.now values.now dimension request_rows.now request_columns.now limit)
        (lists result_starts.old result_rows.old result_values.old scratch.old) row col result
        (lists result_starts.new result_rows.new result_values.new scratch.new) }
{
    let answer = selected_inverse_entries_with_limit(
        n,
        starts,
        rows,
        values,
        dimension,
        request_rows,
        request_columns,
        limit,
        result_starts,
        result_rows,
        result_values,
        scratch,
    );
    look_up(
        n,
        answer,
        result_starts,
        result_rows,
        result_values,
        row,
        col,
    )
}

// The same with the default limit.
pub fn selected_inverse_entry(
    n: usize,
    starts: &[u32],
    rows: &[u32],
    values: &[f64],
    dimension: usize,
    request_rows: &[u32],
    request_columns: &[u32],
    row: usize,
    col: usize,
    result_starts: &mut [u32],
    result_rows: &mut [u32],
    result_values: &mut [f64],
    scratch: &mut [u32],
) -> SelectedEntry
    ensures { ReadEntry
        (call n starts.now rows.now values.now dimension request_rows.now request_columns.now (default_limit rows.now))
        (lists result_starts.old result_rows.old result_values.old scratch.old) row col result
        (lists result_starts.new result_rows.new result_values.new scratch.new) }
{
    let answer = selected_inverse_entries(
        n,
        starts,
        rows,
        values,
        dimension,
        request_rows,
        request_columns,
        result_starts,
        result_rows,
        result_values,
        scratch,
    );
    look_up(
        n,
        answer,
        result_starts,
        result_rows,
        result_values,
        row,
        col,
    )
}
