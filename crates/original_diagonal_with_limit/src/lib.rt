// The diagonal of the inverse in original order with a limit that the caller gives, else after `selected_inverse_diag_with_diagnostics` of uncertainty.rs, before its
// finishing step.
#![tactic(auto)]

ghost use Rattle.std.specs.Prelude.{◌≡◌};
ghost use Rattle.lists.specs.Overwrite.{overwrite};
ghost use Rattle.refusal.specs.Steps.{verdict};
ghost use Rattle.refusal.specs.Refusal.{reply_of};
ghost use Rattle.selection.specs.Selection.{lists, room};
ghost use Rattle.original_diagonal_with_limit.specs.Original.{original_call, original_steps, OriginalDiagonal, WriteOriginalInput, first_entries};

use diagnostics::{SelectedInverseDiagnostics, SelectedInverseStatus};
use factor_check::check_factor;
use fill::fill_entries;
use permutation::order::check_order;
use refusal::Refusal;
use request_marks::diagonals::mark_diagonals;
use selected_checks::check_fill;
use verdicts::check_output;
use words::at;

// Refusals 1 to 7 and 18; the lists lent for writing are judged by their lengths.
fn check_original(
    n: usize,
    starts: &[u32],
    rows: &[u32],
    values: &[f64],
    orig_to_perm: &[u32],
    limit: usize,
    result_starts: usize,
    result_rows: usize,
    result_values: usize,
    scratch: usize,
    output: usize,
) -> Result<(), Refusal>
    ensures { reply_of result ≡ verdict (original_steps (original_call n starts.now rows.now values.now orig_to_perm.now limit)
        (room result_starts result_rows result_values scratch) output) }
{
    check_factor(n, starts, rows, values)?;
    check_order(n, orig_to_perm)?;
    check_fill(
        n,
        starts,
        rows,
        values,
        limit,
        result_starts,
        result_rows,
        result_values,
        scratch,
    )?;
    check_output(n, output)
}

// Element i of the output is the first entry of column orig_to_perm[i], its diagonal.
fn write_original(
    n: usize,
    orig_to_perm: &[u32],
    result_starts: &[u32],
    result_values: &[f64],
    output: &mut [f64],
)
    requires { WriteOriginalInput n orig_to_perm.now result_starts.now result_values.now output.old }
    ensures { output.new ≡ overwrite (first_entries n orig_to_perm.now result_starts.now result_values.now)
        output.old }
{
    for i in 0..n {
        let p = at(orig_to_perm, i);
        let place = at(result_starts, p);
        output[i] = result_values[place];
    }
}

// The diagonal in original order, if the closed set of all diagonals has at most `limit` pairs, else 8. The result lists are filled as by selected entries.
pub fn selected_inverse_diag_with_limit(
    n: usize,
    starts: &[u32],
    rows: &[u32],
    values: &[f64],
    orig_to_perm: &[u32],
    limit: usize,
    result_starts: &mut [u32],
    result_rows: &mut [u32],
    result_values: &mut [f64],
    scratch: &mut [u32],
    output: &mut [f64],
) -> Result<SelectedInverseDiagnostics, Refusal>
    ensures { OriginalDiagonal
        (original_call n starts.now rows.now values.now orig_to_perm.now limit)
        (lists result_starts.old result_rows.old result_values.old scratch.old) output.old result
        (lists result_starts.new result_rows.new result_values.new scratch.new) output.new }
{
    check_original(
        n,
        starts,
        rows,
        values,
        orig_to_perm,
        limit,
        result_starts.len(),
        result_rows.len(),
        result_values.len(),
        scratch.len(),
        output.len(),
    )?;
    let requested_pairs = mark_diagonals(n, scratch);
    let diagnosis = fill_entries(
        n,
        starts,
        rows,
        values,
        None,
        requested_pairs,
        limit,
        result_starts,
        result_rows,
        result_values,
        scratch,
    );
    let status = diagnosis.status;
    match status {
        SelectedInverseStatus::ClosureTooLarge => Err(Refusal::NotCovered),
        SelectedInverseStatus::Complete => {
            write_original(n, orig_to_perm, result_starts, result_values, output);
            Ok(diagnosis)
        }
    }
}
