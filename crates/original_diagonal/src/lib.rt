// The diagonal of the inverse in original order, after `selected_inverse_diag_with_diagnostics` of uncertainty.rs, before its finishing step.
#![tactic(auto)]

ghost use Rattle.selection.specs.Selection.{lists};
ghost use Rattle.original_diagonal.specs.Original.{original_call, OriginalDiagonal};

use diagnostics::SelectedInverseDiagnostics;
use original_diagonal_with_limit::selected_inverse_diag_with_limit;
use refusal::{MAX_ENTRIES, Refusal};
use selected_checks::default_limit;

// The diagonal in original order, if the closed set of all diagonals is within the default limit, else 8. The result lists are filled as by selected entries.
// Above the bound on entries there is no limit to compute.
pub fn selected_inverse_diag_with_diagnostics(
    n: usize,
    starts: &[u32],
    rows: &[u32],
    values: &[f64],
    orig_to_perm: &[u32],
    result_starts: &mut [u32],
    result_rows: &mut [u32],
    result_values: &mut [f64],
    scratch: &mut [u32],
    output: &mut [f64],
) -> Result<SelectedInverseDiagnostics, Refusal>
    ensures { OriginalDiagonal
        (original_call n starts.now rows.now values.now orig_to_perm.now)
        (lists result_starts.old result_rows.old result_values.old scratch.old) output.old result
        (lists result_starts.new result_rows.new result_values.new scratch.new) output.new }
{
    if MAX_ENTRIES < rows.len() {
        return Err(Refusal::TooLarge);
    }
    selected_inverse_diag_with_limit(
        n,
        starts,
        rows,
        values,
        orig_to_perm,
        default_limit(rows.len()),
        result_starts,
        result_rows,
        result_values,
        scratch,
        output,
    )
}
