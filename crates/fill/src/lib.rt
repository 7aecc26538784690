// Filling result lists: what every call does past its checks, once the requested pairs are marked. Closing, layout and clearing are the same for a
// factor in either form, L.Lᵀ or with pivots L.D.Lᵀ; the last steps of an entry differ.
#![tactic(auto)]

pub mod kept_pattern;
pub mod routes;

ghost use Rattle.columns.specs.Columns.{factor_lists};
ghost use Rattle.columns.specs.Form.{form_of};
ghost use Rattle.selection.specs.Selection.{lists};
ghost use Rattle.fill.specs.Fill.{FillInput, Fills, FillsLists};

use closure::diagnose;
use diagnostics::{SelectedInverseDiagnostics, SelectedInverseStatus};
use kept_entries::kept_pairs;
use layout::lay_out;
use pair_places::scratch::clear_scratch;
use refusal::MAX_DIMENSION;
use routes::takahashi_selected_inverse;

// The diagnosis; where the closed set of the marked pairs is within the limit the result lists are filled, and the scratch ends with the
// positions of its members.
pub fn fill_lists(
    n: usize,
    starts: &[u32],
    rows: &[u32],
    values: &[f64],
    pivots: Option<&[f64]>,
    requested_pairs: usize,
    limit: usize,
    result_starts: &mut [u32],
    result_rows: &mut [u32],
    result_values: &mut [f64],
    scratch: &mut [u32],
) -> SelectedInverseDiagnostics
    requires { FillInput (form_of pivots) (factor_lists n starts.now rows.now values.now) requested_pairs limit
        (lists result_starts.old result_rows.old result_values.old scratch.old) }
    ensures { FillsLists (form_of pivots.entry) (factor_lists n starts.now rows.now values.now) limit
        (lists result_starts.old result_rows.old result_values.old scratch.old) result
        (lists result_starts.new result_rows.new result_values.new scratch.new) }
{
    let kept = kept_pairs(n, starts, rows, values, pivots);
    let mut stops = [0; MAX_DIMENSION];
    let diagnosis = diagnose(
        n,
        starts,
        rows,
        values,
        kept,
        requested_pairs,
        limit,
        &mut stops,
        scratch,
    );
    let status = diagnosis.status;
    match status {
        SelectedInverseStatus::Complete => {
            lay_out(n, &stops, result_starts, result_rows, scratch);
            takahashi_selected_inverse(
                n,
                starts,
                rows,
                values,
                pivots,
                diagnosis.factor_pairs,
                diagnosis.closure_pairs,
                result_starts,
                result_rows,
                result_values,
                scratch,
            );
            diagnosis
        }
        SelectedInverseStatus::ClosureTooLarge => diagnosis,
    }
}

// The same, and the scratch ends cleared.
pub fn fill_entries(
    n: usize,
    starts: &[u32],
    rows: &[u32],
    values: &[f64],
    pivots: Option<&[f64]>,
    requested_pairs: usize,
    limit: usize,
    result_starts: &mut [u32],
    result_rows: &mut [u32],
    result_values: &mut [f64],
    scratch: &mut [u32],
) -> SelectedInverseDiagnostics
    requires { FillInput (form_of pivots) (factor_lists n starts.now rows.now values.now) requested_pairs limit
        (lists result_starts.old result_rows.old result_values.old scratch.old) }
    ensures { Fills (form_of pivots.entry) (factor_lists n starts.now rows.now values.now) limit
        (lists result_starts.old result_rows.old result_values.old scratch.old) result
        (lists result_starts.new result_rows.new result_values.new scratch.new) }
{
    let diagnosis = fill_lists(
        n,
        starts,
        rows,
        values,
        pivots,
        requested_pairs,
        limit,
        result_starts,
        result_rows,
        result_values,
        scratch,
    );
    clear_scratch(n, scratch);
    diagnosis
}
