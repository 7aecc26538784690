// The closure of requested pairs under the dependencies of a factor, after `takahashi_dependency_closure` of uncertainty.rs, and its diagnosis.
#![tactic(auto)]

pub mod queue;
pub mod stops;

ghost use Rattle.std.specs.Prelude.{◌≡◌, ◌≤◌, leb, length};
ghost use Rattle.columns.specs.Kept.{pattern};
ghost use Rattle.diagnostics.specs.Diagnosis.{status_of, max_count};
ghost use Rattle.closure.specs.Closure.{ClosureInput, Closes, Diagnoses};

use diagnostics::{
    SelectedInverseDiagnostics, SelectedInverseStatus, selected_inverse_diagnostics,
};
use kept_entries::stored::StoredValue;
use queue::close_queue;
use refusal::MAX_DIMENSION;

// Closes the marked pairs under their dependencies. Returns how many pairs the closed set has, or limit + 1 where it has more. Leaves the closed set's marks, and its columns' stops, where it is within the limit.
pub fn takahashi_dependency_closure<T: StoredValue>(
    n: usize,
    starts: &[u32],
    rows: &[u32],
    values: &[T],
    requested_pairs: usize,
    limit: usize,
    stops: &mut [u32],
    scratch: &mut [u32],
) -> usize
    requires closure_input { ClosureInput n starts.now rows.now (length rows.now) requested_pairs stops.old scratch.old }
    requires values_lent { length rows.now ≤ length values.now }
    ensures { Closes n (pattern starts.now rows.now (T.kept values.now)) limit scratch.old result
        stops.new scratch.new }
{
    if limit < requested_pairs {
        return limit + 1;
    }
    let mut span_starts = [0; MAX_DIMENSION];
    let mut span_ends = [0; MAX_DIMENSION];
    close_queue(
        n,
        starts,
        rows,
        values,
        limit,
        requested_pairs,
        stops,
        &mut span_starts,
        &mut span_ends,
        scratch,
    )
}

// Complete where the count is within the limit.
fn status_within(count: usize, limit: usize) -> SelectedInverseStatus
    ensures { result ≡ status_of (leb count limit) }
{
    if limit < count {
        return SelectedInverseStatus::ClosureTooLarge;
    }
    SelectedInverseStatus::Complete
}

// The diagnosis of a factor's pattern, of a count of kept pairs, the marked pairs and a limit. Leaves in scratch what the closure leaves.
pub fn diagnose<T: StoredValue>(
    n: usize,
    starts: &[u32],
    rows: &[u32],
    values: &[T],
    kept_pairs: usize,
    requested_pairs: usize,
    limit: usize,
    stops: &mut [u32],
    scratch: &mut [u32],
) -> SelectedInverseDiagnostics
    requires kept_pairs_le_max_count { kept_pairs ≤ max_count }
    requires closure_input { ClosureInput n starts.now rows.now (length rows.now) requested_pairs stops.old scratch.old }
    requires values_lent { length rows.now ≤ length values.now }
    ensures { Diagnoses n (pattern starts.now rows.now (T.kept values.now)) kept_pairs limit scratch.old result
        stops.new scratch.new }
{
    let count = takahashi_dependency_closure(
        n,
        starts,
        rows,
        values,
        requested_pairs,
        limit,
        stops,
        scratch,
    );
    selected_inverse_diagnostics(
        requested_pairs,
        count,
        kept_pairs,
        limit,
        status_within(count, limit),
    )
}
