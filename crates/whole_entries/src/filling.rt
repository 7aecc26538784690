// Filling result lists in whole numbers: what a call does past its checks. The result lists are written only once the last size is known.
ghost use Rattle.refusal.specs.Steps.{Passed};
ghost use Rattle.columns.specs.Columns.{factor_lists};
ghost use Rattle.whole_selection.specs.Call.{whole_call, whole_lent, whole_room_of, check_steps, WholeEntries};
ghost use Rattle.whole_selection.specs.Accepted.{WholeAccepted};
ghost use Rattle.whole_entries.specs.Filling.{SetInput, SetDone, CompleteInput, CompleteDone, Uncleared};

use closure::diagnose;
use diagnostics::{SelectedInverseDiagnostics, SelectedInverseStatus};
use factor_check::sizes::kept_beyond;
use kept_entries::factor_pairs;
use layout::firsts::lay_firsts;
use layout::lay_out;
use pair_places::pair_total;
use pair_places::scratch::clear_scratch;
use refusal::{MAX_DIMENSION, Refusal};
use request_marks::requests::mark_requests;
use whole_route::whole_selected_inverse;
use whole_steps::whole_lists::{clear_wholes, copy_wholes};

// Whether a kept entry, or the exact recurrence over the marked set, exceeds 2^53; if not, the entries stand in `work` at their positions.
fn set_exceeds(
    n: usize,
    starts: &[u32],
    rows: &[u32],
    values: &[i64],
    reached: &[u32],
    scratch: &mut [u32],
    work: &mut [i64],
) -> bool
    requires { SetInput (factor_lists n starts.now rows.now values.now) reached.now scratch.old work.old }
    ensures { SetDone (factor_lists n starts.now rows.now values.now) scratch.old work.old
        scratch.new work.new result }
{
    if kept_beyond(n, starts, rows, values) {
        return true;
    }
    let mut firsts = [0; MAX_DIMENSION];
    let mut listed = [0; MAX_DIMENSION];
    let count = lay_firsts(n, reached, &mut firsts, &mut listed, scratch);
    whole_selected_inverse(
        n,
        starts,
        rows,
        values,
        count,
        &firsts,
        &mut listed,
        scratch,
        work,
    )
}

// The same, and if nothing exceeds 2^53 the result lists are filled.
fn fill_complete(
    n: usize,
    starts: &[u32],
    rows: &[u32],
    values: &[i64],
    reached: &[u32],
    result_starts: &mut [u32],
    result_rows: &mut [u32],
    result_values: &mut [i64],
    scratch: &mut [u32],
    work: &mut [i64],
) -> bool
    requires { CompleteInput (factor_lists n starts.now rows.now values.now) reached.now
        (whole_lent result_starts.old result_rows.old result_values.old scratch.old work.old) }
    ensures { CompleteDone (factor_lists n starts.now rows.now values.now)
        (whole_lent result_starts.old result_rows.old result_values.old scratch.old work.old)
        (whole_lent result_starts.new result_rows.new result_values.new scratch.new work.new) result }
{
    if set_exceeds(n, starts, rows, values, reached, scratch, work) {
        return true;
    }
    let count = lay_out(n, reached, result_starts, result_rows, scratch);
    copy_wholes(work, result_values, count);
    false
}

// The reply; where the closed set of the requests is within the limit and nothing exceeds 2^53 the result lists are filled. Scratch and work list are
// left as used.
fn fill_requested(
    n: usize,
    starts: &[u32],
    rows: &[u32],
    values: &[i64],
    dimension: usize,
    request_rows: &[u32],
    request_columns: &[u32],
    limit: usize,
    result_starts: &mut [u32],
    result_rows: &mut [u32],
    result_values: &mut [i64],
    scratch: &mut [u32],
    work: &mut [i64],
) -> Result<SelectedInverseDiagnostics, Refusal>
    requires { WholeAccepted
        (whole_call n starts.now rows.now values.now dimension request_rows.now request_columns.now limit)
        (whole_room_of (whole_lent result_starts.old result_rows.old result_values.old scratch.old work.old)) }
    ensures { Uncleared
        (whole_call n starts.now rows.now values.now dimension request_rows.now request_columns.now limit)
        (whole_lent result_starts.old result_rows.old result_values.old scratch.old work.old) result
        (whole_lent result_starts.new result_rows.new result_values.new scratch.new work.new) }
{
    let requested_pairs = mark_requests(n, request_rows, request_columns, scratch);
    let kept_pairs = factor_pairs(n, starts, rows, values);
    let mut stops = [0; MAX_DIMENSION];
    let diagnosis = diagnose(
        n,
        starts,
        rows,
        values,
        kept_pairs,
        requested_pairs,
        limit,
        &mut stops,
        scratch,
    );
    let status = diagnosis.status;
    match status {
        SelectedInverseStatus::Complete => {
            if fill_complete(
                n,
                starts,
                rows,
                values,
                &stops,
                result_starts,
                result_rows,
                result_values,
                scratch,
                work,
            ) {
                return Err(Refusal::NumberTooLarge);
            }
            Ok(diagnosis)
        }
        SelectedInverseStatus::ClosureTooLarge => Ok(diagnosis),
    }
}

// The same, with scratch and work list cleared.
pub fn fill_whole(
    n: usize,
    starts: &[u32],
    rows: &[u32],
    values: &[i64],
    dimension: usize,
    request_rows: &[u32],
    request_columns: &[u32],
    limit: usize,
    result_starts: &mut [u32],
    result_rows: &mut [u32],
    result_values: &mut [i64],
    scratch: &mut [u32],
    work: &mut [i64],
) -> Result<SelectedInverseDiagnostics, Refusal>
    requires { Passed (check_steps
        (whole_call n starts.now rows.now values.now dimension request_rows.now request_columns.now limit)
        (whole_room_of (whole_lent result_starts.old result_rows.old result_values.old scratch.old work.old))) }
    ensures { WholeEntries
        (whole_call n starts.now rows.now values.now dimension request_rows.now request_columns.now limit)
        (whole_lent result_starts.old result_rows.old result_values.old scratch.old work.old) result
        (whole_lent result_starts.new result_rows.new result_values.new scratch.new work.new) }
{
    let reply = fill_requested(
        n,
        starts,
        rows,
        values,
        dimension,
        request_rows,
        request_columns,
        limit,
        result_starts,
        result_rows,
        result_values,
        scratch,
        work,
    );
    clear_scratch(n, scratch);
    clear_wholes(work, limit.min(pair_total(n)));
    reply
}
