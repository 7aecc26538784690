// The checks of selected entries, refusals 1 to 7 and 18; the lists lent for writing are judged by their lengths.
#![tactic(auto)]

pub mod requests;

ghost use Rattle.std.specs.Prelude.{◌≡◌, ◌*◌, ◌≤◌, length};
ghost use Rattle.columns.specs.Columns.{factor_lists};
ghost use Rattle.refusal.specs.Bounds.{max_dimension, max_entries};
ghost use Rattle.refusal.specs.Steps.{verdict};
ghost use Rattle.refusal.specs.Refusal.{reply_of};
ghost use Rattle.columns.specs.Factor.{Factor};
ghost use Rattle.selection.specs.Selection.{limit_factor, room, room_steps, fill_steps};
ghost use Rattle.selection.specs.RequestSteps.{request_bound_steps};
ghost use Rattle.selection.specs.Call.{call, selected_steps};

use factor_check::bounds::check_bounds;
use factor_check::check_stored;
use kept_entries::diagonal_check::check_diagonals;
use pair_places::pair_total;
use pair_places::scratch::scratch_words;
use refusal::{MAX_ENTRIES, Refusal};
use requests::check_requests;

// How many times the stored entries the default limit is.
const LIMIT_FACTOR: usize = 10;

// 7: result lists or scratch too short.
pub fn check_room(
    n: usize,
    limit: usize,
    result_starts: usize,
    result_rows: usize,
    result_values: usize,
    scratch: usize,
) -> Result<(), Refusal>
    requires { n ≤ max_dimension }
    ensures { reply_of result ≡ verdict (room_steps n limit (room result_starts result_rows result_values scratch)) }
{
    let total = pair_total(n);
    let most = limit.min(total);
    if result_starts < n + 1 {
        return Err(Refusal::TooShort);
    }
    if result_rows < most {
        return Err(Refusal::TooShort);
    }
    if result_values < most {
        return Err(Refusal::TooShort);
    }
    if scratch < scratch_words(n) {
        return Err(Refusal::TooShort);
    }
    Ok(())
}

// The default limit: 10 times the stored entries, dropped ones counted.
pub fn default_limit(stored: usize) -> usize
    requires { stored ≤ max_entries }
    ensures { result ≡ limit_factor * stored }
{
    LIMIT_FACTOR * stored
}

// 6 and 7, past the others: what filling result lists asks.
pub fn check_fill(
    n: usize,
    starts: &[u32],
    rows: &[u32],
    values: &[f64],
    limit: usize,
    result_starts: usize,
    result_rows: usize,
    result_values: usize,
    scratch: usize,
) -> Result<(), Refusal>
    requires { (n ≤ max_dimension) × Factor n starts.now rows.now (length values.now) }
    ensures { reply_of result ≡ verdict (fill_steps (factor_lists n starts.now rows.now values.now) limit
        (room result_starts result_rows result_values scratch)) }
{
    check_diagonals(n, starts, rows, values)?;
    check_room(n, limit, result_starts, result_rows, result_values, scratch)
}

// 1 of the requests, which are counted by their rows.
pub fn check_request_bound(requests: usize) -> Result<(), Refusal>
    ensures { reply_of result ≡ verdict (request_bound_steps requests) }
{
    if MAX_ENTRIES < requests {
        return Err(Refusal::TooLarge);
    }
    Ok(())
}

// Refusals 1 to 7 and 18; the lists lent for writing are judged by their lengths.
pub fn check_selected(
    n: usize,
    starts: &[u32],
    rows: &[u32],
    values: &[f64],
    dimension: usize,
    request_rows: &[u32],
    request_columns: &[u32],
    limit: usize,
    result_starts: usize,
    result_rows: usize,
    result_values: usize,
    scratch: usize,
) -> Result<(), Refusal>
    ensures { reply_of result ≡ verdict (selected_steps
        (call n starts.now rows.now values.now dimension request_rows.now request_columns.now limit)
        (room result_starts result_rows result_values scratch)) }
{
    check_bounds(n, rows.len())?;
    check_request_bound(request_rows.len())?;
    check_stored(n, starts, rows, values)?;
    check_requests(n, dimension, request_rows, request_columns)?;
    check_fill(
        n,
        starts,
        rows,
        values,
        limit,
        result_starts,
        result_rows,
        result_values,
        scratch,
    )
}
