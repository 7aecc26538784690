// The checks of selected entries in whole numbers: refusals 1 to 5, 19, 6 and 7; the lists lent for writing are judged by their lengths.
ghost use Rattle.std.specs.Prelude.{◌≡◌, ◌++◌, ◌≤◌, length};
ghost use Rattle.refusal.specs.Bounds.{max_dimension};
ghost use Rattle.refusal.specs.Steps.{verdict};
ghost use Rattle.refusal.specs.Refusal.{reply_of};
ghost use Rattle.columns.specs.Columns.{factor_lists, bound_steps, column_steps};
ghost use Rattle.columns.specs.Factor.{Factor};
ghost use Rattle.selection.specs.Selection.{room, room_steps};
ghost use Rattle.whole_selection.specs.Call.{whole_call, whole_room, work_steps, diagonal_checks, check_steps};

use factor_check::bounds::check_bounds;
use factor_check::check_columns;
use kept_entries::unit_diagonals::check_units;
use pair_places::pair_total;
use refusal::Refusal;
use selected_checks::requests::check_requests;
use selected_checks::{check_request_bound, check_room};
use verdicts::check_output;

// Steps 19, 6 and 7, past the others, the work list last.
fn check_lent(
    n: usize,
    starts: &[u32],
    rows: &[u32],
    values: &[i64],
    limit: usize,
    result_starts: usize,
    result_rows: usize,
    result_values: usize,
    scratch: usize,
    work: usize,
) -> Result<(), Refusal>
    requires { (n ≤ max_dimension) × Factor n starts.now rows.now (length values.now) }
    ensures { reply_of result ≡ verdict (diagonal_checks (factor_lists n starts.now rows.now values.now)
        ++ (room_steps n limit (room result_starts result_rows result_values scratch) ++ work_steps n limit work)) }
{
    check_units(n, starts, rows, values)?;
    check_room(n, limit, result_starts, result_rows, result_values, scratch)?;
    check_output(limit.min(pair_total(n)), work)
}

// 1, 2 and 3 of a factor alone; `values` is the number of values.
pub fn check_whole_factor(
    n: usize,
    starts: &[u32],
    rows: &[u32],
    values: usize,
) -> Result<(), Refusal>
    ensures { reply_of result ≡ verdict (bound_steps n (length rows.now) ++ column_steps n starts.now rows.now values) }
{
    check_bounds(n, rows.len())?;
    check_columns(n, starts, rows, values)
}

// Steps 1 to 5, 19, 6 and 7.
pub fn check_whole(
    n: usize,
    starts: &[u32],
    rows: &[u32],
    values: &[i64],
    dimension: usize,
    request_rows: &[u32],
    request_columns: &[u32],
    limit: usize,
    result_starts: usize,
    result_rows: usize,
    result_values: usize,
    scratch: usize,
    work: usize,
) -> Result<(), Refusal>
    ensures { reply_of result ≡ verdict (check_steps
        (whole_call n starts.now rows.now values.now dimension request_rows.now request_columns.now limit)
        (whole_room result_starts result_rows result_values scratch work)) }
{
    check_bounds(n, rows.len())?;
    check_request_bound(request_rows.len())?;
    check_columns(n, starts, rows, values.len())?;
    check_requests(n, dimension, request_rows, request_columns)?;
    check_lent(
        n,
        starts,
        rows,
        values,
        limit,
        result_starts,
        result_rows,
        result_values,
        scratch,
        work,
    )
}
