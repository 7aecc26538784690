// The checks of selected entries with pivots: refusals 1, 2, 3 and 18 of the factor, 4 and 18 of the pivots, 4 and 5 of the requests, 23, 6 and 7; the lists
// lent for writing are judged by their lengths.
ghost use Rattle.std.specs.Prelude.{◌≡◌, ◌≤◌, length};
ghost use Rattle.refusal.specs.Bounds.{max_dimension};
ghost use Rattle.refusal.specs.Steps.{verdict};
ghost use Rattle.refusal.specs.Refusal.{reply_of};
ghost use Rattle.columns.specs.Columns.{factor_lists};
ghost use Rattle.columns.specs.Factor.{Factor};
ghost use Rattle.columns.specs.Pivots.{pivot_list_steps, pivot_steps};
ghost use Rattle.selection.specs.Selection.{room};
ghost use Rattle.selection.specs.LdlCall.{ldl_call, ldl_fill_steps, ldl_steps};

use factor_check::bounds::check_bounds;
use factor_check::check_stored;
use finite_check::any_not_finite;
use kept_entries::unit_diagonals::check_pivot_diagonals;
use refusal::Refusal;
use selected_checks::requests::check_requests;
use selected_checks::{check_request_bound, check_room};

// 4, not a pivot for each column; then 18, a pivot that is not finite.
fn check_pivot_list(n: usize, pivots: &[f64]) -> Result<(), Refusal>
    ensures { reply_of result ≡ verdict (pivot_list_steps n pivots.now) }
{
    if pivots.len() != n {
        return Err(Refusal::DimensionMismatch);
    }
    if any_not_finite(pivots) {
        return Err(Refusal::NotFiniteEntry);
    }
    Ok(())
}

// 6: a pivot at most 0.0.
fn check_pivots(n: usize, pivots: &[f64]) -> Result<(), Refusal>
    requires { n ≤ length pivots.now }
    ensures { reply_of result ≡ verdict (pivot_steps n pivots.now) }
{
    if pivots[..n].iter().any(|pivot| *pivot <= 0.0) {
        return Err(Refusal::NonPositiveDefinite);
    }
    Ok(())
}

// 23, 6 and 7, past the others.
fn check_ldl_fill(
    n: usize,
    starts: &[u32],
    rows: &[u32],
    values: &[f64],
    pivots: &[f64],
    limit: usize,
    result_starts: usize,
    result_rows: usize,
    result_values: usize,
    scratch: usize,
) -> Result<(), Refusal>
    requires { (n ≤ max_dimension) × Factor n starts.now rows.now (length values.now) × (n ≤ length pivots.now) }
    ensures { reply_of result ≡ verdict (ldl_fill_steps (factor_lists n starts.now rows.now values.now) pivots.now limit
        (room result_starts result_rows result_values scratch)) }
{
    check_pivot_diagonals(n, starts, rows, values)?;
    check_pivots(n, pivots)?;
    check_room(n, limit, result_starts, result_rows, result_values, scratch)
}

// All of them.
pub fn check_ldl(
    n: usize,
    starts: &[u32],
    rows: &[u32],
    values: &[f64],
    pivots: &[f64],
    dimension: usize,
    request_rows: &[u32],
    request_columns: &[u32],
    limit: usize,
    result_starts: usize,
    result_rows: usize,
    result_values: usize,
    scratch: usize,
) -> Result<(), Refusal>
    ensures { reply_of result ≡ verdict (ldl_steps
        (ldl_call n starts.now rows.now values.now pivots.now dimension request_rows.now
        request_columns.now limit)
        (room result_starts result_rows result_values scratch)) }
{
    check_bounds(n, rows.len())?;
    check_request_bound(request_rows.len())?;
    check_stored(n, starts, rows, values)?;
    check_pivot_list(n, pivots)?;
    check_requests(n, dimension, request_rows, request_columns)?;
    check_ldl_fill(
        n,
        starts,
        rows,
        values,
        pivots,
        limit,
        result_starts,
        result_rows,
        result_values,
        scratch,
    )
}
