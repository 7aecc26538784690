// Takahashi's recurrence over a closed set of pairs, columns from the last to the first, after `takahashi_selected_inverse_on_closure`
// of uncertainty.rs.
#![tactic(auto)]

pub mod finish;
pub mod products;
pub mod runs;
pub mod stored_sums;
pub mod sums;

ghost use Rattle.std.specs.Prelude.{◌≡◌, ◌+◌, length};
ghost use Rattle.lists.specs.Overwrite.{overwrite};
ghost use Rattle.pairs.specs.ColumnOrder.{column_marking};
ghost use Rattle.columns.specs.Form.{form_of, Divisors};
ghost use Rattle.entries.specs.Entries.{entry_values, form_table};
ghost use Rattle.closure_route.specs.Route.{route_lists, ClosureRouteInput, ColumnInput, ColumnsSolved};

use finish::{finish_part, store_diagonal};
use kept_entries::diagonal::column_divisor;
use stored_sums::store_sums;
use words::at;

// The entries of column j, once those of the later columns are there: the sums, their last step, and last the diagonal's entry. A column without
// entries is passed over.
fn takahashi_column(
    n: usize,
    j: usize,
    starts: &[u32],
    rows: &[u32],
    values: &[f64],
    pivots: Option<&[f64]>,
    result_starts: &[u32],
    result_rows: &[u32],
    result_values: &mut [f64],
    scratch: &[u32],
)
    requires column_input { ColumnInput (route_lists n starts.now rows.now values.now result_starts.now result_rows.now scratch.now) j
        (form_table (form_of pivots) n starts.now rows.now values.now) result_values.old }
    requires divisors { Divisors n starts.now rows.now values.now (form_of pivots) }
    ensures { ColumnsSolved n (column_marking n scratch.now) (form_table (form_of pivots.entry) n starts.now rows.now values.now) j
        result_values.old result_values.new }
{
    let first = at(result_starts, j);
    let last = at(result_starts, j + 1);
    if first == last {
        return;
    }
    let s = at(starts, j);
    let e = at(starts, j + 1);
    let divisor = column_divisor(n, starts, rows, values, pivots, j);
    store_sums(
        n,
        j,
        first,
        last,
        s,
        e,
        rows,
        values,
        result_rows,
        scratch,
        result_values,
    );
    finish_part(result_values, result_rows, first, last, j, divisor);
    store_diagonal(
        n,
        j,
        first,
        s,
        e,
        divisor,
        rows,
        values,
        result_rows,
        scratch,
        result_values,
    );
}

// The entries of the inverse at the pairs of the closed set that the marks say, laid out as the starts and rows of the result.
pub fn takahashi_selected_inverse_on_closure(
    n: usize,
    starts: &[u32],
    rows: &[u32],
    values: &[f64],
    pivots: Option<&[f64]>,
    result_starts: &[u32],
    result_rows: &[u32],
    result_values: &mut [f64],
    scratch: &[u32],
)
    requires closure_route_input { ClosureRouteInput (route_lists n starts.now rows.now values.now result_starts.now result_rows.now scratch.now)
        (length result_values.old) }
    requires divisors { Divisors n starts.now rows.now values.now (form_of pivots) }
    ensures { result_values.new ≡ overwrite (entry_values n (column_marking n scratch.now)
        (form_table (form_of pivots.entry) n starts.now rows.now values.now)) result_values.old }
{
    for j in (0..n).rev() {
        takahashi_column(
            n,
            j,
            starts,
            rows,
            values,
            pivots,
            result_starts,
            result_rows,
            result_values,
            scratch,
        );
    }
}
