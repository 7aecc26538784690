// The factor-pattern route of the selected inverse, taken where the closed set is the factor's pattern, its diagonals
// and its kept entries, after
// `takahashi_selected_inverse_on_factor_pattern` of uncertainty.rs.
#![tactic(auto)]

pub mod column_marks;
pub mod column_scatter;
pub mod step;

ghost use Rattle.std.specs.Prelude.{◌≡◌, ◌+◌, ◌<◌, length};
ghost use Rattle.std.specs.Float.{nan};
ghost use Rattle.lists.specs.Overwrite.{overwrite};
ghost use Rattle.columns.specs.Kept.{nonzero, desc};
ghost use Rattle.columns.specs.Form.{form_of, pattern_pair};
ghost use Rattle.entries.specs.Entries.{entry_values, form_table};
ghost use Rattle.scatter.specs.Scatter.{Known};
ghost use Rattle.factor_route.specs.Route.{RouteInput, WorkRows, ColumnWritten};

use column_marks::{mark_column, unmark_column};
use column_scatter::scatter_columns;
use kept_entries::diagonal::column_divisor;
use refusal::MAX_DIMENSION;
use step::write_column;
use words::at;

// Column j of the result, from the columns after it. The marker comes empty and is left empty.
fn pattern_column(
    n: usize,
    starts: &[u32],
    rows: &[u32],
    values: &[f64],
    pivots: Option<&[f64]>,
    result_starts: &[u32],
    result_rows: &[u32],
    result_values: &mut [f64],
    j: usize,
    marker: &mut [usize; MAX_DIMENSION],
    weights: &mut [f64; MAX_DIMENSION],
    sums: &mut [f64; MAX_DIMENSION],
)
    requires route_input { RouteInput (form_of pivots) n starts.now rows.now values.now result_starts.now result_rows.now (length result_values.old) × (j < n) }
    requires work_rows { WorkRows marker.old weights.old sums.old }
    requires known { Known nan n (desc starts.now rows.now values.now) result_starts.now result_rows.now
        (form_table (form_of pivots) n starts.now rows.now values.now) (j + 1) result_values.old }
    ensures { ColumnWritten (form_of pivots.entry) n starts.now rows.now values.now result_starts.now j
        result_values.old result_values.new marker.new weights.new sums.new }
{
    let a = at(result_starts, j);
    let e = at(result_starts, j + 1);
    let s = at(starts, j);
    let t = at(starts, j + 1);
    let m = mark_column(j, rows, values, s, t, marker, weights, sums);
    let b = a + 1;
    scatter_columns(
        result_starts,
        result_rows,
        result_values,
        b,
        m,
        marker,
        weights,
        sums,
    );
    let divisor = column_divisor(n, starts, rows, values, pivots, j);
    write_column(result_values, a, e, weights, sums, divisor, m);
    unmark_column(result_rows, b, m, marker);
}

// The values of the selected inverse over the factor's pattern, columns from the last to the first.
pub fn takahashi_selected_inverse_on_factor_pattern(
    n: usize,
    starts: &[u32],
    rows: &[u32],
    values: &[f64],
    pivots: Option<&[f64]>,
    result_starts: &[u32],
    result_rows: &[u32],
    result_values: &mut [f64],
)
    requires { RouteInput (form_of pivots) n starts.now rows.now values.now result_starts.now result_rows.now (length result_values.old) }
    ensures { result_values.new ≡ overwrite
        (entry_values n (pattern_pair starts.now rows.now (nonzero values.now))
        (form_table (form_of pivots.entry) n starts.now rows.now values.now))
        result_values.old }
{
    let mut marker = [MAX_DIMENSION; MAX_DIMENSION];
    let mut weights = [0.0f64; MAX_DIMENSION];
    let mut sums = [0.0f64; MAX_DIMENSION];
    for j in (0..n).rev() {
        pattern_column(
            n,
            starts,
            rows,
            values,
            pivots,
            result_starts,
            result_rows,
            result_values,
            j,
            &mut marker,
            &mut weights,
            &mut sums,
        );
    }
}
