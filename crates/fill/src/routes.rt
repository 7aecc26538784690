// Takahashi's recurrence over a closed set: by the factor-pattern route where the set is the factor's pattern, else by the closure route.
ghost use Rattle.std.specs.Prelude.{◌≡◌, length};
ghost use Rattle.lists.specs.Overwrite.{overwrite};
ghost use Rattle.pairs.specs.ColumnOrder.{column_marking};
ghost use Rattle.columns.specs.Form.{form_of};
ghost use Rattle.entries.specs.Entries.{entry_values, form_table};
ghost use Rattle.fill.specs.Routes.{RoutesInput};

use super::kept_pattern::closure_is_cholesky_factor_pattern;
use closure_route::takahashi_selected_inverse_on_closure;
use factor_route::takahashi_selected_inverse_on_factor_pattern;

// The entries of the inverse at the marked set, laid out as the starts and rows of the result.
pub fn takahashi_selected_inverse(
    n: usize,
    starts: &[u32],
    rows: &[u32],
    values: &[f64],
    pivots: Option<&[f64]>,
    factor_pairs: usize,
    closure_pairs: usize,
    result_starts: &[u32],
    result_rows: &[u32],
    result_values: &mut [f64],
    scratch: &[u32],
)
    requires { RoutesInput (form_of pivots) n starts.now rows.now values.now factor_pairs closure_pairs result_starts.now result_rows.now scratch.now
        (length result_values.old) }
    ensures { result_values.new ≡ overwrite (entry_values n (column_marking n scratch.now)
        (form_table (form_of pivots.entry) n starts.now rows.now values.now)) result_values.old }
{
    if closure_is_cholesky_factor_pattern(
        n,
        starts,
        rows,
        values,
        factor_pairs,
        closure_pairs,
        scratch,
    ) {
        takahashi_selected_inverse_on_factor_pattern(
            n,
            starts,
            rows,
            values,
            pivots,
            result_starts,
            result_rows,
            result_values,
        );
        return;
    }
    takahashi_selected_inverse_on_closure(
        n,
        starts,
        rows,
        values,
        pivots,
        result_starts,
        result_rows,
        result_values,
        scratch,
    );
}
