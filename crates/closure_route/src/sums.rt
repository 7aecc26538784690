// A sum of the recurrence over a column's stored entries: those kept below the diagonal count, ascending, each with an entry of the inverse.
ghost use Rattle.std.specs.Prelude.{◌≡◌, true, ◌+◌, ◌≤◌, ◌<◌, length};
ghost use Rattle.std.specs.Float.{nan};
ghost use Rattle.lists.specs.Test.{any_in};
ghost use Rattle.pairs.specs.Scratch.{queue_start};
ghost use Rattle.pairs.specs.ColumnOrder.{col_start};
ghost use Rattle.closure_route.specs.Run.{row_positions};
ghost use Rattle.closure_route.specs.Column.{sum_terms};
ghost use Rattle.closure_route.specs.Sums.{inverse_at, AddProductInput, SumInput, with_product, entry_sum, SumContinued};
ghost use Rattle.closure_route.specs.Rest.{zero_at, ProductsSummed, run_positions, SumRunInput, SumRowsInput, SumRestInput};

use super::runs::is_run;
use pair_places::positions::{column_base, column_shift, pair_position};
use pair_places::scratch::queue_start;
use words::at;

// The sum with the product of the stored entry at p, where it is kept below the diagonal of column j; other entries are passed over.
// The positions start at the word `positions`, and those of column i are `base` words past its rows.
fn add_product(
    n: usize,
    positions: usize,
    base: usize,
    i: usize,
    j: usize,
    p: usize,
    sum: f64,
    rows: &[u32],
    values: &[f64],
    scratch: &[u32],
    result_values: &[f64],
) -> f64
    requires positions_value { (positions ≡ queue_start n) × (base + i ≡ queue_start n + col_start n i) }
    requires add_product_input { AddProductInput n i j p rows.now values.now scratch.now (length result_values.now) }
    ensures { result ≡ with_product rows.now values.now j (inverse_at nan n scratch.now result_values.now i) p sum }
{
    let k = at(rows, p);
    if k <= j {
        return sum;
    }
    let l = values[p];
    if l != 0.0 {
        let position = pair_position(n, positions, base, i, k, scratch);
        return sum + l * result_values[position];
    }
    sum
}

// The sum, continued by l(k) Z(i, k) over the descendants k of column j that are stored from `first` to e.
fn sum_from(
    n: usize,
    i: usize,
    j: usize,
    first: usize,
    e: usize,
    start: f64,
    rows: &[u32],
    values: &[f64],
    scratch: &[u32],
    result_values: &[f64],
) -> f64
    requires { SumInput (sum_terms n j first e rows.now values.now scratch.now) i (length result_values.now) }
    ensures { SumContinued (sum_terms n j first e rows.now values.now scratch.now) result_values.now i start result }
{
    let positions = queue_start(n);
    let base = positions + column_shift(n, i);
    let mut sum = start;
    for p in first..e {
        sum = add_product(
            n,
            positions,
            base,
            i,
            j,
            p,
            sum,
            rows,
            values,
            scratch,
            result_values,
        );
    }
    sum
}

// The sum of l(k) Z(i, k) over the descendants k of column j, ascending; its entries are stored from s to e.
pub fn entry_sum(
    n: usize,
    i: usize,
    j: usize,
    s: usize,
    e: usize,
    rows: &[u32],
    values: &[f64],
    scratch: &[u32],
    result_values: &[f64],
) -> f64
    requires { SumInput (sum_terms n j s e rows.now values.now scratch.now) i (length result_values.now) }
    ensures { result ≡ entry_sum (sum_terms n j s e rows.now values.now scratch.now) result_values.now i }
{
    sum_from(n, i, j, s, e, 0.0, rows, values, scratch, result_values)
}

// Whether one of the values from s to e is 0.0. The loop has one exit, so that it is compiled to vector instructions.
pub fn has_zero(s: usize, e: usize, values: &[f64]) -> bool
    requires { (s ≤ e) × (e ≤ length values.now) }
    ensures { result ≡ any_in (zero_at values.now) s e }
{
    let mut found = false;
    for p in s..e {
        if values[p] == 0.0 {
            found = true;
        }
    }
    found
}

// The sum, continued by the products of the values from `first` to e and the entries of the inverse from `position` on.
fn sum_run(
    first: usize,
    e: usize,
    position: usize,
    start: f64,
    values: &[f64],
    result_values: &[f64],
) -> f64
    requires { SumRunInput first e position (length values.now) (length result_values.now) }
    ensures { ProductsSummed values.now result_values.now first e (run_positions first position) start result }
{
    let mut sum = start;
    for p in first..e {
        sum = sum + values[p] * result_values[position + (p - first)];
    }
    sum
}

// The sum, continued by the products of the values from `first` to e and the entries of the inverse whose positions stand `base` words past the rows.
fn sum_rows(
    base: usize,
    first: usize,
    e: usize,
    start: f64,
    rows: &[u32],
    values: &[f64],
    scratch: &[u32],
    result_values: &[f64],
) -> f64
    requires { SumRowsInput base first e rows.now (length values.now) scratch.now (length result_values.now) }
    ensures { ProductsSummed values.now result_values.now first e
        (row_positions base rows.now scratch.now) start result }
{
    let mut sum = start;
    for p in first..e {
        let position = at(scratch, base + at(rows, p));
        sum = sum + values[p] * result_values[position];
    }
    sum
}

// The sum, continued by l(k) Z(i, k) over the descendants k of column j that are stored from `first` to e, all greater than i. Where no value is 0.0
// their entries of the inverse are read from column i, and from a run of it where the positions follow one another.
pub fn sum_rest(
    n: usize,
    i: usize,
    j: usize,
    first: usize,
    e: usize,
    zeros: bool,
    start: f64,
    rows: &[u32],
    values: &[f64],
    scratch: &[u32],
    result_values: &[f64],
) -> f64
    requires { SumRestInput (sum_terms n j first e rows.now values.now scratch.now) i zeros (length result_values.now) }
    ensures { SumContinued (sum_terms n j first e rows.now values.now scratch.now) result_values.now i start result }
{
    if !zeros {
        let base = column_base(n, i);
        if is_run(base, first, e, rows, scratch) {
            let position = at(scratch, base + at(rows, first));
            return sum_run(first, e, position, start, values, result_values);
        }
        return sum_rows(base, first, e, start, rows, values, scratch, result_values);
    }
    sum_from(
        n,
        i,
        j,
        first,
        e,
        start,
        rows,
        values,
        scratch,
        result_values,
    )
}
