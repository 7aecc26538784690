// The sums of a column of the recurrence over a closed set, stored at the places of its entries below the diagonal. Of each sum the descendants
// up to its row are added first, a descendant at a time to all sums; then the greater ones, a sum at a time. The order within a sum is ascending.
ghost use Rattle.std.specs.Prelude.{◌≡◌, ◌+◌, ◌≤◌, ◌<◌, length};
ghost use Rattle.lists.specs.Test.{any_in};
ghost use Rattle.columns.specs.Columns.{outside_at};
ghost use Rattle.columns.specs.Factor.{Column};
ghost use Rattle.closure_route.specs.Part.{PartSet, zeros};
ghost use Rattle.closure_route.specs.Column.{sum_column};
ghost use Rattle.closure_route.specs.Stored.{StoreSumsInput, SumsInput, SumsStored};
ghost use Rattle.closure_route.specs.Lower.{AddStoredInput, ProductAdded, AddProductsInput, ProductsAdded};
ghost use Rattle.closure_route.specs.Upper.{AddRestInput, RestAdded, AddRestsInput, RestsAdded};

use super::products::add_column;
use super::sums::{entry_sum, has_zero, sum_rest};
use kept_entries::diagonal::first_from;
use words::at;

// Sets the entries from first to last to 0.0.
fn clear_part(first: usize, last: usize, result_values: &mut [f64])
    requires { (first ≤ last) × (last ≤ length result_values.old) }
    ensures { PartSet first last zeros result_values.old result_values.new }
{
    for q in first..last {
        result_values[q] = 0.0;
    }
}

// Adds the product of the stored entry at p to each sum from q to last whose row is not less; an entry that is not kept below the diagonal adds
// nothing. Returns where those sums start.
fn add_stored(
    n: usize,
    j: usize,
    p: usize,
    q: usize,
    last: usize,
    rows: &[u32],
    values: &[f64],
    result_rows: &[u32],
    scratch: &[u32],
    result_values: &mut [f64],
) -> usize
    requires { AddStoredInput (sum_column n j q last p (p + 1) rows.now values.now result_rows.now scratch.now) (length result_values.old) }
    ensures { ProductAdded (sum_column n j q last p (p + 1) rows.now values.now result_rows.now scratch.now)
        result result_values.old result_values.new }
{
    let k = at(rows, p);
    if k <= j {
        return q;
    }
    let from = first_from(k, result_rows, q, last);
    let l = values[p];
    if l == 0.0 {
        return from;
    }
    if from < last {
        add_column(n, k, l, from, last, result_rows, scratch, result_values);
    }
    from
}

// Adds to each sum of column j, from first to last, the products of the descendants up to its row.
fn add_products(
    n: usize,
    j: usize,
    first: usize,
    last: usize,
    s: usize,
    e: usize,
    rows: &[u32],
    values: &[f64],
    result_rows: &[u32],
    scratch: &[u32],
    result_values: &mut [f64],
)
    requires { AddProductsInput (sum_column n j first last s e rows.now values.now result_rows.now scratch.now) result_values.old }
    ensures { ProductsAdded (sum_column n j first last s e rows.now values.now result_rows.now scratch.now)
        e result_values.old result_values.new }
{
    let mut q = first;
    for p in s..e {
        q = add_stored(
            n,
            j,
            p,
            q,
            last,
            rows,
            values,
            result_rows,
            scratch,
            result_values,
        );
    }
}

// Adds to the sum at q the products of the descendants greater than its row, which are stored from p on. Returns where they start.
fn add_rest(
    n: usize,
    j: usize,
    p: usize,
    e: usize,
    q: usize,
    zeros: bool,
    rows: &[u32],
    values: &[f64],
    result_rows: &[u32],
    scratch: &[u32],
    result_values: &mut [f64],
) -> usize
    requires { AddRestInput (sum_column n j q (q + 1) p e rows.now values.now result_rows.now scratch.now) zeros (length result_values.old) }
    ensures { RestAdded (sum_column n j q (q + 1) p e rows.now values.now result_rows.now scratch.now)
        result result_values.old result_values.new }
{
    let i = at(result_rows, q);
    let from = first_from(i + 1, rows, p, e);
    if from < e {
        let start = result_values[q];
        let sum = sum_rest(
            n,
            i,
            j,
            from,
            e,
            zeros,
            start,
            rows,
            values,
            scratch,
            result_values,
        );
        result_values[q] = sum;
    }
    from
}

// The same for each sum of column j, from first to last.
fn add_rests(
    n: usize,
    j: usize,
    first: usize,
    last: usize,
    s: usize,
    e: usize,
    zeros: bool,
    rows: &[u32],
    values: &[f64],
    result_rows: &[u32],
    scratch: &[u32],
    result_values: &mut [f64],
)
    requires { AddRestsInput (sum_column n j first last s e rows.now values.now result_rows.now scratch.now) zeros (length result_values.old) }
    ensures { RestsAdded (sum_column n j first last s e rows.now values.now result_rows.now scratch.now)
        last result_values.old result_values.new }
{
    let mut p = s;
    for q in first..last {
        p = add_rest(
            n,
            j,
            p,
            e,
            q,
            zeros,
            rows,
            values,
            result_rows,
            scratch,
            result_values,
        );
    }
}

// Whether a row from s to e is greater than i. Rows ascend, so the last decides.
fn has_greater(i: usize, s: usize, e: usize, rows: &[u32]) -> bool
    requires { Column rows.now e s e }
    ensures { result ≡ any_in (outside_at (i + 1) rows.now) s e }
{
    if e <= s {
        return false;
    }
    i < at(rows, e - 1)
}

// Stores the sums of column j from first to last, every row below j, a descendant at a time to all of them.
fn store_rows(
    n: usize,
    j: usize,
    first: usize,
    last: usize,
    s: usize,
    e: usize,
    rows: &[u32],
    values: &[f64],
    result_rows: &[u32],
    scratch: &[u32],
    result_values: &mut [f64],
)
    requires { SumsInput (sum_column n j first last s e rows.now values.now result_rows.now scratch.now) (length result_values.old) × (first < last) }
    ensures { SumsStored (sum_column n j first last s e rows.now values.now result_rows.now scratch.now)
        result_values.old result_values.new }
{
    clear_part(first, last, result_values);
    add_products(
        n,
        j,
        first,
        last,
        s,
        e,
        rows,
        values,
        result_rows,
        scratch,
        result_values,
    );
    if has_greater(at(result_rows, first), s, e, rows) {
        let zeros = has_zero(s, e, values);
        add_rests(
            n,
            j,
            first,
            last,
            s,
            e,
            zeros,
            rows,
            values,
            result_rows,
            scratch,
            result_values,
        );
    }
}

// Stores the sum of column j at q, the only one, which is held in a local while it is taken.
fn store_row(
    n: usize,
    j: usize,
    q: usize,
    s: usize,
    e: usize,
    rows: &[u32],
    values: &[f64],
    result_rows: &[u32],
    scratch: &[u32],
    result_values: &mut [f64],
)
    requires { SumsInput (sum_column n j q (q + 1) s e rows.now values.now result_rows.now scratch.now) (length result_values.old) }
    ensures { SumsStored (sum_column n j q (q + 1) s e rows.now values.now result_rows.now scratch.now)
        result_values.old result_values.new }
{
    let i = at(result_rows, q);
    let sum = entry_sum(n, i, j, s, e, rows, values, scratch, result_values);
    result_values[q] = sum;
}

// Stores the sums of column j, whose entries in the result are those from first to last: each row below j.
pub fn store_sums(
    n: usize,
    j: usize,
    first: usize,
    last: usize,
    s: usize,
    e: usize,
    rows: &[u32],
    values: &[f64],
    result_rows: &[u32],
    scratch: &[u32],
    result_values: &mut [f64],
)
    requires { StoreSumsInput (sum_column n j first last s e rows.now values.now result_rows.now scratch.now) (length result_values.old) }
    ensures { SumsStored (sum_column n j first last s e rows.now values.now result_rows.now scratch.now)
        result_values.old result_values.new }
{
    let from = first_from(j + 1, result_rows, first, last);
    if last <= from {
        return;
    }
    if from + 1 == last {
        store_row(
            n,
            j,
            from,
            s,
            e,
            rows,
            values,
            result_rows,
            scratch,
            result_values,
        );
        return;
    }
    store_rows(
        n,
        j,
        from,
        last,
        s,
        e,
        rows,
        values,
        result_rows,
        scratch,
        result_values,
    );
}
