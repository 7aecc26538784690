// The scatter of a column of the factor-pattern route, after `takahashi_selected_inverse_on_factor_pattern` of uncertainty.rs. The rows of the
// column's m descendants stand from b on, their weights and sums by position. A marker has at a descendant's row its position, and MAX_DIMENSION
// elsewhere. A descendant's column of the result has the rows of all later descendants, so the marks met along it are the later positions in order.
// The sums at the positions of the columns walked over are held in locals.
ghost use Rattle.std.specs.Prelude.{◌≡◌, true, ◌+◌, ◌≤◌, ◌<◌, length};
ghost use Rattle.factor_route.specs.Walk.{DescendantsMarked, MarkAt, MarkAhead, ColumnWalk, PairWalk, Walk, ValuesEnough, WalkAt, SameRows, ColumnIs, PairIs, ColumnsAre, Scattered, Advanced};

use refusal::MAX_DIMENSION;
use words::at;

// The first place from q on whose row has the mark t; there is one before e.
fn find_mark(t: usize, rows: &[u32], q: usize, e: usize, marker: &[usize; MAX_DIMENSION]) -> usize
    requires { MarkAhead rows.now marker.now q e t }
    ensures { MarkAt rows.now marker.now q e t result }
{
    // stops at the mark: a `for` up to e would also test each place against e
    let mut p = q;
    while marker[at(rows, p)] != t {
        p += 1;
    }
    p
}

// The column of the descendant at position c, from a to e.
fn scatter_column(
    rows: &[u32],
    values: &[f64],
    a: usize,
    e: usize,
    b: usize,
    m: usize,
    c: usize,
    marker: &[usize; MAX_DIMENSION],
    weights: &[f64; MAX_DIMENSION],
    sums: &mut [f64; MAX_DIMENSION],
)
    requires { ColumnWalk rows.now a e b m c × DescendantsMarked rows.now b m marker.now × (e ≤ length values.now) }
    ensures { Scattered (ColumnIs rows.now values.now a e b c) rows.now b m weights.now
        c (c + 1) sums.old sums.new }
{
    let l = weights[c];
    let mut held = sums[c] + l * values[a];
    let mut q = a + 1;
    for t in c + 1..m {
        let p = find_mark(t, rows, q, e, marker);
        let z = values[p];
        sums[t] = sums[t] + l * z;
        held = held + weights[t] * z;
        q = p + 1;
    }
    sums[c] = held;
}

// The columns of the descendants at positions c and c + 1: the first from a to e, the second with the same rows from a + 1 on, `shift` places later.
fn scatter_pair(
    rows: &[u32],
    values: &[f64],
    a: usize,
    e: usize,
    shift: usize,
    b: usize,
    m: usize,
    c: usize,
    marker: &[usize; MAX_DIMENSION],
    weights: &[f64; MAX_DIMENSION],
    sums: &mut [f64; MAX_DIMENSION],
)
    requires { PairWalk rows.now a e b m c × DescendantsMarked rows.now b m marker.now × (e + shift ≤ length values.now) }
    ensures { Scattered (PairIs rows.now values.now a e shift b c) rows.now b m weights.now
        c (c + 2) sums.old sums.new }
{
    let l = weights[c];
    let k = weights[c + 1];
    let y = values[a + 1];
    let mut held = sums[c] + l * values[a] + k * y;
    let mut next = sums[c + 1] + l * y + k * values[a + 1 + shift];
    let mut q = a + 2;
    for t in c + 2..m {
        let p = find_mark(t, rows, q, e, marker);
        let z = values[p];
        let x = values[p + shift];
        let w = weights[t];
        sums[t] = sums[t] + l * z + k * x;
        held = held + w * z;
        next = next + w * x;
        q = p + 1;
    }
    sums[c] = held;
    sums[c + 1] = next;
}

// Whether there is a descendant past position c and its column has the rows of the column from a to e but the first. All of them stand in its
// column, so it does where the second and the last are at their places.
fn alike(starts: &[u32], rows: &[u32], a: usize, e: usize, b: usize, m: usize, c: usize) -> bool
    requires { WalkAt starts.now rows.now a e b m c }
    ensures { result ≡ true → SameRows starts.now rows.now a e b m c }
{
    if m <= c + 1 {
        return false;
    }
    let k = at(rows, b + (c + 1));
    if at(rows, a + 1) != k {
        return false;
    }
    let f = at(starts, k);
    at(rows, f + (e - a - 2)) == at(rows, e - 1)
}

// The column of the descendant at position c, and the next with it where both have the same rows. The position after.
fn scatter_from(
    starts: &[u32],
    rows: &[u32],
    values: &[f64],
    b: usize,
    m: usize,
    c: usize,
    marker: &[usize; MAX_DIMENSION],
    weights: &[f64; MAX_DIMENSION],
    sums: &mut [f64; MAX_DIMENSION],
) -> usize
    requires { Walk starts.now rows.now b m × ValuesEnough starts.now rows.now b m (length values.now) × DescendantsMarked rows.now b m marker.now × (c < m) }
    ensures { Advanced starts.now rows.now values.now b m weights.now c result
        sums.old sums.new }
{
    let k = at(rows, b + c);
    let a = at(starts, k);
    let e = at(starts, k + 1);
    if alike(starts, rows, a, e, b, m, c) {
        let f = at(starts, at(rows, b + (c + 1)));
        scatter_pair(
            rows,
            values,
            a,
            e,
            f - (a + 1),
            b,
            m,
            c,
            marker,
            weights,
            sums,
        );
        return c + 2;
    }
    scatter_column(rows, values, a, e, b, m, c, marker, weights, sums);
    c + 1
}

// The columns of the m descendants.
pub fn scatter_columns(
    starts: &[u32],
    rows: &[u32],
    values: &[f64],
    b: usize,
    m: usize,
    marker: &[usize; MAX_DIMENSION],
    weights: &[f64; MAX_DIMENSION],
    sums: &mut [f64; MAX_DIMENSION],
)
    requires { Walk starts.now rows.now b m × ValuesEnough starts.now rows.now b m (length values.now) × DescendantsMarked rows.now b m marker.now }
    ensures { Scattered (ColumnsAre starts.now rows.now values.now b m) rows.now b m
        weights.now 0 m sums.old sums.new }
{
    let mut c = 0;
    while c < m {
        c = scatter_from(starts, rows, values, b, m, c, marker, weights, sums);
    }
}
