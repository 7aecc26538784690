// The marks of a column of the factor-pattern route, after `takahashi_selected_inverse_on_factor_pattern` of uncertainty.rs.
// A marker has at a descendant's row its position among the column's descendants, and MAX_DIMENSION elsewhere.
ghost use Rattle.std.specs.Prelude.{◌≡◌, ℕ, ◌+◌, ◌<◌, ◌≤◌, length, get_or};
ghost use Rattle.refusal.specs.Bounds.{max_dimension};
ghost use Rattle.scatter.specs.Scatter.{unmarks};
ghost use Rattle.factor_route.specs.ColumnMarks.{EntryMarked, ColumnMarked, Stored, desc_between};

use refusal::MAX_DIMENSION;
use words::at;

// One stored entry of column c, with row r and value l: a kept one below the diagonal takes the position m. The next position.
fn mark_entry(
    c: usize,
    r: usize,
    l: f64,
    m: usize,
    marker: &mut [usize; MAX_DIMENSION],
    weights: &mut [f64; MAX_DIMENSION],
    sums: &mut [f64; MAX_DIMENSION],
) -> usize
    requires { (r < max_dimension) × (m < max_dimension) }
    ensures { EntryMarked c r l m result marker.old weights.old sums.old
        marker.new weights.new sums.new }
{
    if r <= c {
        return m;
    }
    if l == 0.0 {
        return m;
    }
    marker[r] = m;
    weights[m] = l;
    sums[m] = 0.0;
    m + 1
}

// The descendants of column c, stored from s to e: their positions, weights and sums from 0.0. How many they are.
pub fn mark_column(
    c: usize,
    rows: &[u32],
    values: &[f64],
    s: usize,
    e: usize,
    marker: &mut [usize; MAX_DIMENSION],
    weights: &mut [f64; MAX_DIMENSION],
    sums: &mut [f64; MAX_DIMENSION],
) -> usize
    requires { Stored rows.now values.now c s e }
    ensures { ColumnMarked (desc_between rows.now values.now c s e) result
        marker.old weights.old sums.old marker.new weights.new sums.new }
{
    let mut m = 0;
    for p in s..e {
        m = mark_entry(c, at(rows, p), values[p], m, marker, weights, sums);
    }
    m
}

// The marker empty again at the m rows from a on.
pub fn unmark_column(rows: &[u32], a: usize, m: usize, marker: &mut [usize; MAX_DIMENSION])
    requires { (a + m ≤ length rows.now) × ((x : ℕ) → x < m → get_or rows.now (a + x) 0 < max_dimension) }
    ensures { marker.new ≡ unmarks rows.now a marker.old m }
{
    for p in 0..m {
        let r = at(rows, a + p);
        marker[r] = MAX_DIMENSION;
    }
}
