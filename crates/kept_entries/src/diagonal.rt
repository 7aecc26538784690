// The kept diagonal of a column of a factor that passes 1, 2, 3 and 6.
ghost use Rattle.std.specs.Prelude.{◌≡◌, ◌<◌, ◌≤◌, is_some, length};
ghost use Rattle.columns.specs.Factor.{Factor, FirstFrom};
ghost use Rattle.columns.specs.Kept.{diag};
ghost use Rattle.columns.specs.Diagonal.{Diagonals};
ghost use Rattle.columns.specs.Form.{form_of, divisor, Divisors};
ghost use Rattle.last_steps.specs.DivisorParts.{is_pivot, number};

use last_steps::Divisor;
use words::at;

// The first place from s to e whose row is c or more, e if none.
pub fn first_from(c: usize, rows: &[u32], s: usize, e: usize) -> usize
    requires { (s ≤ e) × (e ≤ length rows.now) }
    ensures { FirstFrom c rows.now s e result }
{
    for p in s..e {
        if c <= at(rows, p) {
            return p;
        }
    }
    e
}

// The diagonal of column c.
pub fn diagonal(n: usize, starts: &[u32], rows: &[u32], values: &[f64], c: usize) -> f64
    requires { Factor n starts.now rows.now (length values.now) × Diagonals n starts.now rows.now values.now × (c < n) }
    ensures { result ≡ diag starts.now rows.now values.now c }
{
    let p = first_from(c, rows, at(starts, c), at(starts, c + 1));
    values[p]
}

// What the entries of column c are finished with: its diagonal, or with pivots its pivot.
pub fn column_divisor(
    n: usize,
    starts: &[u32],
    rows: &[u32],
    values: &[f64],
    pivots: Option<&[f64]>,
    c: usize,
) -> Divisor
    requires { Factor n starts.now rows.now (length values.now) × Divisors n starts.now rows.now values.now (form_of pivots) × (c < n) }
    ensures kind { is_pivot result ≡ is_some pivots.entry }
    ensures value { number result ≡ divisor n starts.now rows.now values.now (form_of pivots.entry) c }
{
    match pivots {
        Some(pivots) => Divisor::Pivot(pivots[c]),
        None => Divisor::Diagonal(diagonal(n, starts, rows, values, c)),
    }
}
