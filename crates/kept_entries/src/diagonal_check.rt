// The diagonals of a factor that passes 1, 2 and 3: refusal 6.
ghost use Rattle.std.specs.Prelude.{◌≡◌, length};
ghost use Rattle.columns.specs.Columns.{factor_lists};
ghost use Rattle.refusal.specs.Steps.{verdict};
ghost use Rattle.refusal.specs.Refusal.{reply_of};
ghost use Rattle.columns.specs.Factor.{Factor, Column};
ghost use Rattle.columns.specs.Diagonal.{bad_between, diagonal_steps};

use super::diagonal::first_from;
use refusal::Refusal;
use words::at;

// Whether the entries from s to e have no kept diagonal of column c, or one at most 0.0. Rows ascend, so one place decides; 0.0 is at most 0.0.
fn bad_diagonal(c: usize, rows: &[u32], values: &[f64], s: usize, e: usize) -> bool
    requires { Column rows.now (length values.now) s e }
    ensures { result ≡ bad_between rows.now values.now c s e }
{
    let p = first_from(c, rows, s, e);
    if e <= p {
        return true;
    }
    if at(rows, p) != c {
        return true;
    }
    values[p] <= 0.0
}

// 6: a column without a kept diagonal, or with one at most 0.0.
pub fn check_diagonals(
    n: usize,
    starts: &[u32],
    rows: &[u32],
    values: &[f64],
) -> Result<(), Refusal>
    requires { Factor n starts.now rows.now (length values.now) }
    ensures { reply_of result ≡ verdict (diagonal_steps (factor_lists n starts.now rows.now values.now)) }
{
    for c in 0..n {
        if bad_diagonal(c, rows, values, at(starts, c), at(starts, c + 1)) {
            return Err(Refusal::NonPositiveDefinite);
        }
    }
    Ok(())
}
