// Diagonals that must be 1, of a factor that passes 1, 2 and 3: of whole numbers refusal 19, then 6; of floats with pivots refusal 23.
ghost use Rattle.std.specs.Prelude.{◌≡◌, ◌++◌, None, Some, length};
ghost use Rattle.std.proofs.Math.Bool.{cond};
ghost use Rattle.lists.specs.Test.{any};
ghost use Rattle.refusal.specs.Steps.{verdict};
ghost use Rattle.refusal.specs.Refusal.{reply_of};
ghost use Rattle.columns.specs.Diagonal.{no_diagonal};
ghost use Rattle.columns.specs.Factor.{Factor, Column};
ghost use Rattle.columns.specs.Kept.{nonzero};
ghost use Rattle.columns.specs.Pivots.{float_one};
ghost use Rattle.columns.specs.WholeFactor.{whole_nonzero, whole_one};
ghost use Rattle.columns.specs.UnitDiagonals.{other_diagonal, unit_steps, missing_steps};
ghost use Rattle.kept_entries.specs.DiagonalIs.{DiagonalIs};

use super::diagonal::first_from;
use super::stored::StoredValue;
use refusal::Refusal;
use words::at;

// Whether the kept diagonal of column c among the entries from s to e is 1, none if there is no such diagonal. Rows ascend, so one place decides.
fn is_unit<T: StoredValue>(c: usize, rows: &[u32], values: &[T], s: usize, e: usize) -> Option<bool>
    requires { Column rows.now (length values.now) s e }
    ensures { DiagonalIs rows.now (T.kept values.now) (T.one values.now) c s e result }
{
    let p = first_from(c, rows, s, e);
    if e <= p {
        return None;
    }
    if at(rows, p) != c {
        return None;
    }
    if !T::is_kept(values, p) {
        return None;
    }
    Some(T::is_one(values, p))
}

// Whether a column is without a kept diagonal, none if one has a kept diagonal other than 1.
fn lacks_diagonal<T: StoredValue>(
    n: usize,
    starts: &[u32],
    rows: &[u32],
    values: &[T],
) -> Option<bool>
    requires { Factor n starts.now rows.now (length values.now) }
    ensures { result ≡ cond (any (other_diagonal rows.now (T.kept values.now) (T.one values.now) starts.now) n)
        None (Some (any (no_diagonal starts.now rows.now (T.kept values.now)) n)) }
{
    let mut missing = false;
    for c in 0..n {
        match is_unit(c, rows, values, at(starts, c), at(starts, c + 1)) {
            None => missing = true,
            Some(false) => return None,
            Some(true) => {}
        }
    }
    Some(missing)
}

// 19, a kept diagonal other than 1 in any column; then 6, a column without a kept diagonal.
pub fn check_units(n: usize, starts: &[u32], rows: &[u32], values: &[i64]) -> Result<(), Refusal>
    requires { Factor n starts.now rows.now (length values.now) }
    ensures { reply_of result ≡ verdict (unit_steps 19 n starts.now rows.now (whole_nonzero values.now) (whole_one values.now)
        ++ missing_steps n starts.now rows.now (whole_nonzero values.now)) }
{
    match lacks_diagonal(n, starts, rows, values) {
        None => Err(Refusal::DiagonalNotOne),
        Some(true) => Err(Refusal::NonPositiveDefinite),
        Some(false) => Ok(()),
    }
}

// 23: a kept diagonal other than 1, in any column.
pub fn check_pivot_diagonals(
    n: usize,
    starts: &[u32],
    rows: &[u32],
    values: &[f64],
) -> Result<(), Refusal>
    requires { Factor n starts.now rows.now (length values.now) }
    ensures { reply_of result ≡ verdict (unit_steps 23 n starts.now rows.now (nonzero values.now) (float_one values.now)) }
{
    match lacks_diagonal(n, starts, rows, values) {
        None => Err(Refusal::PivotDiagonalNotOne),
        Some(_) => Ok(()),
    }
}
