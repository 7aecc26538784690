// A factor in compressed columns: refusals 1, 2, 3 and 18, and the sizes of its whole numbers.
#![tactic(auto)]

pub mod bounds;
pub mod finite;
pub mod rows;
pub mod sizes;
pub mod starts;
pub mod unfit;

ghost use Rattle.std.specs.Prelude.{◌≡◌};
ghost use Rattle.refusal.specs.Steps.{verdict};
ghost use Rattle.refusal.specs.Refusal.{reply_of};
ghost use Rattle.columns.specs.Columns.{column_steps, factor_lists};
ghost use Rattle.columns.specs.Stored.{stored_steps, factor_steps};

use bounds::check_bounds;
use finite::check_finite;
use refusal::Refusal;
use rows::check_rows;
use starts::check_starts;

// 2 and 3 of compressed columns, whatever their values; `values` is the number of values.
pub fn check_columns(n: usize, starts: &[u32], rows: &[u32], values: usize) -> Result<(), Refusal>
    ensures { reply_of result ≡ verdict (column_steps n starts.now rows.now values) }
{
    check_starts(n, starts, rows, values)?;
    check_rows(n, starts, rows)
}

// 2, 3 and 18 of a factor.
pub fn check_stored(n: usize, starts: &[u32], rows: &[u32], values: &[f64]) -> Result<(), Refusal>
    ensures { reply_of result ≡ verdict (stored_steps (factor_lists n starts.now rows.now values.now)) }
{
    check_columns(n, starts, rows, values.len())?;
    check_finite(n, starts, rows, values)
}

// 1, 2, 3 and 18 of a factor.
pub fn check_factor(n: usize, starts: &[u32], rows: &[u32], values: &[f64]) -> Result<(), Refusal>
    ensures { reply_of result ≡ verdict (factor_steps (factor_lists n starts.now rows.now values.now)) }
{
    check_bounds(n, rows.len())?;
    check_stored(n, starts, rows, values)
}
