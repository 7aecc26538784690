// Pattern lists, after `SparseSymmetricPattern::from_cholesky_factor` and `from_transformed_operator` of uncertainty.rs.
#![tactic(auto)]

pub mod listed;
pub mod listing;
pub mod marking;
pub mod marks;

ghost use Rattle.std.specs.Prelude.{◌≡◌, length};
ghost use Rattle.columns.specs.Columns.{factor_lists};
ghost use Rattle.refusal.specs.Steps.{verdict};
ghost use Rattle.refusal.specs.Refusal.{reply_of};
ghost use Rattle.columns.specs.Stored.{factor_steps};
ghost use Rattle.columns.specs.Kept.{nonzero, kept_pair};
ghost use Rattle.columns.specs.OperatorPair.{operator_pair};
ghost use Rattle.pattern_lists.specs.PatternLists.{PatternLists};
ghost use Rattle.pattern_lists.specs.PatternCalls.{operator_checks};

use listing::{factor_lists, operator_lists};
use refusal::{MAX_DIMENSION, Refusal};

// 1 and 9 of an operator of `ncols` columns.
fn check_operator(
    ncols: usize,
    row_starts: &[u32],
    columns: &[u32],
    weights: usize,
) -> Result<(), Refusal>
    ensures { reply_of result ≡ verdict (operator_checks ncols row_starts.now columns.now weights) }
{
    if MAX_DIMENSION < ncols {
        return Err(Refusal::TooLarge);
    }
    operator_check::check_operator_bounds(row_starts, columns)?;
    operator_check::check_operator(ncols, row_starts, columns, weights)
}

// The pairs of a factor's kept entries, ascending by row then column.
pub fn from_cholesky_factor(
    n: usize,
    starts: &[u32],
    rows: &[u32],
    values: &[f64],
    scratch: &mut [u32],
    pair_rows: &mut [u32],
    pair_columns: &mut [u32],
) -> Result<usize, Refusal>
    ensures { PatternLists (factor_steps (factor_lists n starts.now rows.now values.now)) n
        (kept_pair starts.now rows.now (nonzero values.now)) result
        scratch.old pair_rows.old pair_columns.old scratch.new pair_rows.new pair_columns.new }
{
    factor_check::check_factor(n, starts, rows, values)?;
    factor_lists(n, starts, rows, values, scratch, pair_rows, pair_columns)
}

// The pairs of columns of each row of an operator, ascending by row then column.
pub fn from_transformed_operator(
    ncols: usize,
    row_starts: &[u32],
    columns: &[u32],
    weights: &[f64],
    scratch: &mut [u32],
    pair_rows: &mut [u32],
    pair_columns: &mut [u32],
) -> Result<usize, Refusal>
    ensures { PatternLists (operator_checks ncols row_starts.now columns.now (length weights.now)) ncols
        (operator_pair row_starts.now columns.now) result
        scratch.old pair_rows.old pair_columns.old scratch.new pair_rows.new pair_columns.new }
{
    check_operator(ncols, row_starts, columns, weights.len())?;
    operator_lists(ncols, row_starts, columns, scratch, pair_rows, pair_columns)
}
