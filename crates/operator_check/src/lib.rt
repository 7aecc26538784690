// A sparse operator, in row starts, columns and weights: its checks.
#![tactic(auto)]

ghost use Rattle.std.specs.Prelude.{◌≡◌};
ghost use Rattle.refusal.specs.Steps.{verdict};
ghost use Rattle.refusal.specs.Refusal.{reply_of};
ghost use Rattle.columns.specs.Operator.{operator_rows, operator_bound_steps, column_step, operator_steps};

use refusal::Refusal;

// How many rows it has.
pub fn operator_rows(row_starts: &[u32]) -> usize
    ensures { result ≡ operator_rows row_starts.now }
{
    if row_starts.len() == 0 {
        return 0;
    }
    row_starts.len() - 1
}

// 1: too many columns, rows or terms.
pub fn check_operator_bounds(row_starts: &[u32], columns: &[u32]) -> Result<(), Refusal>
    ensures { reply_of result ≡ verdict (operator_bound_steps row_starts.now columns.now) }
{
    factor_check::bounds::check_bounds(operator_rows(row_starts), columns.len())
}

// The last part of step 9: columns below `ncols`.
fn check_inside(ncols: usize, columns: &[u32]) -> Result<(), Refusal>
    ensures { reply_of result ≡ verdict (column_step ncols columns.now) }
{
    if words::index::index_outside(ncols, columns) {
        return Err(Refusal::BrokenOperator);
    }
    Ok(())
}

// 9: row starts that are empty or broken, or a column of n or more; `weights` is the number of weights.
pub fn check_operator(
    ncols: usize,
    row_starts: &[u32],
    columns: &[u32],
    weights: usize,
) -> Result<(), Refusal>
    ensures { reply_of result ≡ verdict (operator_steps ncols row_starts.now columns.now weights) }
{
    if row_starts.len() == 0 {
        return Err(Refusal::BrokenOperator);
    }
    factor_check::starts::check_broken(
        Refusal::BrokenOperator,
        row_starts.len() - 1,
        row_starts,
        columns.len(),
        weights,
    )?;
    check_inside(ncols, columns)
}
