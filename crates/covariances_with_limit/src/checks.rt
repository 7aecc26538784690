// What covariances with a limit refuse: steps 1 to 7 and 18, each over both operators and the row pairs.
ghost use Rattle.std.specs.Prelude.{◌≡◌, not, [], ◌∷◌, ◌++◌, ltb, eqb};
ghost use Rattle.refusal.specs.Bounds.{max_entries};
ghost use Rattle.refusal.specs.Steps.{verdict};
ghost use Rattle.refusal.specs.Refusal.{reply_of};
ghost use Rattle.columns.specs.Columns.{outside, bound_steps};
ghost use Rattle.columns.specs.Operator.{operator_rows, operator_bound_steps, operator_steps};
ghost use Rattle.selection.specs.Selection.{room};
ghost use Rattle.covariances_with_limit.specs.Covariances.{operator, covariance_call, covariance_steps};

use factor_check::bounds::check_bounds;
use factor_check::check_stored;
use operator_check::{check_operator, check_operator_bounds, operator_rows};
use refusal::{MAX_ENTRIES, Refusal};
use selected_checks::check_fill;
use verdicts::check_output;
use words::index::index_outside;

// 1 of so many row pairs.
fn check_pair_bound(pairs: usize) -> Result<(), Refusal>
    ensures { reply_of result ≡ verdict ((1, ltb max_entries pairs) ∷ []) }
{
    if MAX_ENTRIES < pairs {
        return Err(Refusal::TooLarge);
    }
    Ok(())
}

// 1 of the factor, of either operator and of the row pairs.
fn check_all_bounds(
    n: usize,
    entries: usize,
    a_row_starts: &[u32],
    a_columns: &[u32],
    b_row_starts: &[u32],
    b_columns: &[u32],
    pairs: usize,
) -> Result<(), Refusal>
    ensures { reply_of result ≡ verdict (bound_steps n entries ++ (operator_bound_steps a_row_starts.now a_columns.now
        ++ (operator_bound_steps b_row_starts.now b_columns.now ++ (1, ltb max_entries pairs) ∷ []))) }
{
    check_bounds(n, entries)?;
    check_operator_bounds(a_row_starts, a_columns)?;
    check_operator_bounds(b_row_starts, b_columns)?;
    check_pair_bound(pairs)
}

// 4: the operators' columns are n, and the row pairs' lists of one length.
fn check_counts(
    a_ncols: usize,
    b_ncols: usize,
    n: usize,
    a_rows: usize,
    b_rows: usize,
) -> Result<(), Refusal>
    ensures { reply_of result ≡ verdict ((4, not (eqb a_ncols n)) ∷ (4, not (eqb b_ncols n)) ∷ (4, not (eqb a_rows b_rows)) ∷ []) }
{
    if a_ncols != n {
        return Err(Refusal::DimensionMismatch);
    }
    if b_ncols != n {
        return Err(Refusal::DimensionMismatch);
    }
    if a_rows != b_rows {
        return Err(Refusal::DimensionMismatch);
    }
    Ok(())
}

// The last part of step 9: row pairs inside the operators, which have so many rows.
fn check_rows(a_count: usize, a_rows: &[u32], b_count: usize, b_rows: &[u32]) -> Result<(), Refusal>
    ensures { reply_of result ≡ verdict ((9, outside a_count a_rows.now) ∷ (9, outside b_count b_rows.now) ∷ []) }
{
    if index_outside(a_count, a_rows) {
        return Err(Refusal::BrokenOperator);
    }
    if index_outside(b_count, b_rows) {
        return Err(Refusal::BrokenOperator);
    }
    Ok(())
}

// 9 of either operator and of the row pairs.
fn check_operators(
    n: usize,
    a_row_starts: &[u32],
    a_columns: &[u32],
    a_weights: usize,
    b_row_starts: &[u32],
    b_columns: &[u32],
    b_weights: usize,
    a_rows: &[u32],
    b_rows: &[u32],
) -> Result<(), Refusal>
    ensures { reply_of result ≡ verdict (operator_steps n a_row_starts.now a_columns.now a_weights
        ++ (operator_steps n b_row_starts.now b_columns.now b_weights
        ++ (9, outside (operator_rows a_row_starts.now) a_rows.now) ∷ (9, outside (operator_rows b_row_starts.now) b_rows.now) ∷ [])) }
{
    check_operator(n, a_row_starts, a_columns, a_weights)?;
    check_operator(n, b_row_starts, b_columns, b_weights)?;
    check_rows(
        operator_rows(a_row_starts),
        a_rows,
        operator_rows(b_row_starts),
        b_rows,
    )
}

// Refusals 1 to 7 and 18; the lists lent for writing are judged by their lengths.
pub fn check_covariances(
    n: usize,
    starts: &[u32],
    rows: &[u32],
    values: &[f64],
    a_ncols: usize,
    a_row_starts: &[u32],
    a_columns: &[u32],
    a_weights: &[f64],
    b_ncols: usize,
    b_row_starts: &[u32],
    b_columns: &[u32],
    b_weights: &[f64],
    a_rows: &[u32],
    b_rows: &[u32],
    limit: usize,
    result_starts: usize,
    result_rows: usize,
    result_values: usize,
    scratch: usize,
    output: usize,
) -> Result<(), Refusal>
    ensures { reply_of result ≡ verdict (covariance_steps
        (covariance_call n starts.now rows.now values.now
        (operator a_ncols a_row_starts.now a_columns.now a_weights.now)
        (operator b_ncols b_row_starts.now b_columns.now b_weights.now)
        a_rows.now b_rows.now limit)
        (room result_starts result_rows result_values scratch) output) }
{
    check_all_bounds(
        n,
        rows.len(),
        a_row_starts,
        a_columns,
        b_row_starts,
        b_columns,
        a_rows.len(),
    )?;
    check_stored(n, starts, rows, values)?;
    check_counts(a_ncols, b_ncols, n, a_rows.len(), b_rows.len())?;
    check_operators(
        n,
        a_row_starts,
        a_columns,
        a_weights.len(),
        b_row_starts,
        b_columns,
        b_weights.len(),
        a_rows,
        b_rows,
    )?;
    check_fill(
        n,
        starts,
        rows,
        values,
        limit,
        result_starts,
        result_rows,
        result_values,
        scratch,
    )?;
    check_output(a_rows.len(), output)
}
