// Pattern lists: the pairs of a factor and of an operator.
ghost use Rattle.std.specs.Prelude.{length};
ghost use Rattle.columns.specs.Columns.{factor_lists};
ghost use Rattle.columns.specs.Stored.{factor_steps};
ghost use Rattle.columns.specs.Kept.{nonzero, kept_pair};
ghost use Rattle.columns.specs.OperatorPair.{operator_pair};
ghost use Rattle.pattern_lists.specs.PatternLists.{PatternLists};
ghost use Rattle.pattern_lists.specs.PatternCalls.{operator_checks};
ghost use Rattle.c_replies.specs.Numbers.{pair_numbers, Shows};
ghost use Rattle.refusal.specs.Refusal.{reply_of};

use c_replies::PairNumbers;

// The pattern of a factor.
#[unsafe(no_mangle)]
pub extern "C" fn redstartgilt_from_cholesky_factor(
    n: usize,
    starts: &[u32],
    rows: &[u32],
    values: &[f64],
    scratch: &mut [u32],
    pair_rows: &mut [u32],
    pair_columns: &mut [u32],
) -> PairNumbers
    ensures { Shows (λ d. pair_numbers (reply_of d)) (λ d. PatternLists (factor_steps (factor_lists n starts.now rows.now values.now)) n
        (kept_pair starts.now rows.now (nonzero values.now)) d
        scratch.old pair_rows.old pair_columns.old scratch.new pair_rows.new pair_columns.new) result }
{
    PairNumbers::from(pattern_lists::from_cholesky_factor(
        n,
        starts,
        rows,
        values,
        scratch,
        pair_rows,
        pair_columns,
    ))
}

// The pattern of an operator.
#[unsafe(no_mangle)]
pub extern "C" fn redstartgilt_from_transformed_operator(
    ncols: usize,
    row_starts: &[u32],
    columns: &[u32],
    weights: &[f64],
    scratch: &mut [u32],
    pair_rows: &mut [u32],
    pair_columns: &mut [u32],
) -> PairNumbers
    ensures { Shows (λ d. pair_numbers (reply_of d)) (λ d. PatternLists (operator_checks ncols row_starts.now columns.now (length weights.now)) ncols
        (operator_pair row_starts.now columns.now) d
        scratch.old pair_rows.old pair_columns.old scratch.new pair_rows.new pair_columns.new) result }
{
    PairNumbers::from(pattern_lists::from_transformed_operator(
        ncols,
        row_starts,
        columns,
        weights,
        scratch,
        pair_rows,
        pair_columns,
    ))
}
