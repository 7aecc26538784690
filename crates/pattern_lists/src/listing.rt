// The pairs of a factor or of an operator that passes its checks, marked in the scratch and listed.
ghost use Rattle.std.specs.Prelude.{◌≡◌, ◌≤◌, [], length};
ghost use Rattle.refusal.specs.Bounds.{max_dimension};
ghost use Rattle.pairs.specs.Scratch.{mark_words};
ghost use Rattle.columns.specs.Kept.{nonzero, kept_pair};
ghost use Rattle.columns.specs.Factor.{Factor};
ghost use Rattle.columns.specs.Operator.{OperatorRows};
ghost use Rattle.columns.specs.OperatorPair.{operator_pair};
ghost use Rattle.pattern_lists.specs.ListedMarks.{ListedMarks};
ghost use Rattle.pattern_lists.specs.PatternLists.{PatternLists};

use super::listed::list_marked;
use super::marking::{mark_factor, mark_operator};
use pair_places::scratch::mark_words;
use refusal::Refusal;
use words::clear;

// The pairs of a factor's kept entries, marked and listed.
fn list_factor(
    n: usize,
    starts: &[u32],
    rows: &[u32],
    values: &[f64],
    marks: &mut [u32],
    pair_rows: &mut [u32],
    pair_columns: &mut [u32],
) -> Result<usize, Refusal>
    requires factor { Factor n starts.now rows.now (length values.now) }
    requires n_le_max_dimension { (n ≤ max_dimension) × (length marks.old ≡ mark_words n) }
    ensures { ListedMarks n (kept_pair starts.now rows.now (nonzero values.now)) result
        marks.old pair_rows.old pair_columns.old marks.new pair_rows.new pair_columns.new }
{
    clear(marks, marks.len());
    mark_factor(n, starts, rows, values, marks);
    list_marked(n, marks, pair_rows, pair_columns)
}

// The same from an operator.
fn list_operator(
    n: usize,
    row_starts: &[u32],
    columns: &[u32],
    marks: &mut [u32],
    pair_rows: &mut [u32],
    pair_columns: &mut [u32],
) -> Result<usize, Refusal>
    requires operator_rows { OperatorRows n row_starts.now columns.now (length columns.now) }
    requires n_le_max_dimension { (n ≤ max_dimension) × (length marks.old ≡ mark_words n) }
    ensures { ListedMarks n (operator_pair row_starts.now columns.now) result
        marks.old pair_rows.old pair_columns.old marks.new pair_rows.new pair_columns.new }
{
    clear(marks, marks.len());
    mark_operator(n, row_starts, columns, marks);
    list_marked(n, marks, pair_rows, pair_columns)
}

// A factor that passes 1, 2, 3 and 18: 7 for the scratch, then its pairs, with the marks in the scratch's first ceil(T/32) words.
pub fn factor_lists(
    n: usize,
    starts: &[u32],
    rows: &[u32],
    values: &[f64],
    scratch: &mut [u32],
    pair_rows: &mut [u32],
    pair_columns: &mut [u32],
) -> Result<usize, Refusal>
    requires factor { Factor n starts.now rows.now (length values.now) }
    requires n_le_max_dimension { n ≤ max_dimension }
    ensures { PatternLists [] n (kept_pair starts.now rows.now (nonzero values.now)) result
        scratch.old pair_rows.old pair_columns.old scratch.new pair_rows.new pair_columns.new }
{
    let words = mark_words(n);
    if scratch.len() < words {
        return Err(Refusal::TooShort);
    }
    list_factor(
        n,
        starts,
        rows,
        values,
        &mut scratch[0..words],
        pair_rows,
        pair_columns,
    )
}

// An operator that passes 1 and 9, the same way.
pub fn operator_lists(
    n: usize,
    row_starts: &[u32],
    columns: &[u32],
    scratch: &mut [u32],
    pair_rows: &mut [u32],
    pair_columns: &mut [u32],
) -> Result<usize, Refusal>
    requires operator_rows { OperatorRows n row_starts.now columns.now (length columns.now) }
    requires n_le_max_dimension { n ≤ max_dimension }
    ensures { PatternLists [] n (operator_pair row_starts.now columns.now) result
        scratch.old pair_rows.old pair_columns.old scratch.new pair_rows.new pair_columns.new }
{
    let words = mark_words(n);
    if scratch.len() < words {
        return Err(Refusal::TooShort);
    }
    list_operator(
        n,
        row_starts,
        columns,
        &mut scratch[0..words],
        pair_rows,
        pair_columns,
    )
}
