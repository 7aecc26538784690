// The pairs of a factor's kept entries, and those of an operator's rows, marked row by row.
ghost use Rattle.std.specs.Prelude.{◌≡◌, ◌+◌, ◌<◌, ◌≤◌, length};
ghost use Rattle.refusal.specs.Bounds.{max_dimension};
ghost use Rattle.pairs.specs.Scratch.{mark_words};
ghost use Rattle.pairs.specs.Pair.{ordered};
ghost use Rattle.pairs.specs.Marks.{Added};
ghost use Rattle.columns.specs.Kept.{nonzero};
ghost use Rattle.columns.specs.Factor.{Factor};
ghost use Rattle.columns.specs.Operator.{operator_rows, OperatorRows};
ghost use Rattle.pattern_lists.specs.PatternMarks.{MarkEntryInput, MarkColumnInput, MarkOrderedInput, MarkTermsInput, entry_set, column_set, columns_set, terms_set, row_set, rows_set};

use super::marks::mark_pair;
use words::at;

// Marks the entry at p of column c if it is kept.
fn mark_entry(c: usize, rows: &[u32], values: &[f64], p: usize, marks: &mut [u32])
    requires p_in_bounds { (p < length rows.now) × (p < length values.now) }
    requires mark_entry_input { MarkEntryInput c rows.now marks.old p }
    ensures { Added (entry_set rows.now (nonzero values.now) c p) marks.old marks.new }
{
    let r = at(rows, p);
    if r < c {
        return;
    }
    if values[p] != 0.0 {
        mark_pair(r, c, marks);
    }
}

// Marks the kept entries of column c from s to e.
fn mark_column(c: usize, rows: &[u32], values: &[f64], s: usize, e: usize, marks: &mut [u32])
    requires { MarkColumnInput c rows.now (length values.now) s e marks.old }
    ensures { Added (column_set rows.now (nonzero values.now) c s e) marks.old marks.new }
{
    for p in s..e {
        mark_entry(c, rows, values, p, marks);
    }
}

// Marks the kept entries of all columns.
pub fn mark_factor(n: usize, starts: &[u32], rows: &[u32], values: &[f64], marks: &mut [u32])
    requires factor { Factor n starts.now rows.now (length values.now) }
    requires n_le_max_dimension { (n ≤ max_dimension) × (length marks.old ≡ mark_words n) }
    ensures { Added (columns_set starts.now rows.now (nonzero values.now) n) marks.old marks.new }
{
    for c in 0..n {
        mark_column(c, rows, values, at(starts, c), at(starts, c + 1), marks);
    }
}

// Marks the pair of x and y, put in order.
fn mark_ordered(x: usize, y: usize, marks: &mut [u32])
    requires { MarkOrderedInput x y marks.old }
    ensures { Added (ordered x y) marks.old marks.new }
{
    if x < y {
        mark_pair(y, x, marks);
        return;
    }
    mark_pair(x, y, marks);
}

// Marks the pairs of the column at a with those from s to itself; the row's other columns come with their own turn.
fn mark_terms(columns: &[u32], s: usize, a: usize, marks: &mut [u32])
    requires { MarkTermsInput columns.now s (a + 1) marks.old }
    ensures { Added (terms_set columns.now s a) marks.old marks.new }
{
    let x = at(columns, a);
    for b in s..a + 1 {
        mark_ordered(x, at(columns, b), marks);
    }
}

// Marks the pairs of the columns from s to e, those of one row of an operator.
fn mark_row(columns: &[u32], s: usize, e: usize, marks: &mut [u32])
    requires { MarkTermsInput columns.now s e marks.old }
    ensures { Added (row_set columns.now s e) marks.old marks.new }
{
    for a in s..e {
        mark_terms(columns, s, a, marks);
    }
}

// Marks the pairs of all rows of an operator of n columns.
pub fn mark_operator(n: usize, row_starts: &[u32], columns: &[u32], marks: &mut [u32])
    requires operator_rows { OperatorRows n row_starts.now columns.now (length columns.now) }
    requires n_le_max_dimension { (n ≤ max_dimension) × (length marks.old ≡ mark_words n) }
    ensures { Added (rows_set row_starts.now columns.now (operator_rows row_starts.now)) marks.old marks.new }
{
    let last = operator_check::operator_rows(row_starts);
    for i in 0..last {
        mark_row(columns, at(row_starts, i), at(row_starts, i + 1), marks);
    }
}
