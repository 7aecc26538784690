// The requests of row pairs of two operators marked as pairs: every column of the one row with every column of the other.
ghost use Rattle.std.specs.Prelude.{◌+◌, ◌<◌};
ghost use Rattle.columns.specs.Columns.{start};
ghost use Rattle.columns.specs.Operator.{operator_rows};
ghost use Rattle.marked_pairs.specs.MarkedPairs.{MarkedPairs, AlsoMarked};
ghost use Rattle.request_marks.specs.OperatorMarks.{RowInput};
ghost use Rattle.request_marks.specs.CrossRequests.{with_columns, cross_set, cross_requested, CrossInput};

use marked_pairs::{clear_pairs, insert_closure_pair};
use words::at;

// Marks the pairs of x with the columns from t to f.
fn mark_with(
    n: usize,
    x: usize,
    columns: &[u32],
    t: usize,
    f: usize,
    first: usize,
    scratch: &mut [u32],
) -> usize
    requires x_lt_n { x < n }
    requires row_input { RowInput n columns.now t f scratch.old first }
    ensures { AlsoMarked n (with_columns x columns.now t f) scratch.old scratch.new result }
{
    let mut count = first;
    for b in t..f {
        count = insert_closure_pair(n, x, at(columns, b), count, scratch);
    }
    count
}

// Marks the pairs of the columns from s to e of the one with those from t to f of the other.
fn mark_rows(
    n: usize,
    a_columns: &[u32],
    s: usize,
    e: usize,
    b_columns: &[u32],
    t: usize,
    f: usize,
    first: usize,
    scratch: &mut [u32],
) -> usize
    requires row_input { RowInput n a_columns.now s e scratch.old first }
    requires row_input_2 { RowInput n b_columns.now t f scratch.old first }
    ensures { AlsoMarked n (cross_set a_columns.now b_columns.now s e t f) scratch.old scratch.new result }
{
    let mut count = first;
    for a in s..e {
        count = mark_with(n, at(a_columns, a), b_columns, t, f, count, scratch);
    }
    count
}

// Marks those of row i of the one operator and row j of the other.
fn mark_row_pair(
    n: usize,
    a_row_starts: &[u32],
    a_columns: &[u32],
    i: usize,
    b_row_starts: &[u32],
    b_columns: &[u32],
    j: usize,
    first: usize,
    scratch: &mut [u32],
) -> usize
    requires i_bound { (i < operator_rows a_row_starts.now) × (j < operator_rows b_row_starts.now) }
    requires row_input { RowInput n a_columns.now (start a_row_starts.now i) (start a_row_starts.now (i + 1)) scratch.old first }
    requires row_input_2 { RowInput n b_columns.now (start b_row_starts.now j) (start b_row_starts.now (j + 1)) scratch.old first }
    ensures { AlsoMarked n (cross_set a_columns.now b_columns.now (start a_row_starts.now i) (start a_row_starts.now (i + 1))
        (start b_row_starts.now j) (start b_row_starts.now (j + 1))) scratch.old scratch.new result }
{
    let s = at(a_row_starts, i);
    let e = at(a_row_starts, i + 1);
    let t = at(b_row_starts, j);
    let f = at(b_row_starts, j + 1);
    mark_rows(n, a_columns, s, e, b_columns, t, f, first, scratch)
}

// Marks those of every row pair, and no other; returns how many they are.
pub fn mark_cross_pairs(
    n: usize,
    a_row_starts: &[u32],
    a_columns: &[u32],
    b_row_starts: &[u32],
    b_columns: &[u32],
    a_rows: &[u32],
    b_rows: &[u32],
    scratch: &mut [u32],
) -> usize
    requires { CrossInput n a_row_starts.now a_columns.now b_row_starts.now b_columns.now a_rows.now b_rows.now scratch.old }
    ensures { MarkedPairs n (cross_requested a_row_starts.now a_columns.now b_row_starts.now b_columns.now
        a_rows.now b_rows.now) scratch.old scratch.new result }
{
    clear_pairs(n, scratch);
    let mut count = 0;
    for p in 0..a_rows.len() {
        count = mark_row_pair(
            n,
            a_row_starts,
            a_columns,
            at(a_rows, p),
            b_row_starts,
            b_columns,
            at(b_rows, p),
            count,
            scratch,
        );
    }
    count
}
