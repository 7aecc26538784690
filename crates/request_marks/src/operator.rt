// The requests of an operator marked as pairs: all column pairs of each row, after `selected_inverse_transformed_diag` of uncertainty.rs.
ghost use Rattle.std.specs.Prelude.{◌+◌};
ghost use Rattle.marked_pairs.specs.MarkedPairs.{MarkedPairs, AlsoMarked};
ghost use Rattle.pattern_lists.specs.PatternMarks.{terms_set, row_set};
ghost use Rattle.request_marks.specs.OperatorRequests.{operator_requested};
ghost use Rattle.request_marks.specs.OperatorMarks.{OperatorInput, RowInput};

use marked_pairs::{clear_pairs, insert_closure_pair};
use operator_check::operator_rows;
use words::at;

// Marks the pairs of the column at a with those from s to itself; the row's other columns come with their own turn.
fn mark_terms(
    n: usize,
    columns: &[u32],
    s: usize,
    a: usize,
    first: usize,
    scratch: &mut [u32],
) -> usize
    requires { RowInput n columns.now s (a + 1) scratch.old first }
    ensures { AlsoMarked n (terms_set columns.now s a) scratch.old scratch.new result }
{
    let x = at(columns, a);
    let mut count = first;
    for b in s..a + 1 {
        count = insert_closure_pair(n, x, at(columns, b), count, scratch);
    }
    count
}

// Marks the pairs of the columns from s to e, those of one row.
fn mark_row(
    n: usize,
    columns: &[u32],
    s: usize,
    e: usize,
    first: usize,
    scratch: &mut [u32],
) -> usize
    requires { RowInput n columns.now s e scratch.old first }
    ensures { AlsoMarked n (row_set columns.now s e) scratch.old scratch.new result }
{
    let mut count = first;
    for a in s..e {
        count = mark_terms(n, columns, s, a, count, scratch);
    }
    count
}

// Marks every pair of two columns of one row, and no other; returns how many they are.
pub fn mark_operator_pairs(
    n: usize,
    row_starts: &[u32],
    columns: &[u32],
    scratch: &mut [u32],
) -> usize
    requires { OperatorInput n row_starts.now columns.now scratch.old }
    ensures { MarkedPairs n (operator_requested row_starts.now columns.now)
        scratch.old scratch.new result }
{
    clear_pairs(n, scratch);
    let last = operator_rows(row_starts);
    let mut count = 0;
    for i in 0..last {
        count = mark_row(
            n,
            columns,
            at(row_starts, i),
            at(row_starts, i + 1),
            count,
            scratch,
        );
    }
    count
}
