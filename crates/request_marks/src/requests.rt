// Requests given as two lists, marked as pairs.
ghost use Rattle.closed_set.specs.Requests.{requested};
ghost use Rattle.marked_pairs.specs.MarkedPairs.{MarkedPairs};
ghost use Rattle.request_marks.specs.RequestMarks.{RequestsInput};

use marked_pairs::{clear_pairs, insert_closure_pair};
use words::at;

// Marks every request's pair, and no other; returns how many they are.
pub fn mark_requests(
    n: usize,
    request_rows: &[u32],
    request_columns: &[u32],
    scratch: &mut [u32],
) -> usize
    requires { RequestsInput n request_rows.now request_columns.now scratch.old }
    ensures { MarkedPairs n (requested request_rows.now request_columns.now)
        scratch.old scratch.new result }
{
    clear_pairs(n, scratch);
    let mut count = 0;
    for i in 0..request_rows.len() {
        count = insert_closure_pair(
            n,
            at(request_rows, i),
            at(request_columns, i),
            count,
            scratch,
        );
    }
    count
}
