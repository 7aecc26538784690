// All diagonals, marked as pairs.
ghost use Rattle.marked_pairs.specs.MarkedPairs.{MarkedPairs};
ghost use Rattle.request_marks.specs.DiagonalMarks.{DiagonalsInput, diagonal_pairs};

use marked_pairs::{clear_pairs, insert_closure_pair};

// Marks all n diagonals, and no other pair; returns how many they are.
pub fn mark_diagonals(n: usize, scratch: &mut [u32]) -> usize
    requires { DiagonalsInput n scratch.old }
    ensures { MarkedPairs n (diagonal_pairs n) scratch.old scratch.new result }
{
    clear_pairs(n, scratch);
    let mut count = 0;
    for i in 0..n {
        count = insert_closure_pair(n, i, i, count, scratch);
    }
    count
}
