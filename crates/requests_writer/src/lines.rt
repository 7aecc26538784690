// The lines of all marked pairs, column by column: how many bytes they have, and the lines written. A column's rows are listed first.
ghost use Rattle.std.specs.Prelude.{◌≡◌, ◌+◌, ◌*◌, ◌≤◌, length};
ghost use Rattle.pairs.specs.Pair.{max_pairs};
ghost use Rattle.pairs.specs.ColumnOrder.{column_marking};
ghost use Rattle.requests_writer.specs.Lines.{Wrote, line_most, columns_bytes};
ghost use Rattle.requests_writer.specs.Marked.{MarksListed};

use super::rows::{rows_length, write_rows};
use set_bits::list_bits;

// How many bytes the lines of the marked pairs have.
pub fn lines_length(n: usize, marks: &[u32], list: &mut [u32]) -> usize
    requires { MarksListed n marks.now list.old }
    ensures { (result ≡ length (columns_bytes n (column_marking n marks.now) n)) × (result ≤ line_most * max_pairs) }
{
    let mut total = 0;
    let mut place = 0;
    for c in 0..n {
        let count = list_bits(n, place, c, 0, list, marks);
        total += rows_length(c, list, count);
        place += n - c;
    }
    total
}

// Writes them from `start` on; returns the place behind them.
pub fn write_lines(
    n: usize,
    marks: &[u32],
    list: &mut [u32],
    start: usize,
    text: &mut [u8],
) -> usize
    requires { MarksListed n marks.now list.old × (start + length (columns_bytes n (column_marking n marks.now) n) ≤ length text.old) }
    ensures { Wrote (columns_bytes n (column_marking n marks.now) n) start text.old text.new result }
{
    let mut next = start;
    let mut place = 0;
    for c in 0..n {
        let count = list_bits(n, place, c, 0, list, marks);
        next = write_rows(c, list, count, next, text);
        place += n - c;
    }
    next
}
