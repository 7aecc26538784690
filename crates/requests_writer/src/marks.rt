// Requests as marks: the bit at a pair's place, column by column.
ghost use Rattle.requests_writer.specs.Marked.{MarkInput, MarkedRequests};

use pair_places::column_place;
use words::bit_words::set_bit;
use words::{at, clear};

// Marks every request's pair, and no other.
pub fn mark_requests(n: usize, rows: &[u32], columns: &[u32], marks: &mut [u32])
    requires { MarkInput n rows.now columns.now marks.old }
    ensures { MarkedRequests n rows.now columns.now marks.old marks.new }
{
    clear(marks, marks.len());
    for k in 0..rows.len() {
        set_bit(marks, column_place(n, at(rows, k), at(columns, k)));
    }
}
