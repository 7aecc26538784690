// The lines of one column: how many bytes they have, and the lines written.
ghost use Rattle.std.specs.Prelude.{◌≡◌, ◌+◌, ◌*◌, ◌≤◌, length, take};
ghost use Rattle.requests_writer.specs.Lines.{Wrote, line_most, rows_bytes, RowsInside};

use super::numbers::{number_length, write_entry};
use words::at;

// How many bytes the lines of the first `count` rows listed have, rows of column c.
pub fn rows_length(c: usize, rows: &[u32], count: usize) -> usize
    requires { RowsInside c rows.now count }
    ensures { (result ≡ length (rows_bytes c (take count rows.now))) × (result ≤ line_most * count) }
{
    let width = number_length(c + 1) + 2;
    let mut total = 0;
    for k in 0..count {
        total += number_length(at(rows, k) + 1) + width;
    }
    total
}

// Writes these lines from `place` on; returns the place behind them.
pub fn write_rows(c: usize, rows: &[u32], count: usize, place: usize, text: &mut [u8]) -> usize
    requires { RowsInside c rows.now count × (place + length (rows_bytes c (take count rows.now)) ≤ length text.old) }
    ensures { Wrote (rows_bytes c (take count rows.now)) place text.old text.new result }
{
    let mut next = place;
    for k in 0..count {
        next = write_entry(c, at(rows, k), next, text);
    }
    next
}
