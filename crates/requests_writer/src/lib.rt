// Writing requests as a Matrix Market file.
#![tactic(auto)]

pub mod checks;
pub mod lines;
pub mod marks;
pub mod numbers;
pub mod rows;

ghost use Rattle.std.specs.Prelude.{◌≡◌, ◌+◌, ◌≤◌, length};
ghost use Rattle.refusal.specs.Bounds.{max_dimension};
ghost use Rattle.pairs.specs.Pair.{max_pairs};
ghost use Rattle.pairs.specs.Scratch.{mark_words};
ghost use Rattle.pairs.specs.ColumnOrder.{column_marking};
ghost use Rattle.closed_set.specs.Requests.{requested};
ghost use Rattle.requests_writer.specs.Lines.{Wrote, head_bytes, head_most};
ghost use Rattle.requests_writer.specs.Marked.{MarkInput};
ghost use Rattle.refusal.specs.Steps.{Passed};
ghost use Rattle.requests_writer.specs.Writer.{write_checks, SetWritten, RequestsWritten};

use checks::check_written;
use lines::{lines_length, write_lines};
use marks::mark_requests;
use numbers::{number_length, write_byte, write_bytes, write_number};
use pair_places::pair_total;
use pair_places::scratch::mark_words;
use refusal::{MAX_DIMENSION, Refusal};
use set_bits::count::count_bits;
use words::clear;

// How many bytes the header and the size line have.
fn head_length(n: usize, count: usize) -> usize
    requires { (n ≤ max_dimension) × (count ≤ max_pairs) }
    ensures { (result ≡ length (head_bytes n count)) × (result ≤ head_most) }
{
    let size = number_length(n);
    let entries = number_length(count);
    54 + size + size + entries
}

// Writes the header and the size line; returns the place behind them.
fn write_head(n: usize, count: usize, text: &mut [u8]) -> usize
    requires { length (head_bytes n count) ≤ length text.old }
    ensures { Wrote (head_bytes n count) 0 text.old text.new result }
{
    let a = write_bytes(
        b"%%MatrixMarket matrix coordinate pattern symmetric",
        0,
        text,
    );
    let b = write_byte(10, a, text);
    let c = write_number(n, b, text);
    let d = write_byte(32, c, text);
    let e = write_number(n, d, text);
    let f = write_byte(32, e, text);
    let g = write_number(count, f, text);
    write_byte(10, g, text)
}

// Writes the file of the marked pairs if there is room for it, and clears the marks.
fn write_marked(n: usize, marks: &mut [u32], text: &mut [u8]) -> Result<usize, Refusal>
    requires { (n ≤ max_dimension) × (length marks.old ≡ mark_words n) }
    ensures { SetWritten n (column_marking n marks.old) result marks.old text.old marks.new text.new }
{
    let mut list = [0; MAX_DIMENSION];
    let count = count_bits(marks, 0, pair_total(n));
    let length = head_length(n, count) + lines_length(n, marks, &mut list);
    if text.len() < length {
        clear(marks, marks.len()); // also when the output is short
        return Err(Refusal::TooShort);
    }
    let place = write_head(n, count, text);
    write_lines(n, marks, &mut list, place, text);
    clear(marks, marks.len());
    Ok(length)
}

// The file of requests, with the marks in a list of ceil(T/32) words.
fn write_with(
    n: usize,
    rows: &[u32],
    columns: &[u32],
    text: &mut [u8],
    marks: &mut [u32],
) -> Result<usize, Refusal>
    requires { MarkInput n rows.now columns.now marks.old }
    ensures { SetWritten n (requested rows.now columns.now) result marks.old text.old marks.new text.new }
{
    mark_requests(n, rows, columns, marks);
    write_marked(n, marks, text)
}

// Requests that pass 1, 4, 5 and 24: 7 for the scratch, then their file, with the marks in the scratch's first ceil(T/32) words.
fn write_accepted(
    n: usize,
    rows: &[u32],
    columns: &[u32],
    output: &mut [u8],
    scratch: &mut [u32],
) -> Result<usize, Refusal>
    requires { Passed (write_checks n rows.now columns.now) }
    ensures { RequestsWritten n rows.now columns.now output.old scratch.old result output.new scratch.new }
{
    let words = mark_words(n);
    if scratch.len() < words {
        return Err(Refusal::TooShort);
    }
    write_with(n, rows, columns, output, &mut scratch[0..words])
}

// Writes requests of a dimension as a Matrix Market file to the front of the output: each pair once, by column then row.
pub fn write_requests(
    dimension: usize,
    rows: &[u32],
    columns: &[u32],
    output: &mut [u8],
    scratch: &mut [u32],
) -> Result<usize, Refusal>
    ensures { RequestsWritten dimension rows.now columns.now output.old scratch.old result output.new scratch.new }
{
    check_written(dimension, rows, columns)?;
    write_accepted(dimension, rows, columns, output, scratch)
}
