// Cases that read a result: lookups, its diagonal list, searches in a column.
#![tactic(auto)]

pub mod pair_lookups;
pub mod searches;

use answer_text::answers::{put_checked, put_entry, put_marks, put_ok, put_output};
use case_lists::lent::{lent_marks, lent_output};
use case_lists::{ROOM, rows, starts, values};
use lookup::{diag, get};
use pair_lookups::gets;
use std::io;
use std::io::Write;

// Kind get.
pub fn lookups<W: Write>(out: &mut W, text: &[u8]) -> io::Result<()> {
    let mut result_starts = [0u32; ROOM];
    let mut result_rows = [0u32; ROOM];
    let mut result_values = [0.0; ROOM];
    let starts = starts(text, &mut result_starts);
    let rows = rows(text, &mut result_rows);
    let values = values(text, &mut result_values);
    put_ok(out)?;
    gets(out, text, |out: &mut W, row: usize, column: usize| {
        put_entry(out, get(starts, rows, values, row, column))
    })
}

// Kind diag; where the case lends no lists, lists of 7777 and 77.
pub fn diagonals(out: &mut impl Write, text: &[u8]) -> io::Result<()> {
    let mut result_starts = [0u32; ROOM];
    let mut result_rows = [0u32; ROOM];
    let mut result_values = [0.0; ROOM];
    let mut output = [7777.0; ROOM];
    let mut marks = [77u8; ROOM];
    let output = lent_output(text, &mut output);
    let marks = lent_marks(text, &mut marks);
    put_checked(
        out,
        diag(
            starts(text, &mut result_starts),
            rows(text, &mut result_rows),
            values(text, &mut result_values),
            output,
            marks,
        ),
    )?;
    put_output(out, output)?;
    put_marks(out, marks)
}
