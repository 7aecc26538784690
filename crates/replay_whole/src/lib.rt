// Cases of the whole-number engine: selected entries, and lookups in their result.
#![tactic(auto)]

use answer_text::answers::{put_answer, put_ok, put_whole_entry, put_whole_result};
use case_lists::lent::{lent_rows, lent_scratch, lent_starts, lent_whole_values, lent_work};
use case_lists::limits::limit_of;
use case_lists::{
    ROOM, columns_of, dimension, request_dimension, rows, rows_of, starts, whole_values,
};
use lookup::whole::get_whole;
use replay_lookups::pair_lookups::gets;
use std::io;
use std::io::Write;
use whole_entries::{selected_inverse_entries_whole, selected_inverse_entries_whole_with_limit};

// The call and its reply; true where the result lists are filled.
fn call(
    out: &mut impl Write,
    text: &[u8],
    result_starts: &mut [u32],
    result_rows: &mut [u32],
    result_values: &mut [i64],
    scratch: &mut [u32],
    work: &mut [i64],
) -> io::Result<bool> {
    let mut factor_starts = [0u32; ROOM];
    let mut factor_rows = [0u32; ROOM];
    let mut factor_values = [0i64; ROOM];
    let mut request_rows = [0u32; ROOM];
    let mut request_columns = [0u32; ROOM];
    let n = dimension(text);
    let starts = starts(text, &mut factor_starts);
    let rows = rows(text, &mut factor_rows);
    let values = whole_values(text, &mut factor_values);
    let request_dimension = request_dimension(text);
    let request_rows = rows_of(text, b'r', &mut request_rows);
    let request_columns = columns_of(text, b'r', &mut request_columns);
    let answer = match limit_of(text) {
        None => selected_inverse_entries_whole(
            n,
            starts,
            rows,
            values,
            request_dimension,
            request_rows,
            request_columns,
            result_starts,
            result_rows,
            result_values,
            scratch,
            work,
        ),
        Some(limit) => selected_inverse_entries_whole_with_limit(
            n,
            starts,
            rows,
            values,
            request_dimension,
            request_rows,
            request_columns,
            limit,
            result_starts,
            result_rows,
            result_values,
            scratch,
            work,
        ),
    };
    put_answer(out, answer)
}

// Looks the pairs of the case up in the filled lists of n columns.
fn found<W: Write>(
    out: &mut W,
    text: &[u8],
    n: usize,
    starts: &[u32],
    rows: &[u32],
    values: &[i64],
) -> io::Result<()> {
    if n < starts.len() {
        let starts = &starts[..n + 1];
        gets(out, text, |out: &mut W, row: usize, column: usize| {
            put_whole_entry(out, get_whole(starts, rows, values, row, column))
        })?;
    }
    Ok(())
}

// Kind wentries; where the case lends no lists, lists of 7777.
pub fn whole_entries(out: &mut impl Write, text: &[u8]) -> io::Result<()> {
    let mut result_starts = [7777u32; 4608];
    let mut result_rows = [7777u32; 33024];
    let mut result_values = [7777i64; 33024];
    let mut scratch = [7777u32; 67072];
    let mut work = [7777i64; 33024];
    let starts = lent_starts(text, &mut result_starts);
    let rows = lent_rows(text, &mut result_rows);
    let values = lent_whole_values(text, &mut result_values);
    let scratch = lent_scratch(text, &mut scratch);
    let work = lent_work(text, &mut work);
    let filled = call(out, text, starts, rows, values, scratch, work)?;
    put_whole_result(out, starts, rows, values, scratch, work)?;
    if filled {
        found(out, text, dimension(text), starts, rows, values)?;
    }
    Ok(())
}

// Kind wget.
pub fn whole_lookups<W: Write>(out: &mut W, text: &[u8]) -> io::Result<()> {
    let mut result_starts = [0u32; ROOM];
    let mut result_rows = [0u32; ROOM];
    let mut result_values = [0i64; ROOM];
    let starts = starts(text, &mut result_starts);
    let rows = rows(text, &mut result_rows);
    let values = whole_values(text, &mut result_values);
    put_ok(out)?;
    gets(out, text, |out: &mut W, row: usize, column: usize| {
        put_whole_entry(out, get_whole(starts, rows, values, row, column))
    })
}
