// Cases of selected entries, of a factor with pivots too.
#![tactic(auto)]

use answer_text::answers::{put_answer, put_entry, put_result};
use case_lists::lent::{lent_result_values, lent_rows, lent_scratch, lent_starts};
use case_lists::limits::limit_of;
use case_lists::{ROOM, columns_of, dimension, request_dimension, rows, rows_of, starts, values};
use lookup::get;
use replay_ldl::call_ldl;
use replay_lookups::pair_lookups::gets;
use selected::{selected_inverse_entries, selected_inverse_entries_with_limit};
use std::io;
use std::io::Write;

// The call of a case of kind entries, and its reply; true where the result lists are filled.
fn call_entries(
    out: &mut impl Write,
    text: &[u8],
    result_starts: &mut [u32],
    result_rows: &mut [u32],
    result_values: &mut [f64],
    scratch: &mut [u32],
) -> io::Result<bool> {
    let mut factor_starts = [0u32; ROOM];
    let mut factor_rows = [0u32; ROOM];
    let mut factor_values = [0.0; ROOM];
    let mut request_rows = [0u32; ROOM];
    let mut request_columns = [0u32; ROOM];
    let n = dimension(text);
    let starts = starts(text, &mut factor_starts);
    let rows = rows(text, &mut factor_rows);
    let values = values(text, &mut factor_values);
    let request_dimension = request_dimension(text);
    let request_rows = rows_of(text, b'r', &mut request_rows);
    let request_columns = columns_of(text, b'r', &mut request_columns);
    let answer = match limit_of(text) {
        None => selected_inverse_entries(
            n,
            starts,
            rows,
            values,
            request_dimension,
            request_rows,
            request_columns,
            result_starts,
            result_rows,
            result_values,
            scratch,
        ),
        Some(limit) => selected_inverse_entries_with_limit(
            n,
            starts,
            rows,
            values,
            request_dimension,
            request_rows,
            request_columns,
            limit,
            result_starts,
            result_rows,
            result_values,
            scratch,
        ),
    };
    put_answer(out, answer)
}

// Looks the pairs of the case up in the filled lists of n columns.
fn found<W: Write>(
    out: &mut W,
    text: &[u8],
    n: usize,
    starts: &[u32],
    rows: &[u32],
    values: &[f64],
) -> io::Result<()> {
    if n < starts.len() {
        let starts = &starts[..n + 1];
        gets(out, text, |out: &mut W, row: usize, column: usize| {
            put_entry(out, get(starts, rows, values, row, column))
        })?;
    }
    Ok(())
}

// A case that fills result lists by its call; where it lends none, lists of 7777.
fn filling<
    W: Write,
    C: FnOnce(&mut W, &[u8], &mut [u32], &mut [u32], &mut [f64], &mut [u32]) -> io::Result<bool>,
>(out: &mut W, text: &[u8], call: C) -> io::Result<()>
    requires { C.IsAlwaysCallable call }
{
    let mut result_starts = [7777u32; 4608];
    let mut result_rows = [7777u32; 33024];
    let mut result_values = [7777.0; 33024];
    let mut scratch = [7777u32; 67072];
    let starts = lent_starts(text, &mut result_starts);
    let rows = lent_rows(text, &mut result_rows);
    let values = lent_result_values(text, &mut result_values);
    let scratch = lent_scratch(text, &mut scratch);
    let filled = call(out, text, starts, rows, values, scratch)?;
    put_result(out, starts, rows, values, scratch)?;
    if filled {
        found(out, text, dimension(text), starts, rows, values)?;
    }
    Ok(())
}

pub fn entries(out: &mut impl Write, text: &[u8]) -> io::Result<()> {
    filling(out, text, call_entries)
}

pub fn ldl(out: &mut impl Write, text: &[u8]) -> io::Result<()> {
    filling(out, text, call_ldl)
}
