// Cases of pattern lists, of a factor or of an operator, and of chains.
#![tactic(auto)]

pub mod chain_cases;

use answer_text::answers::{put_listed, put_pairs};
use case_lists::lent::{lent_list, lent_scratch};
use case_lists::{
    ROOM, columns_of, dimension, operator_dimension, row_starts_of, rows, starts, values,
    weights_of,
};
use case_text::items::Words;
use pattern_lists::{from_cholesky_factor, from_transformed_operator};
use std::io;
use std::io::Write;

fn call_factor_pattern(
    out: &mut impl Write,
    text: &[u8],
    scratch: &mut [u32],
    pair_rows: &mut [u32],
    pair_columns: &mut [u32],
) -> io::Result<()> {
    let mut factor_starts = [0u32; ROOM];
    let mut factor_rows = [0u32; ROOM];
    let mut factor_values = [0.0; ROOM];
    put_listed(
        out,
        from_cholesky_factor(
            dimension(text),
            starts(text, &mut factor_starts),
            rows(text, &mut factor_rows),
            values(text, &mut factor_values),
            scratch,
            pair_rows,
            pair_columns,
        ),
    )
}

fn call_operator_pattern(
    out: &mut impl Write,
    text: &[u8],
    scratch: &mut [u32],
    pair_rows: &mut [u32],
    pair_columns: &mut [u32],
) -> io::Result<()> {
    let mut row_starts = [0u32; ROOM];
    let mut columns = [0u32; ROOM];
    let mut weights = [0.0; ROOM];
    put_listed(
        out,
        from_transformed_operator(
            operator_dimension(text),
            row_starts_of(text, b'o', &mut row_starts),
            columns_of(text, b'o', &mut columns),
            weights_of(text, b'o', &mut weights),
            scratch,
            pair_rows,
            pair_columns,
        ),
    )
}

// A case that fills pattern lists by its call; where it lends none, lists of 7777.
fn filling<
    W: Write,
    C: FnOnce(&mut W, &[u8], &mut [u32], &mut [u32], &mut [u32]) -> io::Result<()>,
>(out: &mut W, text: &[u8], call: C) -> io::Result<()>
    requires { C.IsAlwaysCallable call }
{
    let mut scratch = [7777u32; 33024];
    let mut pair_rows = [7777u32; 33024];
    let mut pair_columns = [7777u32; 33024];
    let scratch = lent_scratch(text, &mut scratch);
    let pair_rows = lent_list::<Words>(text, b"\nlprows ", &mut pair_rows);
    let pair_columns = lent_list::<Words>(text, b"\nlpcols ", &mut pair_columns);
    call(out, text, scratch, pair_rows, pair_columns)?;
    put_pairs(out, scratch, pair_rows, pair_columns)
}

// Kind patfactor.
pub fn factor_pattern(out: &mut impl Write, text: &[u8]) -> io::Result<()> {
    filling(out, text, call_factor_pattern)
}

// Kind patoperator.
pub fn operator_pattern(out: &mut impl Write, text: &[u8]) -> io::Result<()> {
    filling(out, text, call_operator_pattern)
}
