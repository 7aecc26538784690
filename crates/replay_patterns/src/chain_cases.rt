// Chains from a requested pair to a pair of the closed set.
use answer_text::answers::{put_chain, put_chain_pairs};
use case_lists::lent::{lent_list, lent_scratch};
use case_lists::{ROOM, columns_of, dimension, request_dimension, rows, rows_of, starts, values};
use case_text::fields::number_field;
use case_text::items::Words;
use dependency_chain::dependency_chain;
use std::io;
use std::io::Write;

// The pair of the case.
fn pair_row(text: &[u8]) -> usize {
    number_field(text, b"\nprow ")
}

fn pair_column(text: &[u8]) -> usize {
    number_field(text, b"\npcol ")
}

// The call and its reply.
fn call(
    out: &mut impl Write,
    text: &[u8],
    scratch: &mut [u32],
    chain_rows: &mut [u32],
    chain_columns: &mut [u32],
) -> io::Result<()> {
    let mut factor_starts = [0u32; ROOM];
    let mut factor_rows = [0u32; ROOM];
    let mut factor_values = [0.0; ROOM];
    let mut request_rows = [0u32; ROOM];
    let mut request_columns = [0u32; ROOM];
    put_chain(
        out,
        dependency_chain(
            dimension(text),
            starts(text, &mut factor_starts),
            rows(text, &mut factor_rows),
            values(text, &mut factor_values),
            request_dimension(text),
            rows_of(text, b'r', &mut request_rows),
            columns_of(text, b'r', &mut request_columns),
            pair_row(text),
            pair_column(text),
            scratch,
            chain_rows,
            chain_columns,
        ),
    )
}

// The chain to the pair of the case; where the case lends no lists, lists of 7777.
pub fn chains(out: &mut impl Write, text: &[u8]) -> io::Result<()> {
    let mut scratch = [7777u32; 67072];
    let mut chain_rows = [7777u32; 33024];
    let mut chain_columns = [7777u32; 33024];
    let scratch = lent_scratch(text, &mut scratch);
    let chain_rows = lent_list::<Words>(text, b"\nlcrows ", &mut chain_rows);
    let chain_columns = lent_list::<Words>(text, b"\nlccols ", &mut chain_columns);
    call(out, text, scratch, chain_rows, chain_columns)?;
    put_chain_pairs(out, scratch, chain_rows, chain_columns)
}
