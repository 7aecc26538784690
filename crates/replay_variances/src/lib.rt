// Cases of the calls that fill result lists and an output: the diagonal in original order, variances of an operator's rows, covariances of two operators' rows.
#![tactic(auto)]

use answer_text::answers::{put_answer, put_output, put_result};
use case_lists::lent::{lent_output, lent_result_values, lent_rows, lent_scratch, lent_starts};
use case_lists::{
    ROOM, columns_of, dimension, operator_dimension, permutation, row_starts_of, rows, rows_of,
    starts, values, weights_of,
};
use case_text::fields::number_field;
use covariances::selected_inverse_transformed_covariances;
use operator_variances::selected_inverse_transformed_diag;
use original_diagonal::selected_inverse_diag_with_diagnostics;
use std::io;
use std::io::Write;

fn call_original_diagonal(
    out: &mut impl Write,
    text: &[u8],
    result_starts: &mut [u32],
    result_rows: &mut [u32],
    result_values: &mut [f64],
    scratch: &mut [u32],
    output: &mut [f64],
) -> io::Result<()> {
    let mut factor_starts = [0u32; ROOM];
    let mut factor_rows = [0u32; ROOM];
    let mut factor_values = [0.0; ROOM];
    let mut orig_to_perm = [0u32; ROOM];
    put_answer(
        out,
        selected_inverse_diag_with_diagnostics(
            dimension(text),
            starts(text, &mut factor_starts),
            rows(text, &mut factor_rows),
            values(text, &mut factor_values),
            permutation(text, &mut orig_to_perm),
            result_starts,
            result_rows,
            result_values,
            scratch,
            output,
        ),
    )?;
    Ok(())
}

fn call_operator_variances(
    out: &mut impl Write,
    text: &[u8],
    result_starts: &mut [u32],
    result_rows: &mut [u32],
    result_values: &mut [f64],
    scratch: &mut [u32],
    output: &mut [f64],
) -> io::Result<()> {
    let mut factor_starts = [0u32; ROOM];
    let mut factor_rows = [0u32; ROOM];
    let mut factor_values = [0.0; ROOM];
    let mut row_starts = [0u32; ROOM];
    let mut columns = [0u32; ROOM];
    let mut weights = [0.0; ROOM];
    put_answer(
        out,
        selected_inverse_transformed_diag(
            dimension(text),
            starts(text, &mut factor_starts),
            rows(text, &mut factor_rows),
            values(text, &mut factor_values),
            operator_dimension(text),
            row_starts_of(text, b'o', &mut row_starts),
            columns_of(text, b'o', &mut columns),
            weights_of(text, b'o', &mut weights),
            result_starts,
            result_rows,
            result_values,
            scratch,
            output,
        ),
    )?;
    Ok(())
}

fn ancols(text: &[u8]) -> usize {
    number_field(text, b"\nancols ")
}

fn bncols(text: &[u8]) -> usize {
    number_field(text, b"\nbncols ")
}

fn call_covariances(
    out: &mut impl Write,
    text: &[u8],
    result_starts: &mut [u32],
    result_rows: &mut [u32],
    result_values: &mut [f64],
    scratch: &mut [u32],
    output: &mut [f64],
) -> io::Result<()> {
    let mut factor_starts = [0u32; ROOM];
    let mut factor_rows = [0u32; ROOM];
    let mut factor_values = [0.0; ROOM];
    let mut a_row_starts = [0u32; ROOM];
    let mut a_columns = [0u32; ROOM];
    let mut a_weights = [0.0; ROOM];
    let mut b_row_starts = [0u32; ROOM];
    let mut b_columns = [0u32; ROOM];
    let mut b_weights = [0.0; ROOM];
    let mut a_rows = [0u32; ROOM];
    let mut b_rows = [0u32; ROOM];
    put_answer(
        out,
        selected_inverse_transformed_covariances(
            dimension(text),
            starts(text, &mut factor_starts),
            rows(text, &mut factor_rows),
            values(text, &mut factor_values),
            ancols(text),
            row_starts_of(text, b'a', &mut a_row_starts),
            columns_of(text, b'a', &mut a_columns),
            weights_of(text, b'a', &mut a_weights),
            bncols(text),
            row_starts_of(text, b'b', &mut b_row_starts),
            columns_of(text, b'b', &mut b_columns),
            weights_of(text, b'b', &mut b_weights),
            rows_of(text, b'a', &mut a_rows),
            rows_of(text, b'b', &mut b_rows),
            result_starts,
            result_rows,
            result_values,
            scratch,
            output,
        ),
    )?;
    Ok(())
}

// A case that fills result lists and an output by its call; where it lends none, lists of 7777.
fn filling<
    W: Write,
    C: FnOnce(
        &mut W,
        &[u8],
        &mut [u32],
        &mut [u32],
        &mut [f64],
        &mut [u32],
        &mut [f64],
    ) -> io::Result<()>,
>(out: &mut W, text: &[u8], call: C) -> io::Result<()>
    requires { C.IsAlwaysCallable call }
{
    let mut result_starts = [7777u32; 4608];
    let mut result_rows = [7777u32; 33024];
    let mut result_values = [7777.0; 33024];
    let mut scratch = [7777u32; 67072];
    let mut output = [7777.0; 4608];
    let starts = lent_starts(text, &mut result_starts);
    let rows = lent_rows(text, &mut result_rows);
    let values = lent_result_values(text, &mut result_values);
    let scratch = lent_scratch(text, &mut scratch);
    let output = lent_output(text, &mut output);
    call(out, text, starts, rows, values, scratch, output)?;
    put_result(out, starts, rows, values, scratch)?;
    put_output(out, output)
}

// Kind diagorig.
pub fn original_diagonal(out: &mut impl Write, text: &[u8]) -> io::Result<()> {
    filling(out, text, call_original_diagonal)
}

// Kind opvar.
pub fn operator_variances(out: &mut impl Write, text: &[u8]) -> io::Result<()> {
    filling(out, text, call_operator_variances)
}

// Kind covar.
pub fn covariances(out: &mut impl Write, text: &[u8]) -> io::Result<()> {
    filling(out, text, call_covariances)
}
