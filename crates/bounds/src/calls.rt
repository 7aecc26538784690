// The calls, on F2 of document 01 but for the list of indices.
use answer_text::answers::{put_answer, put_entry, put_listed, put_output, put_pairs, put_result};
use answer_text::put;
use lookup::get;
use operator_variances::selected_inverse_transformed_diag;
use original_diagonal::selected_inverse_diag_with_diagnostics;
use pattern_lists::{from_cholesky_factor, from_transformed_operator};
use selected::selected_inverse_entries;
use std::io;
use std::io::Write;

// As the rows of a factor.
pub fn factor_pattern(out: &mut impl Write, indices: &[u32]) -> io::Result<()> {
    let mut scratch = [7777u32; 3];
    let mut pair_rows = [7777u32; 3];
    let mut pair_columns = [7777u32; 3];
    put(out, b"factor_pattern\n")?;
    put_listed(
        out,
        from_cholesky_factor(
            2,
            &[0, 2, 3],
            indices,
            &[],
            &mut scratch,
            &mut pair_rows,
            &mut pair_columns,
        ),
    )?;
    put_pairs(out, &scratch, &pair_rows, &pair_columns)
}

// As the columns of an operator.
pub fn operator_pattern(out: &mut impl Write, indices: &[u32]) -> io::Result<()> {
    let mut scratch = [7777u32; 3];
    let mut pair_rows = [7777u32; 3];
    let mut pair_columns = [7777u32; 3];
    put(out, b"operator_pattern\n")?;
    put_listed(
        out,
        from_transformed_operator(
            2,
            &[0, 2, 3],
            indices,
            &[],
            &mut scratch,
            &mut pair_rows,
            &mut pair_columns,
        ),
    )?;
    put_pairs(out, &scratch, &pair_rows, &pair_columns)
}

fn entries(
    out: &mut impl Write,
    rows: &[u32],
    values: &[f64],
    request_rows: &[u32],
) -> io::Result<()> {
    let mut result_starts = [7777u32; 3];
    let mut result_rows = [7777u32; 3];
    let mut result_values = [7777.0; 3];
    let mut scratch = [7777u32; 12];
    put_answer(
        out,
        selected_inverse_entries(
            2,
            &[0, 2, 3],
            rows,
            values,
            2,
            request_rows,
            &[0],
            &mut result_starts,
            &mut result_rows,
            &mut result_values,
            &mut scratch,
        ),
    )?;
    put_result(out, &result_starts, &result_rows, &result_values, &scratch)
}

// As the rows of a factor.
pub fn factor_entries(out: &mut impl Write, indices: &[u32]) -> io::Result<()> {
    put(out, b"factor_entries\n")?;
    entries(out, indices, &[], &[0])
}

// As the rows of the requests, with one column.
pub fn requests(out: &mut impl Write, indices: &[u32]) -> io::Result<()> {
    put(out, b"requests\n")?;
    entries(out, &[0, 1, 1], &[1.0, 2.0, 1.0], indices)
}

// As the rows of a factor.
pub fn original_diagonal(out: &mut impl Write, indices: &[u32]) -> io::Result<()> {
    let mut result_starts = [7777u32; 3];
    let mut result_rows = [7777u32; 3];
    let mut result_values = [7777.0; 3];
    let mut scratch = [7777u32; 12];
    let mut output = [7777.0; 2];
    put(out, b"original_diagonal\n")?;
    put_answer(
        out,
        selected_inverse_diag_with_diagnostics(
            2,
            &[0, 2, 3],
            indices,
            &[],
            &[0, 1],
            &mut result_starts,
            &mut result_rows,
            &mut result_values,
            &mut scratch,
            &mut output,
        ),
    )?;
    put_result(out, &result_starts, &result_rows, &result_values, &scratch)?;
    put_output(out, &output)
}

fn variances(
    out: &mut impl Write,
    rows: &[u32],
    values: &[f64],
    columns: &[u32],
    weights: &[f64],
) -> io::Result<()> {
    let mut result_starts = [7777u32; 3];
    let mut result_rows = [7777u32; 3];
    let mut result_values = [7777.0; 3];
    let mut scratch = [7777u32; 12];
    let mut output = [7777.0; 2];
    put_answer(
        out,
        selected_inverse_transformed_diag(
            2,
            &[0, 2, 3],
            rows,
            values,
            2,
            &[0, 2],
            columns,
            weights,
            &mut result_starts,
            &mut result_rows,
            &mut result_values,
            &mut scratch,
            &mut output,
        ),
    )?;
    put_result(out, &result_starts, &result_rows, &result_values, &scratch)?;
    put_output(out, &output)
}

// As the rows of a factor.
pub fn variances_of_factor(out: &mut impl Write, indices: &[u32]) -> io::Result<()> {
    put(out, b"variances_of_factor\n")?;
    variances(out, indices, &[], &[0, 1], &[1.0, 1.0])
}

// As the columns of an operator.
pub fn variances_of_terms(out: &mut impl Write, indices: &[u32]) -> io::Result<()> {
    put(out, b"variances_of_terms\n")?;
    variances(out, &[0, 1, 1], &[1.0, 2.0, 1.0], indices, &[])
}

// What a lookup of the pair in F2's inverse finds.
fn put_get(out: &mut impl Write, row: usize, column: usize) -> io::Result<()> {
    put_entry(
        out,
        get(&[0, 2, 3], &[0, 1, 1], &[5.0, -2.0, 1.0], row, column),
    )
}

// Lookups of the largest row and column, in F2's inverse and in no result.
pub fn lookups(out: &mut impl Write) -> io::Result<()> {
    let most = 18446744073709551615;
    put(out, b"lookups")?;
    put_get(out, most, 0)?;
    put_get(out, most, most)?;
    put_entry(out, get(&[], &[], &[], most, most))?;
    put(out, b"\n")
}
