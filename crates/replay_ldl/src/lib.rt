// The calls of cases of a factor with pivots.
#![tactic(auto)]

use answer_text::answers::put_answer;
use case_lists::limits::limit_of;
use case_lists::{
    ROOM, columns_of, dimension, pivots, request_dimension, rows, rows_of, starts, values,
};
use ldl_entries::{selected_inverse_entries_ldl, selected_inverse_entries_ldl_with_limit};
use std::io;
use std::io::Write;

// The call of a case of kind ldl, and its reply; true where the result lists are filled.
pub fn call_ldl(
    out: &mut impl Write,
    text: &[u8],
    result_starts: &mut [u32],
    result_rows: &mut [u32],
    result_values: &mut [f64],
    scratch: &mut [u32],
) -> io::Result<bool> {
    let mut factor_starts = [0u32; ROOM];
    let mut factor_rows = [0u32; ROOM];
    let mut factor_values = [0.0; ROOM];
    let mut factor_pivots = [0.0; ROOM];
    let mut request_rows = [0u32; ROOM];
    let mut request_columns = [0u32; ROOM];
    let n = dimension(text);
    let starts = starts(text, &mut factor_starts);
    let rows = rows(text, &mut factor_rows);
    let values = values(text, &mut factor_values);
    let pivots = pivots(text, &mut factor_pivots);
    let request_dimension = request_dimension(text);
    let request_rows = rows_of(text, b'r', &mut request_rows);
    let request_columns = columns_of(text, b'r', &mut request_columns);
    let answer = match limit_of(text) {
        None => selected_inverse_entries_ldl(
            n,
            starts,
            rows,
            values,
            pivots,
            request_dimension,
            request_rows,
            request_columns,
            result_starts,
            result_rows,
            result_values,
            scratch,
        ),
        Some(limit) => selected_inverse_entries_ldl_with_limit(
            n,
            starts,
            rows,
            values,
            pivots,
            request_dimension,
            request_rows,
            request_columns,
            limit,
            result_starts,
            result_rows,
            result_values,
            scratch,
        ),
    };
    put_answer(out, answer)
}
