// Runs F3 of document 01 with the request (0,0) and limit 6; prints status, counts and limit, then each pair with its value's bits.
#![tactic(auto)]

use answer_text::{put, put_value};
use diagnostics::{SelectedInverseDiagnostics, SelectedInverseStatus};
use selected::selected_inverse_entries_with_limit;
use std::io;
use std::io::{BufWriter, Write};
use words::at;

fn put_number(out: &mut impl Write, n: usize) -> io::Result<()> {
    write!(out, "{n}")
}

fn put_diagnosis(out: &mut impl Write, d: SelectedInverseDiagnostics) -> io::Result<()> {
    let status = d.status;
    match status {
        SelectedInverseStatus::Complete => put(out, b"Complete ")?,
        SelectedInverseStatus::ClosureTooLarge => put(out, b"ClosureTooLarge ")?,
    }
    put_number(out, d.requested_pairs)?;
    put(out, b" ")?;
    put_number(out, d.closure_pairs)?;
    put(out, b" ")?;
    put_number(out, d.factor_pairs)?;
    put(out, b" ")?;
    put_number(out, d.closure_limit)?;
    put(out, b"\n")
}

// The pairs of column c, at the places from first to below last.
fn put_column(
    out: &mut impl Write,
    c: usize,
    first: usize,
    last: usize,
    rows: &[u32],
    values: &[f64],
) -> io::Result<()> {
    for p in first..last {
        if p < rows.len() {
            if p < values.len() {
                put_number(out, at(rows, p))?;
                put(out, b" ")?;
                put_number(out, c)?;
                put(out, b" ")?;
                put_value(out, values[p])?;
                put(out, b"\n")?;
            }
        }
    }
    Ok(())
}

// The pairs of all columns.
fn put_entries(
    out: &mut impl Write,
    starts: &[u32],
    rows: &[u32],
    values: &[f64],
) -> io::Result<()> {
    for e in 1..starts.len() {
        let c = e - 1;
        put_column(out, c, at(starts, c), at(starts, e), rows, values)?;
    }
    Ok(())
}

fn star(out: &mut impl Write) -> io::Result<()> {
    let starts = [0, 3, 4, 5];
    let rows = [0, 1, 2, 1, 2];
    let values = [1.0, 2.0, 3.0, 1.0, 1.0];
    let request_rows = [0];
    let request_columns = [0];
    let mut result_starts = [0; 4];
    let mut result_rows = [0; 6];
    let mut result_values = [0.0; 6];
    let mut scratch = [0; 19];
    let answer = selected_inverse_entries_with_limit(
        3,
        &starts,
        &rows,
        &values,
        3,
        &request_rows,
        &request_columns,
        6,
        &mut result_starts,
        &mut result_rows,
        &mut result_values,
        &mut scratch,
    );
    match answer {
        Err(_) => put(out, b"refused\n"),
        Ok(d) => {
            put_diagnosis(out, d)?;
            put_entries(out, &result_starts, &result_rows, &result_values)
        }
    }
}

fn main(rt: HostRuntime) -> io::Result<()> {
    let mut out = BufWriter::new(rt.alloc(), io::writer(&rt))?;
    star(&mut out)?;
    out.flush()
}
