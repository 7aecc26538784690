// What each call replies, and the lists that it was lent.
use super::{Value, put_bytes, put_hex_bytes, put_values, put_wholes, put_words};
use diagnostics::{SelectedInverseDiagnostics, SelectedInverseStatus};
use floor::StabilizedVariance;
use refusal::Refusal;
use std::io;
use std::io::Write;
use verdicts::refusal_number;

pub fn put_ok(out: &mut impl Write) -> io::Result<()> {
    writeln!(out, "reply ok")
}

// The number of a refusal.
fn put_refused(out: &mut impl Write, why: Refusal) -> io::Result<()> {
    let number = refusal_number(why);
    writeln!(out, "reply {number}")
}

pub fn put_checked(out: &mut impl Write, answer: Result<(), Refusal>) -> io::Result<()> {
    match answer {
        Ok(()) => put_ok(out),
        Err(why) => put_refused(out, why),
    }
}

// A refusal of a lookup by its number, an absent pair by none.
fn put_no_value(out: &mut impl Write, number: usize) -> io::Result<()> {
    if number == 8 {
        write!(out, " none")
    } else {
        write!(out, " refused-{number}")
    }
}

// What a lookup finds.
pub fn put_entry(out: &mut impl Write, entry: Result<f64, Refusal>) -> io::Result<()> {
    match entry {
        Ok(z) => {
            let value = Value(z);
            write!(out, " {value}")
        }
        Err(why) => put_no_value(out, refusal_number(why) as usize),
    }
}

// What a lookup among whole numbers finds.
pub fn put_whole_entry(out: &mut impl Write, entry: Result<i64, Refusal>) -> io::Result<()> {
    match entry {
        Ok(z) => write!(out, " {z}"),
        Err(why) => put_no_value(out, refusal_number(why) as usize),
    }
}

fn put_pair_count(out: &mut impl Write, count: usize) -> io::Result<()> {
    put_ok(out)?;
    writeln!(out, "pairs {count}")
}

// The reply of a call for pattern lists.
pub fn put_listed(out: &mut impl Write, answer: Result<usize, Refusal>) -> io::Result<()> {
    match answer {
        Ok(count) => put_pair_count(out, count),
        Err(why) => put_refused(out, why),
    }
}

// The lists after it.
pub fn put_pairs(
    out: &mut impl Write,
    scratch: &[u32],
    pair_rows: &[u32],
    pair_columns: &[u32],
) -> io::Result<()> {
    put_scratch(out, scratch)?;
    put_words(out, b"prows ", pair_rows)?;
    put_words(out, b"pcols ", pair_columns)
}

// How many pairs a chain has, none where the pair is not in the set.
fn put_chain_length(out: &mut impl Write, count: usize) -> io::Result<()> {
    put_ok(out)?;
    if count == 0 {
        writeln!(out, "chain none")
    } else {
        writeln!(out, "chain {count}")
    }
}

// The reply of a call for a chain.
pub fn put_chain(out: &mut impl Write, answer: Result<usize, Refusal>) -> io::Result<()> {
    match answer {
        Ok(count) => put_chain_length(out, count),
        Err(why) => put_refused(out, why),
    }
}

// The lists after it.
pub fn put_chain_pairs(
    out: &mut impl Write,
    scratch: &[u32],
    chain_rows: &[u32],
    chain_columns: &[u32],
) -> io::Result<()> {
    put_scratch(out, scratch)?;
    put_words(out, b"crows ", chain_rows)?;
    put_words(out, b"ccols ", chain_columns)
}

fn put_sizes(out: &mut impl Write, dimension: usize, count: usize) -> io::Result<()> {
    put_ok(out)?;
    writeln!(out, "rdim {dimension}")?;
    writeln!(out, "requests {count}")
}

// The reply of reading a file of requests.
pub fn put_read(out: &mut impl Write, answer: Result<(usize, usize), Refusal>) -> io::Result<()> {
    match answer {
        Ok((dimension, count)) => put_sizes(out, dimension, count),
        Err(why) => put_refused(out, why),
    }
}

// The lists after it.
pub fn put_requests(out: &mut impl Write, rows: &[u32], columns: &[u32]) -> io::Result<()> {
    put_words(out, b"rrows ", rows)?;
    put_words(out, b"rcols ", columns)
}

fn put_length(out: &mut impl Write, bytes: usize) -> io::Result<()> {
    put_ok(out)?;
    writeln!(out, "bytes {bytes}")
}

// The reply of writing requests as a file.
pub fn put_written(out: &mut impl Write, answer: Result<usize, Refusal>) -> io::Result<()> {
    match answer {
        Ok(bytes) => put_length(out, bytes),
        Err(why) => put_refused(out, why),
    }
}

// The lists after it.
pub fn put_file(out: &mut impl Write, scratch: &[u32], file: &[u8]) -> io::Result<()> {
    put_scratch(out, scratch)?;
    put_hex_bytes(out, b"file ", file)
}

pub fn put_scratch(out: &mut impl Write, scratch: &[u32]) -> io::Result<()> {
    put_words(out, b"scratch ", scratch)
}

pub fn put_output(out: &mut impl Write, output: &[f64]) -> io::Result<()> {
    put_values(out, b"out ", output)
}

pub fn put_marks(out: &mut impl Write, marks: &[u8]) -> io::Result<()> {
    put_bytes(out, b"marks ", marks)
}

fn put_status(out: &mut impl Write, status: SelectedInverseStatus) -> io::Result<()> {
    match status {
        SelectedInverseStatus::Complete => writeln!(out, "status Complete"),
        SelectedInverseStatus::ClosureTooLarge => writeln!(out, "status ClosureTooLarge"),
    }
}

fn put_counts(
    out: &mut impl Write,
    requested: usize,
    closure: usize,
    factor: usize,
    limit: usize,
) -> io::Result<()> {
    writeln!(out, "requested {requested}")?;
    writeln!(out, "closure {closure}")?;
    writeln!(out, "factor {factor}")?;
    writeln!(out, "limit {limit}")
}

fn put_diagnosis(out: &mut impl Write, d: SelectedInverseDiagnostics) -> io::Result<()> {
    let status = d.status;
    put_ok(out)?;
    put_status(out, status)?;
    put_counts(
        out,
        d.requested_pairs,
        d.closure_pairs,
        d.factor_pairs,
        d.closure_limit,
    )?;
    let ratio = Value(d.closure_over_factor);
    writeln!(out, "ratio {ratio}")
}

// The reply of a call that fills result lists; true where it filled them.
pub fn put_answer(
    out: &mut impl Write,
    answer: Result<SelectedInverseDiagnostics, Refusal>,
) -> io::Result<bool> {
    match answer {
        Ok(d) => {
            put_diagnosis(out, d)?;
            Ok(d.is_complete())
        }
        Err(why) => {
            put_refused(out, why)?;
            Ok(false)
        }
    }
}

// The lists after a call that fills result lists.
pub fn put_result(
    out: &mut impl Write,
    starts: &[u32],
    rows: &[u32],
    values: &[f64],
    scratch: &[u32],
) -> io::Result<()> {
    put_words(out, b"starts ", starts)?;
    put_words(out, b"rows ", rows)?;
    put_values(out, b"values ", values)?;
    put_scratch(out, scratch)
}

// The same with values that are whole numbers, and the work list.
pub fn put_whole_result(
    out: &mut impl Write,
    starts: &[u32],
    rows: &[u32],
    values: &[i64],
    scratch: &[u32],
    work: &[i64],
) -> io::Result<()> {
    put_words(out, b"starts ", starts)?;
    put_words(out, b"rows ", rows)?;
    put_wholes(out, b"wvalues ", values)?;
    put_scratch(out, scratch)?;
    put_wholes(out, b"work ", work)
}

fn put_range(out: &mut impl Write, low: i64, high: i64) -> io::Result<()> {
    put_ok(out)?;
    writeln!(out, "low {low}")?;
    writeln!(out, "high {high}")
}

// The bounds on a row's variance.
pub fn put_bounds(out: &mut impl Write, answer: Result<(i64, i64), Refusal>) -> io::Result<()> {
    match answer {
        Ok((low, high)) => put_range(out, low, high),
        Err(why) => put_refused(out, why),
    }
}

// The variances along a track, after the call.
pub fn put_whole_output(out: &mut impl Write, output: &[i64]) -> io::Result<()> {
    put_wholes(out, b"wout ", output)
}

fn put_variance(out: &mut impl Write, floor: f64, hits: usize) -> io::Result<()> {
    put_ok(out)?;
    let floor = Value(floor);
    writeln!(out, "floor {floor}")?;
    writeln!(out, "hits {hits}")
}

pub fn put_stabilized(
    out: &mut impl Write,
    answer: Result<StabilizedVariance, Refusal>,
) -> io::Result<()> {
    match answer {
        Ok(s) => put_variance(out, s.floor, s.floor_hits),
        Err(why) => put_refused(out, why),
    }
}

// The count and the least of the negative values.
pub fn put_least(out: &mut impl Write, negative: usize, least: f64) -> io::Result<()> {
    put_ok(out)?;
    let least = Value(least);
    writeln!(out, "negative {negative}")?;
    writeln!(out, "least {least}")
}
