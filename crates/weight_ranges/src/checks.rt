// What the bounds of a row refuse: 2 and 3 of the result, 9 and 21 of the row, 8 and 20 of the pairs of its columns.
ghost use Rattle.std.specs.Prelude.{◌≡◌, ◌<◌, ◌≤◌, length};
ghost use Rattle.std.specs.Int.Signed.{lt_z};
ghost use Rattle.refusal.specs.Steps.{verdict};
ghost use Rattle.refusal.specs.Refusal.{reply_of};
ghost use Rattle.result.specs.Lookup.{WellFormed};
ghost use Rattle.lists.specs.Test.{any};
ghost use Rattle.weight_ranges.specs.Ranges.{repeated_at, repeated, bad_range, range_row_steps, weight_steps, pair_steps, range_steps, row_fault};

use column_search::result_check::check_result;
use refusal::Refusal;
use whole_pairs::faults::{fault_verdict, line_fault};
use whole_steps::{size, whole_at};
use words::at;
use words::index::index_outside;

// The most terms, the largest weight and the largest entry, in size.
const MAX_TERMS: usize = 64;

const MAX_WEIGHT: usize = 1024;

const MAX_RANGE_ENTRY: usize = 1073741824;

// Whether an earlier place has the column of place a.
fn seen_before(columns: &[u32], a: usize) -> bool
    requires { a < length columns.now }
    ensures { result ≡ repeated_at columns.now a }
{
    let column = at(columns, a);
    for b in 0..a {
        if at(columns, b) == column {
            return true;
        }
    }
    false
}

// Whether a column is listed twice.
fn some_repeated(columns: &[u32]) -> bool
    ensures { result ≡ repeated columns.now }
{
    for a in 0..columns.len() {
        if seen_before(columns, a) {
            return true;
        }
    }
    false
}

// 9 of a row over n columns.
fn check_row(n: usize, columns: &[u32], lows: usize, highs: usize) -> Result<(), Refusal>
    ensures { reply_of result ≡ verdict (range_row_steps n columns.now lows highs) }
{
    if columns.len() != lows {
        return Err(Refusal::BrokenOperator);
    }
    if columns.len() != highs {
        return Err(Refusal::BrokenOperator);
    }
    if index_outside(n, columns) {
        return Err(Refusal::BrokenOperator);
    }
    if n < columns.len() {
        return Err(Refusal::BrokenOperator);
    }
    if some_repeated(columns) {
        return Err(Refusal::BrokenOperator);
    }
    Ok(())
}

// Whether a is above b.
fn is_above(a: i64, b: i64) -> bool
    ensures { result ≡ lt_z b a }
{
    b < a
}

// Whether the range of place a has its low above its high, or an end too large.
fn bad_range(lows: &[i64], highs: &[i64], a: usize) -> bool
    requires { (a < length lows.now) × (a < length highs.now) }
    ensures { result ≡ bad_range lows.now highs.now a }
{
    if MAX_WEIGHT < size(whole_at(lows, a)) {
        return true;
    }
    if MAX_WEIGHT < size(whole_at(highs, a)) {
        return true;
    }
    is_above(whole_at(lows, a), whole_at(highs, a))
}

// Whether one of so many ranges is bad.
fn some_bad_range(terms: usize, lows: &[i64], highs: &[i64]) -> bool
    requires { (terms ≤ length lows.now) × (terms ≤ length highs.now) }
    ensures { result ≡ any (bad_range lows.now highs.now) terms }
{
    for a in 0..terms {
        if bad_range(lows, highs, a) {
            return true;
        }
    }
    false
}

// 21 of a row with so many terms.
fn check_weights(terms: usize, lows: &[i64], highs: &[i64]) -> Result<(), Refusal>
    requires { (terms ≤ length lows.now) × (terms ≤ length highs.now) }
    ensures { reply_of result ≡ verdict (weight_steps terms lows.now highs.now) }
{
    if MAX_TERMS < terms {
        return Err(Refusal::BadWeights);
    }
    if some_bad_range(terms, lows, highs) {
        return Err(Refusal::BadWeights);
    }
    Ok(())
}

// The worst fault of the pairs of the columns.
fn row_fault(starts: &[u32], rows: &[u32], values: &[i64], columns: &[u32]) -> usize
    requires { WellFormed starts.now rows.now (length values.now) }
    ensures { result ≡ row_fault starts.now rows.now values.now columns.now }
{
    let m = columns.len();
    let mut found: usize = 0;
    for a in 0..m {
        found = found.max(line_fault(starts, rows, values, columns, a, 0, m, MAX_RANGE_ENTRY));
    }
    found
}

// 8 and 20.
fn check_pairs(starts: &[u32], rows: &[u32], values: &[i64], columns: &[u32]) -> Result<(), Refusal>
    requires { WellFormed starts.now rows.now (length values.now) }
    ensures { reply_of result ≡ verdict (pair_steps starts.now rows.now values.now columns.now) }
{
    fault_verdict(row_fault(starts, rows, values, columns))
}

// All of them.
pub fn check_call(
    starts: &[u32],
    rows: &[u32],
    values: &[i64],
    columns: &[u32],
    lows: &[i64],
    highs: &[i64],
) -> Result<(), Refusal>
    ensures { reply_of result ≡ verdict (range_steps starts.now rows.now values.now columns.now lows.now highs.now) }
{
    if let Err(why) = check_result(starts, rows, values.len()) {
        return Err(why);
    }
    if let Err(why) = check_row(starts.len() - 1, columns, lows.len(), highs.len()) {
        return Err(why);
    }
    if let Err(why) = check_weights(columns.len(), lows, highs) {
        return Err(why);
    }
    check_pairs(starts, rows, values, columns)
}
