// The kept entries of a factor that passes 1, 2 and 3, and how many they are.
#![tactic(auto)]

pub mod diagonal;
pub mod diagonal_check;
pub mod stored;
pub mod unit_diagonals;

ghost use Rattle.std.specs.Prelude.{◌≡◌, ◌≤◌, ◌<◌, length};
ghost use Rattle.lists.specs.Test.{any, any_in};
ghost use Rattle.lists.specs.Select.{tally};
ghost use Rattle.columns.specs.Factor.{Factor, Column};
ghost use Rattle.columns.specs.Kept.{nonzero, kept, factor_pairs, pattern};
ghost use Rattle.columns.specs.Form.{form_of, pattern_pairs, kept_pairs};
ghost use Rattle.kept_entries.specs.Above.{above_diagonal, has_above};

use diagonal::first_from;
use stored::StoredValue;
use words::at;

// How many values from s to e are not 0. The loop has one exit, so that it is compiled to vector instructions.
pub fn nonzero_between<T: StoredValue>(values: &[T], s: usize, e: usize) -> usize
    requires { (s ≤ e) × (e ≤ length values.now) }
    ensures { result ≡ tally (T.kept values.now) s e }
{
    let mut count = 0;
    for p in s..e {
        if T::is_kept(values, p) {
            count += 1;
        }
    }
    count
}

// How many entries from s to e are kept in column c. Rows ascend, so none is above the diagonal from the first place on whose row is c or more.
fn kept_between<T: StoredValue>(c: usize, rows: &[u32], values: &[T], s: usize, e: usize) -> usize
    requires { Column rows.now (length values.now) s e }
    ensures { result ≡ tally (kept rows.now (T.kept values.now) c) s e }
{
    let first = first_from(c, rows, s, e);
    nonzero_between(values, first, e)
}

// How many entries are kept, counted column by column.
fn kept_columns<T: StoredValue>(n: usize, starts: &[u32], rows: &[u32], values: &[T]) -> usize
    requires { Factor n starts.now rows.now (length values.now) }
    ensures { result ≡ factor_pairs starts.now rows.now (T.kept values.now) n }
{
    let mut count = 0;
    for c in 0..n {
        count += kept_between(c, rows, values, at(starts, c), at(starts, c + 1));
    }
    count
}

// Whether an entry from s to e is above the diagonal of column c. Rows ascend, so the first decides.
fn above_between(c: usize, rows: &[u32], s: usize, e: usize) -> bool
    requires { Column rows.now (length rows.now) s e }
    ensures { result ≡ any_in (above_diagonal rows.now c) s e }
{
    if s == e {
        return false;
    }
    at(rows, s) < c
}

// Whether one of the first n columns has an entry above its diagonal.
fn has_above(n: usize, starts: &[u32], rows: &[u32]) -> bool
    requires { Factor n starts.now rows.now (length rows.now) }
    ensures { result ≡ any (has_above starts.now rows.now) n }
{
    for c in 0..n {
        if above_between(c, rows, at(starts, c), at(starts, c + 1)) {
            return true;
        }
    }
    false
}

// How many entries are kept. Where none is above the diagonal, these are all whose value is not 0, counted over all of the list.
pub fn factor_pairs<T: StoredValue>(n: usize, starts: &[u32], rows: &[u32], values: &[T]) -> usize
    requires { Factor n starts.now rows.now (length values.now) }
    ensures { result ≡ factor_pairs starts.now rows.now (T.kept values.now) n }
{
    if has_above(n, starts, rows) {
        return kept_columns(n, starts, rows, values);
    }
    nonzero_between(values, 0, at(starts, n))
}

// How many pairs the pattern has: in each column its diagonal, kept or not, and the entries kept below it.
fn pattern_pairs(n: usize, starts: &[u32], rows: &[u32], values: &[f64]) -> usize
    requires { Factor n starts.now rows.now (length values.now) }
    ensures { result ≡ pattern_pairs n (pattern starts.now rows.now (nonzero values.now)) }
{
    let mut count = 0;
    for c in 0..n {
        let below = kept_between(c + 1, rows, values, at(starts, c), at(starts, c + 1));
        count += 1 + below;
    }
    count
}

// How many pairs of a factor of floats count as kept: its kept entries, or with pivots the pattern's pairs.
pub fn kept_pairs(
    n: usize,
    starts: &[u32],
    rows: &[u32],
    values: &[f64],
    pivots: Option<&[f64]>,
) -> usize
    requires { Factor n starts.now rows.now (length values.now) }
    ensures { result ≡ kept_pairs n starts.now rows.now values.now (form_of pivots.entry) }
{
    match pivots {
        Some(_) => pattern_pairs(n, starts, rows, values),
        None => factor_pairs(n, starts, rows, values),
    }
}
