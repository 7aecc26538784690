// A column's stop: where one of its descendants is stored of which every other one is a descendant.
ghost use Rattle.std.specs.Prelude.{◌≡◌, true, ◌+◌, ◌-◌, ◌≤◌, ◌<◌, max, length};
ghost use Rattle.lists.specs.Test.{any_in};
ghost use Rattle.columns.specs.Factor.{Factor, Column};
ghost use Rattle.closure.specs.Nested.{Stop, StopInput, StopFound};
ghost use Rattle.closure.specs.Covered.{FirstKept, PlaceInput, Place, CoveredInput, Covered, other_row};

use kept_entries::diagonal::first_from;
use kept_entries::nonzero_between;
use kept_entries::stored::{StoredValue, kept_below};
use words::at;

// The first place from s to e kept below the diagonal of column c, e if none.
fn first_descendant<T: StoredValue>(
    c: usize,
    s: usize,
    e: usize,
    rows: &[u32],
    values: &[T],
) -> usize
    requires column { Column rows.now (length rows.now) s e }
    requires values_lent { length rows.now ≤ length values.now }
    ensures { FirstKept c s e rows.now (T.kept values.now) result }
{
    for q in s..e {
        if kept_below(c, q, rows, values) {
            return q;
        }
    }
    e
}

// Where the row of the entry at i is stored from j to e and is not 0, e if nowhere; j where the entry itself is 0.
fn next_place<T: StoredValue>(i: usize, j: usize, e: usize, rows: &[u32], values: &[T]) -> usize
    requires place_input { PlaceInput rows.now (length rows.now) i j e }
    requires values_lent { length rows.now ≤ length values.now }
    ensures { Place rows.now (T.kept values.now) i j e result }
{
    if !T::is_kept(values, i) {
        return j;
    }
    let r = at(rows, i);
    let k = first_from(r, rows, j, e);
    if k < e {
        if at(rows, k) == r {
            if T::is_kept(values, k) {
                return k;
            }
        }
    }
    e
}

// Whether a row from a to b is another than the one as far from j on. The loop has one exit, so that it is compiled to vector instructions.
fn other_rows(a: usize, b: usize, j: usize, rows: &[u32]) -> bool
    requires { (a ≤ b) × (b ≤ length rows.now) × (j + (b - a) ≤ length rows.now) }
    ensures { result ≡ any_in (other_row rows.now a j) a b }
{
    let mut other = false;
    for i in a..b {
        if rows[i] != rows[j + (i - a)] {
            other = true;
        }
    }
    other
}

// Whether the entries from a to b have the rows of entries from s to e that follow one another, none of them 0, as in most factors.
fn covered_in_order<T: StoredValue>(
    a: usize,
    b: usize,
    s: usize,
    e: usize,
    rows: &[u32],
    values: &[T],
) -> bool
    requires covered_input { CoveredInput rows.now (length rows.now) a b s e }
    requires values_lent { length rows.now ≤ length values.now }
    ensures { result ≡ true → Covered rows.now (T.kept values.now) a b s e }
{
    if b <= a {
        return true;
    }
    let j = first_from(at(rows, a), rows, s, e);
    if e < j + (b - a) {
        return false;
    }
    if other_rows(a, b, j, rows) {
        return false;
    }
    nonzero_between(values, j, j + (b - a)) == b - a
}

// Whether each entry from a to b that is not 0 has its row at an entry from s to e that is not 0; rows ascend, so both are read once.
fn covered_apart<T: StoredValue>(
    a: usize,
    b: usize,
    s: usize,
    e: usize,
    rows: &[u32],
    values: &[T],
) -> bool
    requires covered_input { CoveredInput rows.now (length rows.now) a b s e }
    requires values_lent { length rows.now ≤ length values.now }
    ensures { result ≡ true → Covered rows.now (T.kept values.now) a b s e }
{
    let mut j = s;
    for i in a..b {
        j = next_place(i, j, e, rows, values);
        if e <= j {
            return false;
        }
    }
    true
}

// The same, the quick way tried first.
fn covered<T: StoredValue>(
    a: usize,
    b: usize,
    s: usize,
    e: usize,
    rows: &[u32],
    values: &[T],
) -> bool
    requires covered_input { CoveredInput rows.now (length rows.now) a b s e }
    requires values_lent { length rows.now ≤ length values.now }
    ensures { result ≡ true → Covered rows.now (T.kept values.now) a b s e }
{
    if covered_in_order(a, b, s, e, rows, values) {
        return true;
    }
    covered_apart(a, b, s, e, rows, values)
}

// The place after column c's first descendant, where every other one is a descendant of it; else the column's end, which is always allowed
// and costs a caller time alone.
fn column_stop<T: StoredValue>(
    n: usize,
    c: usize,
    starts: &[u32],
    rows: &[u32],
    values: &[T],
) -> usize
    requires factor { Factor n starts.now rows.now (length rows.now) × (c < n) }
    requires values_lent { length rows.now ≤ length values.now }
    ensures { Stop starts.now rows.now (T.kept values.now) c result }
{
    let e = at(starts, c + 1);
    let q = first_descendant(c, at(starts, c), e, rows, values);
    if q < e {
        let p = at(rows, q);
        if covered(q + 1, e, at(starts, p), at(starts, p + 1), rows, values) {
            return q + 1;
        }
    }
    e
}

// A stop as it is listed: 1 where it is 0, for a column that ends there, so that 0 is listed where none was looked for.
fn at_least_one(stop: usize) -> usize
    ensures { result ≡ max 1 stop }
{
    if stop < 1 {
        return 1;
    }
    stop
}

// Column c's stop: the one listed, or, where none is yet, the one then found and listed.
pub fn find_stop<T: StoredValue>(
    n: usize,
    c: usize,
    starts: &[u32],
    rows: &[u32],
    values: &[T],
    stops: &mut [u32],
) -> usize
    requires stop_input { StopInput n c starts.now rows.now (T.kept values.now) (length rows.now) stops.old }
    requires values_lent { length rows.now ≤ length values.now }
    ensures { StopFound n c starts.now rows.now (T.kept values.now) stops.old stops.new result }
{
    let listed = at(stops, c);
    if 0 < listed {
        return listed;
    }
    let stop = at_least_one(column_stop(n, c, starts, rows, values));
    stops[c] = stop as u32;
    stop
}
