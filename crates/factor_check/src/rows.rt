// The rows of a factor's columns: refusal 3.
ghost use Rattle.std.specs.Prelude.{◌≡◌, false, ◌&&◌, ◌+◌, ◌-◌, ◌≤◌, ltb, length};
ghost use Rattle.lists.specs.Select.{tally};
ghost use Rattle.lists.specs.Test.{any};
ghost use Rattle.refusal.specs.Steps.{verdict};
ghost use Rattle.refusal.specs.Refusal.{reply_of};
ghost use Rattle.columns.specs.Columns.{start, outside_at, outside, not_above, unsorted, rows_steps};
ghost use Rattle.columns.specs.Factor.{Starts};

use refusal::Refusal;
use words::at;
use words::order::descents;

// 1 where the column from s to e has a first row that is not above the row stored before it, else 0.
// That is what the descents below e have besides those below s and the column's own.
fn start_descent(rows: &[u32], s: usize, e: usize) -> usize
    requires { (s ≤ e) × (e ≤ length rows.now) }
    ensures { tally (not_above rows.now) 1 e ≡ tally (not_above rows.now) 1 s + result + tally (not_above rows.now) (s + 1) e }
{
    if s == 0 {
        return 0;
    }
    if s == e {
        return 0;
    }
    if rows[s] <= rows[s - 1] {
        return 1;
    }
    0
}

// How many of the first n columns have such a first row. Where all columns ascend, these are all descents, else fewer.
fn start_descents(n: usize, starts: &[u32], rows: &[u32]) -> usize
    requires { Starts n starts.now rows.now }
    ensures { any (unsorted starts.now rows.now) n ≡ ltb result (tally (not_above rows.now) 1 (start starts.now n)) }
{
    let mut count = 0;
    for c in 0..n {
        count += start_descent(rows, at(starts, c), at(starts, c + 1));
    }
    count
}

// Whether one of the first n columns does not ascend.
fn column_unsorted(n: usize, starts: &[u32], rows: &[u32]) -> bool
    requires { Starts n starts.now rows.now }
    ensures { result ≡ any (unsorted starts.now rows.now) n }
{
    start_descents(n, starts, rows) < descents(rows, 0, starts[n])
}

// Whether the row before e is n or more.
fn last_outside(n: usize, rows: &[u32], e: usize) -> bool
    requires { e ≤ length rows.now }
    ensures { result ≡ (ltb 0 e && outside_at n rows.now (e - 1)) }
{
    if e == 0 {
        return false;
    }
    n <= at(rows, e - 1)
}

// Whether a row is n or more. Columns ascend, so the last row of each decides.
fn row_outside(n: usize, starts: &[u32], rows: &[u32]) -> bool
    requires { Starts n starts.now rows.now × (any (unsorted starts.now rows.now) n ≡ false) }
    ensures { result ≡ outside n rows.now }
{
    for c in 0..n {
        if last_outside(n, rows, at(starts, c + 1)) {
            return true;
        }
    }
    false
}

// 3: a row of n or more, or one not above the one before it in its column.
pub fn check_rows(n: usize, starts: &[u32], rows: &[u32]) -> Result<(), Refusal>
    requires { Starts n starts.now rows.now }
    ensures { reply_of result ≡ verdict (rows_steps n starts.now rows.now) }
{
    if column_unsorted(n, starts, rows) {
        return Err(Refusal::BrokenRows);
    }
    if row_outside(n, starts, rows) {
        return Err(Refusal::BrokenRows);
    }
    Ok(())
}
