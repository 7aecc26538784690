// Takahashi's recurrence in whole numbers over a closed set of pairs, columns from the last to the first, the rows of each from the last to the first, until
// an entry, a product or a sum exceeds 2^53.
#![tactic(auto)]

pub mod column_sums;
pub mod sums;

ghost use Rattle.std.specs.Prelude.{◌≡◌, ◌+◌, ◌≤◌, ◌<◌, true, pos, length, get_or};
ghost use Rattle.refusal.specs.Steps.{answered};
ghost use Rattle.pairs.specs.ColumnOrder.{column_marking, set_size};
ghost use Rattle.entries.specs.Entries.{column_count};
ghost use Rattle.exact.specs.Multiple.{Small};
ghost use Rattle.whole_route.specs.Sums.{whole_inverse_at, whole_sum};
ghost use Rattle.whole_route.specs.ColumnSums.{column_sums, MostFrom, WholeSumsStored};
ghost use Rattle.whole_route.specs.Route.{last_step, StoreInput, EntryStored, EntryInput, EntryDone, RowsInput, RowsDone, WholeColumnInput, WholeRouteInput, RouteDone};

use column_sums::{greatest_size, sum_column};
use layout::firsts::list_column;
use pair_places::positions::column_shift;
use sums::entry_sum;
use whole_steps::{is_beyond, minus, whole_at};
use words::at;

// An entry from its sum: below the diagonal -S, on it 1 - S.
fn last_step(i: usize, j: usize, sum: i64) -> i64
    requires { Small sum }
    ensures { result ≡ last_step i j sum }
{
    if i == j {
        return minus(1, sum);
    }
    minus(0, sum)
}

// Stores an entry at q unless it is beyond 2^53; returns whether it is.
fn store_entry(i: usize, j: usize, q: usize, sum: i64, work: &mut [i64]) -> bool
    requires { StoreInput q sum (length work.old) }
    ensures { EntryStored q (last_step i j sum) work.old work.new result }
{
    let z = last_step(i, j, sum);
    if is_beyond(z) {
        return true;
    }
    work[q] = z;
    false
}

// The entry (i, j), whose position is q, once those behind it are there; returns whether it, or a product or a sum of it, is beyond 2^53, and then leaves the list as it was.
fn whole_entry(
    n: usize,
    i: usize,
    j: usize,
    q: usize,
    s: usize,
    e: usize,
    starts: &[u32],
    rows: &[u32],
    values: &[i64],
    scratch: &[u32],
    work: &mut [i64],
) -> bool
    requires { EntryInput n i j q s e starts.now rows.now values.now scratch.now work.old }
    ensures { EntryDone n i j q starts.now rows.now values.now work.old work.new result }
{
    let sum = entry_sum(n, i, j, s, e, rows, values, scratch, work);
    match sum {
        None => true,
        Some(x) => store_entry(i, j, q, x, work),
    }
}

// The same where the entry's sum stands at its position.
fn summed_entry(
    n: usize,
    i: usize,
    j: usize,
    q: usize,
    s: usize,
    e: usize,
    starts: &[u32],
    rows: &[u32],
    values: &[i64],
    scratch: &[u32],
    work: &mut [i64],
) -> bool
    requires entry_input { EntryInput n i j q s e starts.now rows.now values.now scratch.now work.old }
    requires pos_value { answered (get_or work.old q (pos 0)) ≡ whole_sum rows.now values.now j (whole_inverse_at n scratch.now work.old i) s e }
    ensures { EntryDone n i j q starts.now rows.now values.now work.old work.new result }
{
    let sum = whole_at(work, q);
    store_entry(i, j, q, sum, work)
}

// The same where the sum may stand there: if summed, it does below the diagonal.
fn next_entry(
    n: usize,
    i: usize,
    j: usize,
    q: usize,
    s: usize,
    e: usize,
    summed: bool,
    starts: &[u32],
    rows: &[u32],
    values: &[i64],
    scratch: &[u32],
    work: &mut [i64],
) -> bool
    requires entry_input { EntryInput n i j q s e starts.now rows.now values.now scratch.now work.old }
    requires pos_value { summed ≡ true → j < i → answered (get_or work.old q (pos 0)) ≡ whole_sum rows.now values.now j (whole_inverse_at n scratch.now work.old i) s e }
    ensures { EntryDone n i j q starts.now rows.now values.now work.old work.new result }
{
    if summed {
        if j < i {
            return summed_entry(n, i, j, q, s, e, starts, rows, values, scratch, work);
        }
    }
    whole_entry(n, i, j, q, s, e, starts, rows, values, scratch, work)
}

// The entries of column j, whose members' rows are listed, from the last row to the first; returns whether one exceeds 2^53, and stops there. If summed, the
// sums below the diagonal stand at their positions.
fn whole_rows(
    n: usize,
    j: usize,
    first: usize,
    count: usize,
    s: usize,
    e: usize,
    summed: bool,
    listed: &[u32],
    starts: &[u32],
    rows: &[u32],
    values: &[i64],
    scratch: &[u32],
    work: &mut [i64],
) -> bool
    requires rows_input { RowsInput n j first count s e listed.now starts.now rows.now values.now scratch.now work.old }
    requires whole_sums_stored { WholeSumsStored (column_sums n j first count s e listed.now rows.now values.now scratch.now) summed work.old }
    ensures { RowsDone n j first starts.now rows.now values.now scratch.now work.old work.new result }
{
    for q in (0..count).rev() {
        if next_entry(
            n,
            at(listed, q),
            j,
            first + q,
            s,
            e,
            summed,
            starts,
            rows,
            values,
            scratch,
            work,
        ) {
            return true;
        }
    }
    false
}

// The entries of column j, whose members' positions start at `first`, once those of the later columns are there, all of at most a size.
fn whole_column(
    n: usize,
    j: usize,
    first: usize,
    most: usize,
    listed: &mut [u32],
    starts: &[u32],
    rows: &[u32],
    values: &[i64],
    scratch: &[u32],
    work: &mut [i64],
) -> bool
    requires whole_column_input { WholeColumnInput n j first listed.old starts.now rows.now values.now scratch.now work.old }
    requires most_from { MostFrom (column_count n (column_marking n scratch.now) (j + 1)) most (set_size n (column_marking n scratch.now)) work.old }
    ensures { RowsDone n j first starts.now rows.now values.now scratch.now work.old work.new result }
{
    let count = list_column(n, column_shift(n, j) + j, j, listed, scratch);
    let s = at(starts, j);
    let e = at(starts, j + 1);
    let summed = sum_column(
        n, j, first, count, s, e, most, listed, starts, rows, values, scratch, work,
    );
    whole_rows(
        n, j, first, count, s, e, summed, listed, starts, rows, values, scratch, work,
    )
}

// The same, for a column whose members' positions end before `next`; one without members is passed over.
fn filled_column(
    n: usize,
    j: usize,
    first: usize,
    next: usize,
    most: usize,
    listed: &mut [u32],
    starts: &[u32],
    rows: &[u32],
    values: &[i64],
    scratch: &[u32],
    work: &mut [i64],
) -> bool
    requires whole_column_input { WholeColumnInput n j first listed.old starts.now rows.now values.now scratch.now work.old }
    requires most_from { MostFrom (column_count n (column_marking n scratch.now) (j + 1)) most (set_size n (column_marking n scratch.now)) work.old }
    requires next_value { next ≡ column_count n (column_marking n scratch.now) (j + 1) }
    ensures { RowsDone n j first starts.now rows.now values.now scratch.now work.old work.new result }
{
    if first == next {
        return false;
    }
    whole_column(
        n, j, first, most, listed, starts, rows, values, scratch, work,
    )
}

// The entries of the inverse at the pairs of the closed set that the marks say, `count` of them, at their positions; returns whether the exact recurrence over the set exceeds 2^53, and stops there.
pub fn whole_selected_inverse(
    n: usize,
    starts: &[u32],
    rows: &[u32],
    values: &[i64],
    count: usize,
    firsts: &[u32],
    listed: &mut [u32],
    scratch: &[u32],
    work: &mut [i64],
) -> bool
    requires whole_route_input { WholeRouteInput n starts.now rows.now values.now firsts.now scratch.now work.old × (n ≤ length listed.old) }
    requires count_value { count ≡ set_size n (column_marking n scratch.now) }
    ensures { RouteDone n starts.now rows.now values.now scratch.now work.old work.new result }
{
    let mut next = count;
    let mut most = 0;
    for j in (0..n).rev() {
        let first = at(firsts, j);
        if filled_column(
            n, j, first, next, most, listed, starts, rows, values, scratch, work,
        ) {
            return true;
        }
        most = greatest_size(first, next, most, work);
        next = first;
    }
    false
}
