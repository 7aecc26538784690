// The place of a pair in lists that are taken to be a well-formed result: it stays inside them and does not read a column for its order.
ghost use Rattle.std.specs.Prelude.{◌≡◌, ◌+◌, ◌<◌, ◌≤◌, length};
ghost use Rattle.result.specs.Halving.{column_within, place_within, lookup_place_within};
ghost use Rattle.column_search.specs.Reply.{place_reply};
ghost use Rattle.refusal.specs.Refusal.{reply_of};

use super::halving::find_by_halving;
use super::pair_place::of_row;
use refusal::Refusal;
use words::at;

// The place of row r in column c; `values` is the number of values.
fn column_within(starts: &[u32], rows: &[u32], values: usize, r: usize, c: usize) -> Option<usize>
    requires { c + 1 < length starts.now }
    ensures { place_reply result ≡ column_within starts.now rows.now values r c }
{
    let e = at(starts, c + 1);
    if rows.len() < e {
        return None;
    }
    if values < e {
        return None;
    }
    find_by_halving(rows, r, at(starts, c), e)
}

// The same where r, at least c, may be outside.
fn ordered_place_within(
    starts: &[u32],
    rows: &[u32],
    values: usize,
    r: usize,
    c: usize,
) -> Result<usize, Refusal>
    requires { c ≤ r }
    ensures { reply_of result ≡ place_within starts.now rows.now values r c }
{
    if starts.len() <= r {
        return Err(Refusal::NotCovered);
    }
    if starts.len() == r + 1 {
        return Err(Refusal::NotCovered);
    }
    of_row(column_within(starts, rows, values, r, c))
}

// The same for a pair in either order: `pair_place` in a well-formed result, by `within_place`.
pub fn pair_place_within(
    starts: &[u32],
    rows: &[u32],
    values: usize,
    row: usize,
    col: usize,
) -> Result<usize, Refusal>
    ensures { reply_of result ≡ lookup_place_within starts.now rows.now values row col }
{
    ordered_place_within(starts, rows, values, row.max(col), row.min(col))
}
