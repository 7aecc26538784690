// The place of a pair in a result, or why it has none, and how many places the search looks at.
ghost use Rattle.std.specs.Prelude.{◌≡◌};
ghost use Rattle.refusal.specs.Steps.{refused};
ghost use Rattle.refusal.specs.Refusal.{refusal_number, reply_of};
ghost use Rattle.result.specs.Lookup.{entry_place, lookup_place};
ghost use Rattle.result.specs.Counted.{entry_looks, lookup_looks};
ghost use Rattle.column_search.specs.Reply.{place_reply};

use super::find_in_column;
use super::result_check::check_column;
use refusal::Refusal;

// The same, and how many places were looked at.
#[derive(Clone, Copy)]
pub struct CountedPlace {
    pub place: Result<usize, Refusal>,
    pub looks: usize,
}

// A row's place as a pair's.
pub fn of_row(place: Option<usize>) -> Result<usize, Refusal>
    ensures { reply_of result ≡ place_reply place }
{
    match place {
        Some(p) => Ok(p),
        None => Err(Refusal::NotCovered),
    }
}

// A refusal before the search.
fn unsearched(why: Refusal) -> CountedPlace
    ensures { (reply_of result.place ≡ refused (refusal_number why)) × (result.looks ≡ 0) }
{
    CountedPlace {
        place: Err(why),
        looks: 0,
    }
}

// The place of row r and column c, r at least c; `values` is the number of values.
fn ordered_place(starts: &[u32], rows: &[u32], values: usize, r: usize, c: usize) -> CountedPlace
    ensures place_value { reply_of result.place ≡ entry_place starts.now rows.now values r c }
    ensures looks_value { result.looks ≡ entry_looks starts.now rows.now values r c }
{
    if starts.len() == 0 {
        return unsearched(Refusal::BrokenStarts);
    }
    let n = starts.len() - 1;
    if n <= c {
        return unsearched(Refusal::NotCovered);
    }
    match check_column(starts, rows, values, c) {
        Err(why) => unsearched(why),
        Ok(()) => {
            if n <= r {
                return unsearched(Refusal::NotCovered);
            }
            let found = find_in_column(starts, rows, r, c);
            let place = found.place;
            CountedPlace {
                place: of_row(place),
                looks: found.looks,
            }
        }
    }
}

// The same for a pair in either order.
pub fn pair_place(
    starts: &[u32],
    rows: &[u32],
    values: usize,
    row: usize,
    col: usize,
) -> CountedPlace
    ensures place_value { reply_of result.place ≡ lookup_place starts.now rows.now values row col }
    ensures looks_value { result.looks ≡ lookup_looks starts.now rows.now values row col }
{
    if row < col {
        return ordered_place(starts, rows, values, col, row);
    }
    ordered_place(starts, rows, values, row, col)
}
