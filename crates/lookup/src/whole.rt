// The lookup in a selected-inverse result of whole numbers.
ghost use Rattle.std.specs.Prelude.{◌≡◌, pos};
ghost use Rattle.result.specs.Lookup.{lookup_of};
ghost use Rattle.refusal.specs.Refusal.{reply_of};

use super::ordered::value_at;
use column_search::pair_place::pair_place;
use refusal::Refusal;

// The entry at a row and a column, exchanged if row < column.
pub fn get_whole(
    starts: &[u32],
    rows: &[u32],
    values: &[i64],
    row: usize,
    col: usize,
) -> Result<i64, Refusal>
    ensures { reply_of result ≡ lookup_of (pos 0) starts.now rows.now values.now row col }
{
    let found = pair_place(starts, rows, values.len(), row, col);
    value_at(values, found.place)
}
