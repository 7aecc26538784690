// The lookup in a selected-inverse result that is known to be well formed: it stays inside its lists and does not read a column for its order.
ghost use Rattle.std.specs.Prelude.{◌≡◌};
ghost use Rattle.result.specs.Halving.{lookup_within};
ghost use Rattle.refusal.specs.Refusal.{reply_of};

use super::ordered::value_at;
use column_search::within::pair_place_within;
use refusal::Refusal;

// The entry at a row and a column, exchanged if row < column: `get` in a well-formed result, by `within_lookup`.
pub fn get_well_formed(
    starts: &[u32],
    rows: &[u32],
    values: &[f64],
    row: usize,
    col: usize,
) -> Result<f64, Refusal>
    ensures { reply_of result ≡ lookup_within starts.now rows.now values.now row col }
{
    value_at(
        values,
        pair_place_within(starts, rows, values.len(), row, col),
    )
}
