// Pairs of a well-formed result of whole numbers: the entry of a pair, and the faults of the pairs of listed cells.
#![tactic(auto)]

pub mod faults;

ghost use Rattle.std.specs.Prelude.{◌≡◌, length};
ghost use Rattle.result.specs.Lookup.{WellFormed};
ghost use Rattle.whole_pairs.specs.Entry.{entry_or_zero};

use column_search::within::pair_place_within;
use whole_steps::whole_at;

// The entry of a pair, 0 where it is absent.
pub fn entry_or_zero(starts: &[u32], rows: &[u32], values: &[i64], row: usize, col: usize) -> i64
    requires { WellFormed starts.now rows.now (length values.now) }
    ensures { result ≡ entry_or_zero starts.now rows.now values.now row col }
{
    match pair_place_within(starts, rows, values.len(), row, col) {
        Ok(p) => whole_at(values, p),
        Err(_) => 0,
    }
}
