// Bounds on the variance of a row whose weights are known within ranges, over a selected-inverse result of whole numbers.
#![tactic(auto)]

pub mod checks;
pub mod range;
pub mod sums;
pub mod terms;

ghost use Rattle.std.specs.Prelude.{◌≡◌};
ghost use Rattle.refusal.specs.Steps.{first};
ghost use Rattle.weight_ranges.specs.Ranges.{range_steps, range_bounds};
ghost use Rattle.refusal.specs.Refusal.{reply_of};

use checks::check_call;
use refusal::Refusal;
use sums::row_bounds;

// The low and the high bound on the variance of the row with these columns, each weight from its low to its high end: the sums of each term's least
// and greatest value. Every choice of weights falls within, and no one choice need attain a bound.
pub fn variance_bounds_whole(
    starts: &[u32],
    rows: &[u32],
    values: &[i64],
    columns: &[u32],
    lows: &[i64],
    highs: &[i64],
) -> Result<(i64, i64), Refusal>
    ensures { reply_of result ≡ first (range_steps starts.now rows.now values.now columns.now lows.now highs.now)
        (range_bounds starts.now rows.now values.now columns.now lows.now highs.now) }
{
    check_call(starts, rows, values, columns, lows, highs)?;
    let b = row_bounds(starts, rows, values, columns, lows, highs);
    Ok((b.low, b.high))
}
