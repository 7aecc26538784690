// Variances over a result of whole numbers: bounds of a row whose weights are known within ranges, and the runs of a track.
ghost use Rattle.std.specs.Prelude.{◌≡◌};
ghost use Rattle.refusal.specs.Steps.{first};
ghost use Rattle.refusal.specs.Refusal.{reply_of};
ghost use Rattle.weight_ranges.specs.Ranges.{range_steps, range_bounds};
ghost use Rattle.track_variances.specs.Track.{VariancesAlong};
ghost use Rattle.verdicts.specs.Number.{checked_number};
ghost use Rattle.c_replies.specs.Numbers.{bounds_numbers, Shows};

use c_replies::BoundsNumbers;
use verdicts::checked_number;

// The low and the high bound on the variance of a row whose weights are known within ranges.
#[unsafe(no_mangle)]
pub extern "C" fn redstartgilt_variance_bounds_whole(
    starts: &[u32],
    rows: &[u32],
    values: &[i64],
    columns: &[u32],
    lows: &[i64],
    highs: &[i64],
) -> BoundsNumbers
    ensures { result ≡ bounds_numbers (first
        (range_steps starts.now rows.now values.now columns.now lows.now highs.now)
        (range_bounds starts.now rows.now values.now columns.now lows.now highs.now)) }
{
    BoundsNumbers::from(weight_ranges::variance_bounds_whole(
        starts, rows, values, columns, lows, highs,
    ))
}

// The variance of each run of consecutive cells along a track.
#[unsafe(no_mangle)]
pub extern "C" fn redstartgilt_track_variances_whole(
    starts: &[u32],
    rows: &[u32],
    values: &[i64],
    track: &[u32],
    width: usize,
    output: &mut [i64],
) -> u32
    ensures { Shows checked_number (λ d. VariancesAlong
        starts.now rows.now values.now track.now width output.old
        (reply_of d) output.new) result }
{
    checked_number(track_variances::track_variances_whole(
        starts, rows, values, track, width, output,
    ))
}
