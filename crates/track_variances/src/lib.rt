// The variance of each run of consecutive cells along a track, over a selected-inverse result of whole numbers.
#![tactic(auto)]

pub mod cells;
pub mod checks;
pub mod runs;

ghost use Rattle.refusal.specs.Refusal.{reply_of};
ghost use Rattle.track_variances.specs.Track.{VariancesAlong};

use checks::check_call;
use refusal::Refusal;
use runs::write_runs;

// Writes the variance of each run of `width` cells to the front of the output. Each pair of places less than `width` apart is looked up twice:
// for 8 and 20, and when the later of its two cells comes.
pub fn track_variances_whole(
    starts: &[u32],
    rows: &[u32],
    values: &[i64],
    track: &[u32],
    width: usize,
    output: &mut [i64],
) -> Result<(), Refusal>
    ensures { VariancesAlong starts.now rows.now values.now track.now width output.old (reply_of result) output.new }
{
    check_call(starts, rows, values, track, width, output.len())?;
    write_runs(starts, rows, values, track, width, output);
    Ok(())
}
