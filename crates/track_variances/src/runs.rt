// The variances of the runs, as the track's cells come one after the other. The list that is written holds the strips of the run's cells where no run is done yet.
ghost use Rattle.std.specs.Prelude.{◌≡◌, ◌+◌, ◌-◌, ◌<◌, ◌≤◌, length};
ghost use Rattle.lists.specs.Overwrite.{overwrite};
ghost use Rattle.run_sums.specs.Runs.{runs as runs·count, block_sum};
ghost use Rattle.track_variances.specs.Track.{track_entry, track_variances};
ghost use Rattle.track_variances.specs.Sizes.{RunsReady};
ghost use Rattle.track_variances.specs.Slots.{Slots, MayCome};

use super::cells::come;
use whole_steps::{minus, sum, whole_at};

// The run that the cell at place c joins, without the cell that leaves for it: the run so far while it grows, else the one before less its first cell's strip.
fn run_before(
    starts: &[u32],
    rows: &[u32],
    values: &[i64],
    track: &[u32],
    k: usize,
    c: usize,
    list: &[i64],
) -> i64
    requires { MayCome starts.now rows.now values.now track.now k c list.now }
    ensures { result ≡ block_sum (track_entry starts.now rows.now values.now track.now) (c - (c + 1 - k)) (c + 1 - k) }
{
    if c < k {
        return whole_at(list, 0);
    }
    let i = c - k;
    minus(whole_at(list, i), whole_at(list, i + 1))
}

// The place of the run that the cell at place c joins.
fn joined(c: usize, k: usize) -> usize
    requires { 0 < k }
    ensures { result ≡ c + 1 - k }
{
    if c < k {
        return 0;
    }
    c - k + 1
}

// The cell at place c comes.
fn next_cell(
    starts: &[u32],
    rows: &[u32],
    values: &[i64],
    track: &[u32],
    k: usize,
    c: usize,
    list: &mut [i64],
)
    requires { MayCome starts.now rows.now values.now track.now k c list.old }
    ensures { Slots (track_entry starts.now rows.now values.now track.now) k (c + 1) list.new }
{
    let f = joined(c, k);
    let before = run_before(starts, rows, values, track, k, c, list);
    let strip = come(starts, rows, values, track, k, c, f, list);
    list[f] = sum(before, strip);
}

// All cells come.
fn all_cells(
    starts: &[u32],
    rows: &[u32],
    values: &[i64],
    track: &[u32],
    k: usize,
    list: &mut [i64],
)
    requires runs_ready { RunsReady starts.now rows.now values.now track.now k }
    requires list_len { length list.old ≡ runs·count (length track.now) k }
    ensures { list.new ≡ track_variances starts.now rows.now values.now track.now k }
{
    list[0] = 0;
    for c in 0..track.len() {
        next_cell(starts, rows, values, track, k, c, list);
    }
}

// Writes the variance of each run to the front of the output.
pub fn write_runs(
    starts: &[u32],
    rows: &[u32],
    values: &[i64],
    track: &[u32],
    width: usize,
    output: &mut [i64],
)
    requires runs_ready { RunsReady starts.now rows.now values.now track.now width }
    requires width_in_bounds { runs·count (length track.now) width ≤ length output.old }
    ensures { output.new ≡ overwrite (track_variances starts.now rows.now values.now track.now width) output.old }
{
    let count = track.len() - (width - 1);
    all_cells(starts, rows, values, track, width, &mut output[0..count]);
}
