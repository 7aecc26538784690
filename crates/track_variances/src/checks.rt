// What the variances along a track refuse: 2 and 3 of the result, 22, 8 and 20 of the runs, 7.
ghost use Rattle.std.specs.Prelude.{◌≡◌, ◌≤◌, ◌<◌, length};
ghost use Rattle.refusal.specs.Steps.{verdict};
ghost use Rattle.refusal.specs.Refusal.{reply_of};
ghost use Rattle.result.specs.Lookup.{WellFormed};
ghost use Rattle.track_variances.specs.Track.{width_steps, run_steps, track_steps, track_fault};

use column_search::result_check::check_result;
use refusal::Refusal;
use verdicts::check_output;
use whole_pairs::faults::{fault_verdict, line_fault};

// The widest run, and the largest entry in size.
const MAX_WIDTH: usize = 1024;

const MAX_TRACK_ENTRY: usize = 1099511627776;

// 22.
fn check_width(cells: usize, width: usize) -> Result<(), Refusal>
    ensures { reply_of result ≡ verdict (width_steps cells width) }
{
    if width == 0 {
        return Err(Refusal::BadWidth);
    }
    if MAX_WIDTH < width {
        return Err(Refusal::BadWidth);
    }
    if cells < width {
        return Err(Refusal::BadWidth);
    }
    Ok(())
}

// The worst fault of the pairs of cells less than `width` apart.
fn track_fault(starts: &[u32], rows: &[u32], values: &[i64], track: &[u32], width: usize) -> usize
    requires well_formed { WellFormed starts.now rows.now (length values.now) }
    requires width_nonzero { (0 < width) × (width ≤ length track.now) }
    ensures { result ≡ track_fault starts.now rows.now values.now track.now width }
{
    let cells = track.len();
    let mut found: usize = 0;
    for p in 0..cells {
        let e = (p + width).min(cells);
        found = found.max(line_fault(starts, rows, values, track, p, p, e, MAX_TRACK_ENTRY));
    }
    found
}

// 8 and 20.
fn check_runs(
    starts: &[u32],
    rows: &[u32],
    values: &[i64],
    track: &[u32],
    width: usize,
) -> Result<(), Refusal>
    requires well_formed { WellFormed starts.now rows.now (length values.now) }
    requires width_nonzero { (0 < width) × (width ≤ length track.now) }
    ensures { reply_of result ≡ verdict (run_steps starts.now rows.now values.now track.now width) }
{
    fault_verdict(track_fault(starts, rows, values, track, width))
}

// All of them; `room` is the output's length.
pub fn check_call(
    starts: &[u32],
    rows: &[u32],
    values: &[i64],
    track: &[u32],
    width: usize,
    room: usize,
) -> Result<(), Refusal>
    ensures { reply_of result ≡ verdict (track_steps starts.now rows.now values.now track.now width room) }
{
    if let Err(why) = check_result(starts, rows, values.len()) {
        return Err(why);
    }
    if let Err(why) = check_width(track.len(), width) {
        return Err(why);
    }
    if let Err(why) = check_runs(starts, rows, values, track, width) {
        return Err(why);
    }
    check_output(track.len() - (width - 1), room)
}
