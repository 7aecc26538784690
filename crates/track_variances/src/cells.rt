// A cell that comes to a run: its entries with the run's other cells are looked up once and added to its own strip and to theirs.
ghost use Rattle.std.specs.Prelude.{◌≡◌, ◌+◌, ◌-◌, set, ◌+ℤ◌};
ghost use Rattle.integers.specs.Size.{SizeWithin};
ghost use Rattle.columns.specs.WholeFactor.{whole_value};
ghost use Rattle.run_sums.specs.Slide.{strip};
ghost use Rattle.track_variances.specs.Track.{track_entry, max_track_entry};
ghost use Rattle.track_variances.specs.Slots.{MayCome, Come};

use whole_pairs::entry_or_zero;
use whole_steps::{sum, whole_at};
use words::at;

// Adds z twice at place t, if the list has it.
fn add_twice(list: &mut [i64], t: usize, z: i64)
    requires { (SizeWithin 4503599627370496 (whole_value list.old t)) × (SizeWithin max_track_entry z) }
    ensures { list.new ≡ set list.old t (whole_value list.old t +ℤ (z +ℤ z)) }
{
    if list.len() <= t {
        return;
    }
    let there = whole_at(list, t);
    list[t] = sum(there, sum(z, z));
}

// Writes z at place t, if the list has it.
fn put(list: &mut [i64], t: usize, z: i64)
    ensures { list.new ≡ set list.old t z }
{
    if list.len() <= t {
        return;
    }
    list[t] = z;
}

// The strip of the cell at place c with the cells from f to below c. In `list` it is added to theirs, and its own begins.
pub fn come(
    starts: &[u32],
    rows: &[u32],
    values: &[i64],
    track: &[u32],
    k: usize,
    c: usize,
    f: usize,
    list: &mut [i64],
) -> i64
    requires may_come { MayCome starts.now rows.now values.now track.now k c list.old }
    requires f_value { f ≡ c + 1 - k }
    ensures value { result ≡ strip (track_entry starts.now rows.now values.now track.now) c f (c - f) }
    ensures come { Come (track_entry starts.now rows.now values.now track.now) c f list.old list.new }
{
    let row = at(track, c);
    let mut line: i64 = 0;
    for p in f..c {
        let z = entry_or_zero(starts, rows, values, row, at(track, p));
        line = sum(line, z);
        add_twice(list, p + 1, z);
    }
    let own = entry_or_zero(starts, rows, values, row, row);
    put(list, c + 1, own);
    sum(own, sum(line, line))
}
