// The result's layout from the marks of a set of pairs: the starts, the rows, and each member's position in them.
#![tactic(auto)]

pub mod firsts;

ghost use Rattle.std.specs.Prelude.{◌≤◌, ◌<◌, length};
ghost use Rattle.marked_pairs.specs.MarkedPairs.{ColumnsReached};
ghost use Rattle.layout.specs.Layout.{LayPositionsInput, PositionsLaid, LayColumnInput, ColumnLaid, ReachedColumn, LayOutInput, LaidOut};

use pair_places::scratch::queue_start;
use set_bits::count::count_bits;
use set_bits::list_bits;
use words::at;

// Writes the position of each row listed from `first` to below `end`, its place in the list and `shift`, `base` words past the row.
fn lay_positions(
    base: usize,
    shift: usize,
    first: usize,
    end: usize,
    rows: &[u32],
    scratch: &mut [u32],
)
    requires { LayPositionsInput base shift first end rows.now scratch.old }
    ensures { PositionsLaid base shift first end rows.now scratch.old scratch.new }
{
    for q in first..end {
        let r = at(rows, q);
        let position = shift + q;
        scratch[base + r] = position as u32;
    }
}

// Lists the rows of column c, whose marks start at `place`, behind `first` rows, with their positions; returns where the next column starts, by counting the marks.
fn lay_column(
    n: usize,
    place: usize,
    c: usize,
    first: usize,
    result_rows: &mut [u32],
    scratch: &mut [u32],
) -> usize
    requires { LayColumnInput n place c first result_rows.old scratch.old }
    ensures { ColumnLaid n c first result_rows.old scratch.old result_rows.new scratch.new result }
{
    let next = first + count_bits(scratch, place, place + (n - c));
    list_bits(n, place, c, first, result_rows, scratch);
    lay_positions(
        queue_start(n) + (place - c),
        0,
        first,
        next,
        result_rows,
        scratch,
    );
    next
}

// The same for a column that closing reached; any other has no marked pair, and is passed over.
fn lay_reached_column(
    n: usize,
    place: usize,
    c: usize,
    first: usize,
    reached: &[u32],
    result_rows: &mut [u32],
    scratch: &mut [u32],
) -> usize
    requires { LayColumnInput n place c first result_rows.old scratch.old × (c < length reached.now) × ReachedColumn n c reached.now scratch.old }
    ensures { ColumnLaid n c first result_rows.old scratch.old result_rows.new scratch.new result }
{
    if at(reached, c) == 0 {
        return first;
    }
    lay_column(n, place, c, first, result_rows, scratch)
}

// Writes the starts and rows of the set that the marks say, and each member's position, as many words past the queue's start as its place; returns how many members it has.
// Columns that closing did not reach, 0 in the list, have no marked pair, and are passed over.
pub fn lay_out(
    n: usize,
    reached: &[u32],
    result_starts: &mut [u32],
    result_rows: &mut [u32],
    scratch: &mut [u32],
) -> usize
    requires { LayOutInput n result_starts.old result_rows.old scratch.old × (n ≤ length reached.now) × ColumnsReached n scratch.old reached.now }
    ensures { LaidOut n result_starts.old result_rows.old scratch.old
        result_starts.new result_rows.new scratch.new result }
{
    let mut count = 0;
    let mut place = 0;
    for c in 0..n {
        result_starts[c] = count as u32;
        count = lay_reached_column(n, place, c, count, reached, result_rows, scratch);
        place += n - c;
    }
    result_starts[n] = count as u32;
    count
}
