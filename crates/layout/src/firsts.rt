// Where the positions of a set's columns start, and each member's position, from the marks, with no list of all rows: for an engine that may not write
// the result's lists before its entries are known.
ghost use Rattle.std.specs.Prelude.{◌≡◌, ◌+◌, ◌≤◌, ◌<◌, length};
ghost use Rattle.lists.specs.Select.{tally};
ghost use Rattle.pairs.specs.Pair.{max_pairs};
ghost use Rattle.marked_pairs.specs.MarkedPairs.{ColumnsReached};
ghost use Rattle.layout.specs.ColumnRows.{column_test, ListColumnInput, ColumnListed};
ghost use Rattle.layout.specs.Layout.{ColumnPlaced, ReachedColumn, LayFirstsInput, FirstsLaid};

use super::lay_positions;
use pair_places::scratch::queue_start;
use set_bits::list_bits;
use words::at;

// Lists the rows of column c's members, whose marks start at `place`, at the front of the list; returns how many they are.
pub fn list_column(n: usize, place: usize, c: usize, listed: &mut [u32], scratch: &[u32]) -> usize
    requires { ListColumnInput n place c 0 listed.old scratch.now }
    ensures { ColumnListed n c n 0 listed.old scratch.now listed.new result }
{
    list_bits(n, place, c, 0, listed, scratch)
}

// Writes the positions of column c's members, from `first` on; returns where the next column's start.
fn place_column(
    n: usize,
    place: usize,
    c: usize,
    first: usize,
    listed: &mut [u32],
    scratch: &mut [u32],
) -> usize
    requires { ListColumnInput n place c 0 listed.old scratch.old × (first + tally (column_test n scratch.old c) c n ≤ max_pairs) }
    ensures { (result ≡ first + tally (column_test n scratch.old c) c n) × ColumnPlaced n c first scratch.old scratch.new }
{
    let count = list_column(n, place, c, listed, scratch);
    lay_positions(
        queue_start(n) + (place - c),
        first,
        0,
        count,
        listed,
        scratch,
    );
    first + count
}

// The same for a column that closing reached; any other has no marked pair, and is passed over.
fn place_reached_column(
    n: usize,
    place: usize,
    c: usize,
    first: usize,
    reached: &[u32],
    listed: &mut [u32],
    scratch: &mut [u32],
) -> usize
    requires list_column_input { ListColumnInput n place c 0 listed.old scratch.old × (first + tally (column_test n scratch.old c) c n ≤ max_pairs) }
    requires c_in_bounds { (c < length reached.now) × ReachedColumn n c reached.now scratch.old }
    ensures { (result ≡ first + tally (column_test n scratch.old c) c n) × ColumnPlaced n c first scratch.old scratch.new }
{
    if at(reached, c) == 0 {
        return first;
    }
    place_column(n, place, c, first, listed, scratch)
}

// Writes where each column's positions start, and each member's position; returns how many members there are.
pub fn lay_firsts(
    n: usize,
    reached: &[u32],
    firsts: &mut [u32],
    listed: &mut [u32],
    scratch: &mut [u32],
) -> usize
    requires { LayFirstsInput n firsts.old listed.old scratch.old × (n ≤ length reached.now) × ColumnsReached n scratch.old reached.now }
    ensures { FirstsLaid n scratch.old firsts.new scratch.new result }
{
    let mut count = 0;
    let mut place = 0;
    for c in 0..n {
        firsts[c] = count as u32;
        count = place_reached_column(n, place, c, count, reached, listed, scratch);
        place += n - c;
    }
    count
}
