// The chain to a pair, back through the levels of the closed set's pairs.
ghost use Rattle.std.specs.Prelude.{◌&&◌, ◌≡◌, ◌<◌, ◌-◌, eqb, length};
ghost use Rattle.lists.specs.Overwrite.{overwrite};
ghost use Rattle.columns.specs.Factor.{Factor};
ghost use Rattle.columns.specs.Kept.{nonzero, pattern};
ghost use Rattle.closed_set.specs.ClosedSet.{descends};
ghost use Rattle.levels.specs.Levels.{level_word};
ghost use Rattle.levels.specs.Back.{back_row, back_column, levels_back};
ghost use Rattle.levels.specs.Written.{rows_of, columns_of, BackInput, WriteInput};

use kept_entries::diagonal::first_from;
use kept_entries::stored::kept_below;
use pair_places::column_place;
use words::at;

// A row and a column.
#[derive(Clone, Copy)]
pub struct Pair {
    pub row: usize,
    pub column: usize,
}

// Whether d is a descendant of column j.
fn is_descendant(n: usize, starts: &[u32], rows: &[u32], values: &[f64], j: usize, d: usize) -> bool
    requires { Factor n starts.now rows.now (length values.now) × (j < n) }
    ensures { result ≡ descends (pattern starts.now rows.now (nonzero values.now)) j d }
{
    let end = at(starts, j + 1);
    let p = first_from(d, rows, at(starts, j), end);
    if end <= p {
        return false;
    }
    if at(rows, p) != d {
        return false;
    }
    kept_below(j, p, rows, values)
}

// Whether (a, j) has the level and d is a descendant of column j.
fn leads(
    n: usize,
    starts: &[u32],
    rows: &[u32],
    values: &[f64],
    a: usize,
    j: usize,
    d: usize,
    level: usize,
    scratch: &[u32],
) -> bool
    requires { BackInput n starts.now rows.now (length values.now) a j scratch.now }
    ensures { result ≡ (descends (pattern starts.now rows.now (nonzero values.now)) j d
        && eqb (level_word n scratch.now a j) level) }
{
    if at(scratch, column_place(n, a, j)) != level {
        return false;
    }
    is_descendant(n, starts, rows, values, j, d)
}

// The lowest pair of the level, by column then row, that (r, c) is a dependency of.
fn pair_before(
    n: usize,
    starts: &[u32],
    rows: &[u32],
    values: &[f64],
    r: usize,
    c: usize,
    level: usize,
    scratch: &[u32],
) -> Pair
    requires { BackInput n starts.now rows.now (length values.now) r c scratch.now }
    ensures row_value { result.row ≡ back_row (pattern starts.now rows.now (nonzero values.now)) (level_word n scratch.now) level r c }
    ensures column_value { result.column ≡ back_column (pattern starts.now rows.now (nonzero values.now)) (level_word n scratch.now) level r c }
{
    for j in 0..c {
        if leads(n, starts, rows, values, c, j, r, level, scratch) {
            return Pair { row: c, column: j };
        }
        if leads(n, starts, rows, values, r, j, c, level, scratch) {
            return Pair { row: r, column: j };
        }
    }
    if leads(n, starts, rows, values, c, c, r, level, scratch) {
        return Pair { row: c, column: c };
    }
    Pair { row: r, column: c }
}

// Writes the pairs back from (r, c), which has the level, to the front of the lists, the first of them first.
pub fn write_chain(
    n: usize,
    starts: &[u32],
    rows: &[u32],
    values: &[f64],
    r: usize,
    c: usize,
    level: usize,
    scratch: &[u32],
    chain_rows: &mut [u32],
    chain_columns: &mut [u32],
)
    requires { WriteInput n starts.now rows.now (length values.now) r c level scratch.now (length chain_rows.old) (length chain_columns.old) }
    ensures chain_rows_after { chain_rows.new ≡ overwrite
        (rows_of (levels_back (pattern starts.now rows.now (nonzero values.now)) (level_word n scratch.now) (level - 1) r c))
        chain_rows.old }
    ensures chain_columns_after { chain_columns.new ≡ overwrite
        (columns_of (levels_back (pattern starts.now rows.now (nonzero values.now)) (level_word n scratch.now) (level - 1) r c))
        chain_columns.old }
{
    let mut row = r;
    let mut column = c;
    let last = level - 1;
    chain_rows[last] = row as u32;
    chain_columns[last] = column as u32;
    for k in (0..last).rev() {
        let before = pair_before(n, starts, rows, values, row, column, k + 1, scratch);
        row = before.row;
        column = before.column;
        chain_rows[k] = row as u32;
        chain_columns[k] = column as u32;
    }
}
