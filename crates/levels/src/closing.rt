// Closing the requested pairs under the dependencies of a factor, level by level: a pair's level is 1 more than its distance from them.
ghost use Rattle.std.specs.Prelude.{◌&&◌, length};
ghost use Rattle.lists.specs.Test.{any_in};
ghost use Rattle.pairs.specs.Pair.{ordered};
ghost use Rattle.columns.specs.Columns.{row};
ghost use Rattle.columns.specs.Kept.{nonzero, kept_below, pattern};
ghost use Rattle.closed_set.specs.Requests.{requested};
ghost use Rattle.levels.specs.Levels.{level_queue, Raised};
ghost use Rattle.levels.specs.Closing.{depends, word_depends, ClosePairInput, CloseEntryInput, CloseLevelInput, LevelPairsInput, LevelOne, MarkLevelsInput, AllLevels};

use super::insert_level;
use kept_entries::stored::kept_below;
use pair_places::{PACKING, pair_total};
use words::{at, clear};

// Gives every request's pair level 1, and no other pair a level; returns how many they are.
pub fn mark_levels(
    n: usize,
    request_rows: &[u32],
    request_columns: &[u32],
    scratch: &mut [u32],
) -> usize
    requires { MarkLevelsInput n request_rows.now request_columns.now scratch.old }
    ensures { LevelOne n (requested request_rows.now request_columns.now)
        scratch.old scratch.new result }
{
    clear(scratch, pair_total(n));
    let mut count = 0;
    for i in 0..request_rows.len() {
        count = insert_level(
            n,
            at(request_rows, i),
            at(request_columns, i),
            1,
            count,
            scratch,
        );
    }
    count
}

// Inserts the dependency of (r, c) that the entry at p of column c gives, if it is kept below the diagonal.
fn close_entry(
    n: usize,
    rows: &[u32],
    values: &[f64],
    r: usize,
    c: usize,
    p: usize,
    level: u32,
    count: usize,
    scratch: &mut [u32],
) -> usize
    requires { CloseEntryInput n rows.now (length values.now) r c p level scratch.old count }
    ensures { Raised n level (λ x y. kept_below rows.now (nonzero values.now) c p && ordered r (row rows.now p) x y)
        scratch.old count scratch.new result }
{
    if kept_below(c, p, rows, values) {
        return insert_level(n, r, at(rows, p), level, count, scratch);
    }
    count
}

// Gives the dependencies of (r, c) the level, where they have none.
fn close_pair(
    n: usize,
    starts: &[u32],
    rows: &[u32],
    values: &[f64],
    r: usize,
    c: usize,
    level: u32,
    count: usize,
    scratch: &mut [u32],
) -> usize
    requires { ClosePairInput n starts.now rows.now (length values.now) r c level scratch.old count }
    ensures { Raised n level (depends (pattern starts.now rows.now (nonzero values.now)) r c)
        scratch.old count scratch.new result }
{
    let start = at(starts, c);
    let end = at(starts, c + 1);
    let mut total = count;
    for p in start..end {
        total = close_entry(n, rows, values, r, c, p, level, total, scratch);
    }
    total
}

// Gives the dependencies of the queue's pairs from lo to below hi the level, where they have none; returns how many pairs have one.
fn close_level(
    n: usize,
    starts: &[u32],
    rows: &[u32],
    values: &[f64],
    lo: usize,
    hi: usize,
    level: u32,
    scratch: &mut [u32],
) -> usize
    requires { CloseLevelInput n starts.now rows.now (length values.now) lo hi level scratch.old }
    ensures { Raised n level
        (λ x y. any_in (λ j. word_depends (pattern starts.now rows.now (nonzero values.now)) (level_queue n scratch.old j) x y) lo hi)
        scratch.old hi scratch.new result }
{
    let start = pair_total(n);
    let mut count = hi;
    for j in lo..hi {
        let w = at(scratch, start + j);
        count = close_pair(
            n,
            starts,
            rows,
            values,
            w / PACKING,
            w % PACKING,
            level,
            count,
            scratch,
        );
    }
    count
}

// Gives every pair of the closed set its level, from the requested pairs on.
pub fn level_pairs(
    n: usize,
    starts: &[u32],
    rows: &[u32],
    values: &[f64],
    request_rows: &[u32],
    request_columns: &[u32],
    scratch: &mut [u32],
)
    requires { LevelPairsInput n starts.now rows.now (length values.now) request_rows.now request_columns.now scratch.old }
    ensures { AllLevels n (pattern starts.now rows.now (nonzero values.now))
        (requested request_rows.now request_columns.now) scratch.old scratch.new }
{
    let mut hi = mark_levels(n, request_rows, request_columns, scratch);
    let mut lo = 0;
    let mut level = 1;
    while lo < hi {
        level += 1;
        let count = close_level(n, starts, rows, values, lo, hi, level, scratch);
        lo = hi;
        hi = count;
    }
}
