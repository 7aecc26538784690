// Levels of pairs, one word for each, column by column, and behind them a queue of the pairs that have one.
#![tactic(auto)]

pub mod chain;
pub mod closing;

ghost use Rattle.std.specs.Prelude.{◌≤◌};
ghost use Rattle.pairs.specs.Pair.{ordered};
ghost use Rattle.levels.specs.Levels.{InsertLevelInput, Raised};

use pair_places::{PACKING, column_place, pair_total};

// Gives the pair (r, c), in order, the level and puts it at the queue's end, unless it has one; returns how many have one.
fn insert_ordered_level(
    n: usize,
    r: usize,
    c: usize,
    level: u32,
    count: usize,
    scratch: &mut [u32],
) -> usize
    requires { (c ≤ r) × InsertLevelInput n r c level scratch.old count }
    ensures { Raised n level (ordered r c) scratch.old count scratch.new result }
{
    let p = column_place(n, r, c);
    if scratch[p] != 0 {
        return count;
    }
    scratch[p] = level;
    let end = pair_total(n) + count;
    let w = r * PACKING + c;
    scratch[end] = w as u32;
    count + 1
}

// The same for a pair in either order.
pub fn insert_level(
    n: usize,
    a: usize,
    b: usize,
    level: u32,
    count: usize,
    scratch: &mut [u32],
) -> usize
    requires { InsertLevelInput n a b level scratch.old count }
    ensures { Raised n level (ordered a b) scratch.old count scratch.new result }
{
    if a < b {
        return insert_ordered_level(n, b, a, level, count, scratch);
    }
    insert_ordered_level(n, a, b, level, count, scratch)
}
