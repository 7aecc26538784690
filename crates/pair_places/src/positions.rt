// A pair's position among the entries of a result: it stands in a word behind the marks.
ghost use Rattle.std.specs.Prelude.{◌≡◌, ◌+◌, ◌<◌, ◌≤◌, length};
ghost use Rattle.refusal.specs.Bounds.{max_dimension};
ghost use Rattle.pairs.specs.Scratch.{queue_start};
ghost use Rattle.pairs.specs.ColumnOrder.{col_start};
ghost use Rattle.pairs.specs.Positions.{position_at};
ghost use Rattle.pair_places.specs.Position.{PositionInput};

use super::scratch::queue_start;
use words::at;

// How far the places of column c are past their rows.
pub fn column_shift(n: usize, c: usize) -> usize
    requires { (n ≤ max_dimension) × (c < n) }
    ensures { result + c ≡ col_start n c }
{
    c * (2 * n - 1 - c) / 2
}

// How far the words with the positions of column c are past its rows.
pub fn column_base(n: usize, c: usize) -> usize
    requires { (n ≤ max_dimension) × (c < n) }
    ensures { result + c ≡ queue_start n + col_start n c }
{
    queue_start(n) + column_shift(n, c)
}

// The position of the pair of i and k. The positions start at the word `positions`, and those of column i are `base` words past its rows.
pub fn pair_position(
    n: usize,
    positions: usize,
    base: usize,
    i: usize,
    k: usize,
    scratch: &[u32],
) -> usize
    requires { (positions ≡ queue_start n) × (base + i ≡ queue_start n + col_start n i) × PositionInput n i k (length scratch.now) }
    ensures { result ≡ position_at n scratch.now i k }
{
    if i <= k {
        return at(scratch, base + k);
    }
    let other = positions + column_shift(n, k);
    at(scratch, other + i)
}
