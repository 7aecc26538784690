// Where a pair of the lower triangle stands: its place among all pairs, row by row and column by column, and its word in the queue.
#![tactic(auto)]

pub mod positions;
pub mod scratch;

ghost use Rattle.std.specs.Prelude.{◌≡◌, ◌<◌, ◌≤◌};
ghost use Rattle.refusal.specs.Bounds.{max_dimension};
ghost use Rattle.pairs.specs.Pair.{pair_total, max_pairs, row_place};
ghost use Rattle.pairs.specs.ColumnOrder.{column_place};

// A pair is one word of the queue: row times PACKING, and the column.
pub const PACKING: usize = 4096;

// T, the number of pairs.
pub fn pair_total(n: usize) -> usize
    requires { n ≤ max_dimension }
    ensures { (result ≡ pair_total n) × (result ≤ max_pairs) }
{
    n * (n + 1) / 2
}

// The place of (r, c): rows one after the other.
pub fn row_place(r: usize, c: usize) -> usize
    requires { (r ≤ max_dimension) × (c ≤ max_dimension) }
    ensures { result ≡ row_place r c }
{
    pair_total(r) + c
}

// The place of (r, c): columns one after the other, each from its diagonal down.
pub fn column_place(n: usize, r: usize, c: usize) -> usize
    requires { (n ≤ max_dimension) × (c ≤ r) × (r < n) }
    ensures { result ≡ column_place n r c }
{
    c * (2 * n + 1 - c) / 2 + (r - c)
}
