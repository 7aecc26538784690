// A sum of the recurrence over a column's stored entries in whole numbers, each product and each running sum held to 2^53, none once one is beyond: those
// kept below the diagonal count, ascending, each with an entry of the inverse read by position.
ghost use Rattle.std.specs.Prelude.{◌≡◌, ◌+◌, ◌<◌};
ghost use Rattle.pairs.specs.Scratch.{queue_start};
ghost use Rattle.pairs.specs.ColumnOrder.{col_start};
ghost use Rattle.exact.specs.Multiple.{Small};
ghost use Rattle.exact.specs.Checked.{plus_product};
ghost use Rattle.whole_route.specs.Number.{number_reply, sum_reply, SmallNumber};
ghost use Rattle.whole_route.specs.Sums.{whole_inverse_at, with_entry, whole_sum, TermInput, WholeSumInput};

use pair_places::positions::{column_shift, pair_position};
use pair_places::scratch::queue_start;
use whole_steps::{is_beyond, is_nonzero, product, product_beyond, size, sum, whole_at};
use words::at;

// The sum s with the product x, which is within 2^53; none if the sum is not.
fn add_within(s: i64, x: i64) -> Option<i64>
    requires { Small s × Small x }
    ensures { number_reply result ≡ sum_reply s x }
{
    let total = sum(s, x);
    if is_beyond(total) {
        return None;
    }
    Some(total)
}

// The sum with the product of l and z.
fn add_product(sum: Option<i64>, l: i64, z: i64) -> Option<i64>
    requires { SmallNumber (number_reply sum) × Small l × Small z }
    ensures { number_reply result ≡ plus_product (number_reply sum) l z }
{
    let s = sum?;
    if product_beyond(size(l), size(z)) {
        return None;
    }
    add_within(s, product(l, z))
}

// The sum with the product of the stored entry at p, where it is kept below the diagonal of column j; other entries are passed over.
fn add_entry(
    n: usize,
    positions: usize,
    base: usize,
    i: usize,
    j: usize,
    p: usize,
    sum: Option<i64>,
    rows: &[u32],
    values: &[i64],
    scratch: &[u32],
    inverse: &[i64],
) -> Option<i64>
    requires positions_value { (positions ≡ queue_start n) × (base + i ≡ queue_start n + col_start n i) × SmallNumber (number_reply sum) }
    requires term_input { TermInput n i j p rows.now values.now scratch.now inverse.now }
    ensures { number_reply result ≡ with_entry rows.now values.now j (whole_inverse_at n scratch.now inverse.now i) p (number_reply sum) }
{
    let k = at(rows, p);
    if k <= j {
        return sum;
    }
    if is_nonzero(whole_at(values, p)) {
        let position = pair_position(n, positions, base, i, k, scratch);
        return add_product(sum, whole_at(values, p), whole_at(inverse, position));
    }
    sum
}

// The sum of l(k) Z(i, k) over the descendants k of column j, ascending; its entries are stored from s to e.
pub fn entry_sum(
    n: usize,
    i: usize,
    j: usize,
    s: usize,
    e: usize,
    rows: &[u32],
    values: &[i64],
    scratch: &[u32],
    inverse: &[i64],
) -> Option<i64>
    requires { WholeSumInput n i j s e rows.now values.now scratch.now inverse.now }
    ensures { number_reply result ≡ whole_sum rows.now values.now j (whole_inverse_at n scratch.now inverse.now i) s e }
{
    let positions = queue_start(n);
    let base = positions + column_shift(n, i);
    let mut sum = Some(0);
    for p in s..e {
        sum = add_entry(
            n, positions, base, i, j, p, sum, rows, values, scratch, inverse,
        );
    }
    sum
}
