// The least and the greatest value of a term of a row whose weights are known within ranges.
ghost use Rattle.std.specs.Prelude.{◌≡◌, ◌<◌, length};
ghost use Rattle.integers.specs.Size.{SizeWithin};
ghost use Rattle.weight_bounds.specs.Bounds.{least_times, greatest_times, least_product, greatest_product, least_square, greatest_square};
ghost use Rattle.columns.specs.WholeFactor.{whole_value};
ghost use Rattle.weight_ranges.specs.Ranges.{max_weight, max_range_entry, least_weight_product_of, greatest_weight_product_of, least_term_of, greatest_term_of};
ghost use Rattle.weight_ranges.specs.Sizes.{RangesReady};

use super::range::{Range, ordered, widest};
use whole_pairs::entry_or_zero;
use whole_steps::{product, whole_at};
use words::at;

// c times a number of the range.
fn times_range(c: i64, of: Range) -> Range
    requires { (SizeWithin max_range_entry c) × (SizeWithin 1048576 of.low) × (SizeWithin 1048576 of.high) }
    ensures low_value { result.low ≡ least_times c of.low of.high }
    ensures high_value { result.high ≡ greatest_times c of.low of.high }
{
    ordered(product(c, of.low), product(c, of.high))
}

// A number of one range times one of the other.
fn product_range(first: Range, second: Range) -> Range
    requires { (SizeWithin max_weight first.low) × (SizeWithin max_weight first.high) × (SizeWithin max_weight second.low) × (SizeWithin max_weight second.high) }
    ensures low_value { result.low ≡ least_product first.low first.high second.low second.high }
    ensures high_value { result.high ≡ greatest_product first.low first.high second.low second.high }
{
    widest(
        times_range(first.low, second),
        times_range(first.high, second),
    )
}

// A number of the range times itself.
fn square_range(of: Range) -> Range
    requires { (SizeWithin max_weight of.low) × (SizeWithin max_weight of.high) }
    ensures low_value { result.low ≡ least_square of.low of.high }
    ensures high_value { result.high ≡ greatest_square of.low of.high }
{
    let squares = ordered(product(of.low, of.low), product(of.high, of.high));
    if 0 < of.low {
        return squares;
    }
    if of.high < 0 {
        return squares;
    }
    Range {
        low: 0,
        high: squares.high,
    }
}

// The range of the weight of place a.
fn weight_range(lows: &[i64], highs: &[i64], a: usize) -> Range
    requires { (a < length lows.now) × (a < length highs.now) }
    ensures low_value { result.low ≡ whole_value lows.now a }
    ensures high_value { result.high ≡ whole_value highs.now a }
{
    Range {
        low: whole_at(lows, a),
        high: whole_at(highs, a),
    }
}

// The product of the weights of the places a and b.
fn weight_product_range(lows: &[i64], highs: &[i64], a: usize, b: usize) -> Range
    requires a_in_bounds { (a < length lows.now) × (a < length highs.now) × (b < length lows.now) × (b < length highs.now) }
    requires size_within { (SizeWithin max_weight (whole_value lows.now a)) × (SizeWithin max_weight (whole_value highs.now a)) × (SizeWithin max_weight (whole_value lows.now b)) × (SizeWithin max_weight (whole_value highs.now b)) }
    ensures low_value { result.low ≡ least_weight_product_of lows.now highs.now a b }
    ensures high_value { result.high ≡ greatest_weight_product_of lows.now highs.now a b }
{
    let first = weight_range(lows, highs, a);
    if a == b {
        return square_range(first);
    }
    product_range(first, weight_range(lows, highs, b))
}

// The term of the places a and b.
pub fn term_range(
    starts: &[u32],
    rows: &[u32],
    values: &[i64],
    columns: &[u32],
    lows: &[i64],
    highs: &[i64],
    a: usize,
    b: usize,
) -> Range
    requires ranges_ready { RangesReady starts.now rows.now values.now columns.now lows.now highs.now }
    requires a_in_bounds { (a < length columns.now) × (b < length columns.now) }
    ensures low_value { result.low ≡ least_term_of starts.now rows.now values.now columns.now lows.now highs.now a b }
    ensures high_value { result.high ≡ greatest_term_of starts.now rows.now values.now columns.now lows.now highs.now a b }
{
    times_range(
        entry_or_zero(starts, rows, values, at(columns, a), at(columns, b)),
        weight_product_range(lows, highs, a, b),
    )
}
