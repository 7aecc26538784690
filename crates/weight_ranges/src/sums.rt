// The sums of a row's least and greatest terms.
ghost use Rattle.std.specs.Prelude.{◌≡◌, ◌<◌, length, ◌+ℤ◌};
ghost use Rattle.integers.specs.Sum.{Σℤ};
ghost use Rattle.integers.specs.Size.{SizeWithin};
ghost use Rattle.weight_ranges.specs.Ranges.{least_term_of, greatest_term_of, low_bound_of, high_bound_of};
ghost use Rattle.weight_ranges.specs.Sizes.{RangesReady};

use super::range::Range;
use super::terms::term_range;
use whole_steps::sum;

// The sums of two pairs of ends: of at most 63 places, and of one more.
fn plus_range(a: Range, b: Range) -> Range
    requires { (SizeWithin 4539628424389459968 a.low) × (SizeWithin 4539628424389459968 a.high) × (SizeWithin 72057594037927936 b.low) × (SizeWithin 72057594037927936 b.high) }
    ensures low_value { result.low ≡ a.low +ℤ b.low }
    ensures high_value { result.high ≡ a.high +ℤ b.high }
{
    Range {
        low: sum(a.low, b.low),
        high: sum(a.high, b.high),
    }
}

// The terms of place a with each place, summed.
fn place_bounds(
    starts: &[u32],
    rows: &[u32],
    values: &[i64],
    columns: &[u32],
    lows: &[i64],
    highs: &[i64],
    a: usize,
) -> Range
    requires ranges_ready { RangesReady starts.now rows.now values.now columns.now lows.now highs.now }
    requires a_in_bounds { a < length columns.now }
    ensures low_value { result.low ≡ Σℤ (length columns.now) (least_term_of starts.now rows.now values.now columns.now lows.now highs.now a) }
    ensures high_value { result.high ≡ Σℤ (length columns.now) (greatest_term_of starts.now rows.now values.now columns.now lows.now highs.now a) }
{
    let mut total = Range { low: 0, high: 0 };
    for b in 0..columns.len() {
        total = plus_range(
            total,
            term_range(starts, rows, values, columns, lows, highs, a, b),
        );
    }
    total
}

// The terms of all places, summed.
pub fn row_bounds(
    starts: &[u32],
    rows: &[u32],
    values: &[i64],
    columns: &[u32],
    lows: &[i64],
    highs: &[i64],
) -> Range
    requires { RangesReady starts.now rows.now values.now columns.now lows.now highs.now }
    ensures low_value { result.low ≡ low_bound_of starts.now rows.now values.now columns.now lows.now highs.now }
    ensures high_value { result.high ≡ high_bound_of starts.now rows.now values.now columns.now lows.now highs.now }
{
    let mut total = Range { low: 0, high: 0 };
    for a in 0..columns.len() {
        total = plus_range(
            total,
            place_bounds(starts, rows, values, columns, lows, highs, a),
        );
    }
    total
}
