// Two numbers as the ends of a range.
ghost use Rattle.std.specs.Prelude.{◌≡◌};
ghost use Rattle.integers.specs.Size.{SizeWithin};
ghost use Rattle.integers.specs.MinMax.{minℤ, maxℤ};

// The low end is not above the high end.
#[derive(Clone, Copy)]
pub struct Range {
    pub low: i64,
    pub high: i64,
}

// The lesser and the greater of x and y.
pub fn ordered(x: i64, y: i64) -> Range
    ensures low_value { result.low ≡ minℤ x y }
    ensures high_value { result.high ≡ maxℤ x y }
{
    if x <= y {
        return Range { low: x, high: y };
    }
    Range { low: y, high: x }
}

// The lower of two low ends, and the higher of two high ends.
pub fn widest(a: Range, b: Range) -> Range
    requires { (SizeWithin 1048576 a.low) × (SizeWithin 1048576 a.high) × (SizeWithin 1048576 b.low) × (SizeWithin 1048576 b.high) }
    ensures low_value { result.low ≡ minℤ a.low b.low }
    ensures high_value { result.high ≡ maxℤ a.high b.high }
{
    Range {
        low: ordered(a.low, b.low).low,
        high: ordered(a.high, b.high).high,
    }
}
