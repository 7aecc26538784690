// How many values are negative, and the least, after the loop of `finalize_variance_estimate` of uncertainty.rs.
#![tactic(auto)]

ghost use Rattle.std.specs.Prelude.{◌≡◌};
ghost use Rattle.lists.specs.Sum.{bit};
ghost use Rattle.columns.specs.Kept.{f0};
ghost use Rattle.std.specs.Float.Ieee.{lt};
ghost use Rattle.least.specs.Least.{lesser, count_and_least};

// The two fields of `VarianceEstimate` that the loop gives.
#[derive(Clone, Copy)]
pub struct CountAndLeast {
    pub num_negative: usize,
    pub min_value: f64,
}

// 1 where x is below 0.0, else 0.
fn negative_bit(x: f64) -> usize
    ensures { result ≡ bit (lt x f0) }
{
    if x < 0.0 {
        return 1;
    }
    0
}

// x where it is below m, else m: NaN is passed over, and of two equal values m stays, while `m.min(x)` may give either of 0.0 and -0.0.
fn min(m: f64, x: f64) -> f64
    ensures { result ≡ lesser m x }
{
    if x < m {
        return x;
    }
    m
}

// How many values are below 0.0, and the least from infinity, 0.0 for no values.
pub fn count_and_least(values: &[f64]) -> CountAndLeast
    ensures { result ≡ count_and_least values.now }
{
    if values.len() == 0 {
        return CountAndLeast {
            num_negative: 0,
            min_value: 0.0,
        };
    }
    let mut num_negative = 0;
    let mut min_value = f64::from_bits(0x7ff0_0000_0000_0000);
    for x in values {
        num_negative += negative_bit(*x);
        min_value = min(min_value, *x);
    }
    CountAndLeast {
        num_negative: num_negative,
        min_value: min_value,
    }
}
