// The level of `VarianceFloor::PositiveMean` before its scale, as `stabilize_variances` of uncertainty.rs computes it.
ghost use Rattle.std.specs.Prelude.{◌≡◌, ◌≤◌, length};
ghost use Rattle.refusal.specs.Bounds.{max_entries};
ghost use Rattle.floor.specs.PositiveMean.{positive_mean, mean_level};

// The mean of the values above 0.0, added in list order; 1.0 if there are none.
fn positive_mean(values: &[f64]) -> f64
    requires { length values.now ≤ max_entries }
    ensures { result ≡ positive_mean values.now }
{
    let mut sum = 0.0;
    let mut count: usize = 0;
    for x in values {
        if *x > 0.0 {
            sum += *x;
            count += 1;
        }
    }
    if count == 0 {
        return 1.0;
    }
    sum / count as f64
}

// max(|mean of positive values|, 1).
pub fn mean_level(values: &[f64]) -> f64
    requires { length values.now ≤ max_entries }
    ensures { result ≡ mean_level values.now }
{
    positive_mean(values).abs().max(1.0)
}
