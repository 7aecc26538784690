// Variances: a floor under them, and the least of them.
ghost use Rattle.std.specs.Prelude.{◌≡◌};
ghost use Rattle.floor.specs.declared.variance_floor.VarianceFloor.TheVariants.{Zero, PositiveMean};
ghost use Rattle.floor.specs.Floor.{VariancesStabilized};
ghost use Rattle.least.specs.Least.{count_and_least};
ghost use Rattle.c_replies.specs.Numbers.{floor_numbers, least_numbers, Shows};
ghost use Rattle.refusal.specs.Refusal.{reply_of};

use c_replies::{FloorNumbers, LeastNumbers};
use floor::variance_floor::VarianceFloor;

// A floor of 0.0 under variances.
#[unsafe(no_mangle)]
pub extern "C" fn redstartgilt_stabilize_variances_zero(
    values: &[f64],
    output: &mut [f64],
) -> FloorNumbers
    ensures { Shows (λ d. floor_numbers (reply_of d)) (λ d. VariancesStabilized Zero
        values.now output.old (reply_of d) output.new) result }
{
    FloorNumbers::from(floor::stabilize_variances(values, VarianceFloor::Zero, output))
}

// A floor under variances: max(|mean of the positive values|, 1) * scale.
#[unsafe(no_mangle)]
pub extern "C" fn redstartgilt_stabilize_variances_positive_mean(
    values: &[f64],
    scale: f64,
    output: &mut [f64],
) -> FloorNumbers
    ensures { Shows (λ d. floor_numbers (reply_of d)) (λ d. VariancesStabilized (PositiveMean scale)
        values.now output.old (reply_of d) output.new) result }
{
    FloorNumbers::from(floor::stabilize_variances(
        values,
        VarianceFloor::PositiveMean { scale: scale },
        output,
    ))
}

// How many values are negative, and the least.
#[unsafe(no_mangle)]
pub extern "C" fn redstartgilt_count_and_least(values: &[f64]) -> LeastNumbers
    ensures { result ≡ least_numbers (count_and_least values.now) }
{
    LeastNumbers::from(least::count_and_least(values))
}
