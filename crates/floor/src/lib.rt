// A floor under variances, after `stabilize_variances` of uncertainty.rs.
#![tactic(auto)]

pub mod floored;
pub mod positive_mean;
pub mod variance_floor;

ghost use Rattle.floor.specs.Floor.{VariancesStabilized};
ghost use Rattle.refusal.specs.Refusal.{reply_of};

use floored::apply_floor;
use refusal::Refusal;
use variance_floor::{VarianceFloor, check_floor, floor_of};

// `StabilizedVariance` without its values, which go to the output.
#[derive(Clone, Copy)]
pub struct StabilizedVariance {
    pub floor: f64,
    pub floor_hits: usize,
}

// Writes the values, raised to the floor, to the front of the output.
pub fn stabilize_variances(
    values: &[f64],
    floor: VarianceFloor,
    output: &mut [f64],
) -> Result<StabilizedVariance, Refusal>
    ensures { VariancesStabilized floor values.now output.old (reply_of result) output.new }
{
    check_floor(values, floor, output.len())?;
    let floor_value = floor_of(values, floor);
    let floor_hits = apply_floor(values, floor_value, output);
    let stabilized = StabilizedVariance {
        floor: floor_value,
        floor_hits: floor_hits,
    };
    Ok(stabilized)
}
