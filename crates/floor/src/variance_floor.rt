// The floor that a caller asks for: its checks and its value.
ghost use Rattle.std.specs.Prelude.{◌≡◌, ◌≤◌, length};
ghost use Rattle.refusal.specs.Bounds.{max_entries};
ghost use Rattle.refusal.specs.Steps.{verdict};
ghost use Rattle.refusal.specs.Refusal.{reply_of};
ghost use Rattle.floor.specs.VarianceFloor.{bad_scale, floor_steps, floor_of};

use super::positive_mean::mean_level;
use finite_check::{any_not_finite, is_finite};
use refusal::{MAX_ENTRIES, Refusal};

// The floor: 0.0, or max(|mean of positive values|, 1) * scale.
#[derive(Clone, Copy)]
pub enum VarianceFloor {
    Zero,
    PositiveMean { scale: f64 },
}

// Whether the scale is not finite or below 0.0.
fn bad_scale(floor: VarianceFloor) -> bool
    ensures { result ≡ bad_scale floor }
{
    match floor {
        VarianceFloor::Zero => false,
        VarianceFloor::PositiveMean { scale } => {
            if is_finite(scale) {
                return scale < 0.0;
            }
            true
        }
    }
}

// 1, 13, 14 and 7, for an output of `room` places.
pub fn check_floor(values: &[f64], floor: VarianceFloor, room: usize) -> Result<(), Refusal>
    ensures { reply_of result ≡ verdict (floor_steps floor values.now room) }
{
    if MAX_ENTRIES < values.len() {
        return Err(Refusal::TooLarge);
    }
    if any_not_finite(values) {
        return Err(Refusal::NotFinite);
    }
    if bad_scale(floor) {
        return Err(Refusal::BadScale);
    }
    if room < values.len() {
        return Err(Refusal::TooShort);
    }
    Ok(())
}

// The floor's value.
pub fn floor_of(values: &[f64], floor: VarianceFloor) -> f64
    requires { length values.now ≤ max_entries }
    ensures { result ≡ floor_of floor values.now }
{
    match floor {
        VarianceFloor::Zero => 0.0,
        VarianceFloor::PositiveMean { scale } => mean_level(values) * scale,
    }
}
