// Document 01's starred floor, called and compared; that each comparison holds is proved from the contracts and the table.
ghost use Rattle.std.specs.Prelude.{◌≡◌};
ghost use Rattle.starred_table.specs.Stabilized.{stabilized_as};
ghost use Rattle.refusal.specs.Refusal.{reply_of};

use check::expect;
use floor::variance_floor::VarianceFloor;
use floor::{StabilizedVariance, stabilize_variances};
use refusal::Refusal;

// Whether a call is answered with this floor and these hits.
fn stabilized(s: Result<StabilizedVariance, Refusal>, floor: f64, hits: usize) -> bool
    ensures { result ≡ stabilized_as (reply_of s) floor hits }
{
    match s {
        Ok(v) => {
            if v.floor_hits != hits {
                return false;
            }
            v.floor == floor
        }
        Err(_) => false,
    }
}

// Values 4, -2, 0 with scale 0.5: floor 2, output 4 2 2, 2 hits.
pub fn floored() {
    let mut list = [7.0; 3];
    let half = VarianceFloor::PositiveMean { scale: 0.5 };
    let s = stabilize_variances(&[4.0, -2.0, 0.0], half, &mut list);
    expect(stabilized(s, 2.0, 2));
    expect(list[0] == 4.0);
    expect(list[1] == 2.0);
    expect(list[2] == 2.0);
}
