// The values raised to a floor, written to the front of a list, and the hits counted.
ghost use Rattle.std.specs.Prelude.{◌≡◌, ◌≤◌, length};
ghost use Rattle.lists.specs.Overwrite.{overwrite};
ghost use Rattle.floor.specs.Floored.{floored, floor_hits};

// Writes each value, or the floor where it is not above it, to the front of the output; how many are not above it.
pub fn apply_floor(values: &[f64], floor_value: f64, output: &mut [f64]) -> usize
    requires { length values.now ≤ length output.old }
    ensures value { result ≡ floor_hits floor_value values.now }
    ensures output_after { output.new ≡ overwrite (floored floor_value values.now) output.old }
{
    let mut floor_hits = 0;
    for (i, x) in values.iter().enumerate() {
        if *x > floor_value {
            output[i] = *x;
        } else {
            output[i] = floor_value;
            floor_hits += 1;
        }
    }
    floor_hits
}
