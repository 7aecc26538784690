// Whether floats are finite.
#![tactic(auto)]

ghost use Rattle.std.specs.Prelude.{◌≡◌, ◌≤◌, length};
ghost use Rattle.std.specs.Float.Ieee.Scale.{finite};
ghost use Rattle.lists.specs.Test.{any, any_in};
ghost use Rattle.columns.specs.Kept.{not_finite};

// Whether x is neither NaN nor an infinity.
pub fn is_finite(x: f64) -> bool
    ensures { result ≡ finite x }
{
    if x < f64::from_bits(0x7ff0_0000_0000_0000) {
        return x > f64::from_bits(0xfff0_0000_0000_0000);
    }
    false
}

// Whether a value from s to e is not finite. The loop has one exit, so that it is compiled to vector instructions.
pub fn not_finite_between(values: &[f64], s: usize, e: usize) -> bool
    requires { (s ≤ e) × (e ≤ length values.now) }
    ensures { result ≡ any_in (not_finite values.now) s e }
{
    let mut found = false;
    for p in s..e {
        if !is_finite(values[p]) {
            found = true;
        }
    }
    found
}

// Whether a value is not finite.
pub fn any_not_finite(values: &[f64]) -> bool
    ensures { result ≡ any (not_finite values.now) (length values.now) }
{
    not_finite_between(values, 0, values.len())
}
