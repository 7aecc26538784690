// Steps on signed 64-bit numbers that are whole numbers of the specification: a read, tests, the size, sums and products, and whether they are beyond 2^53.
#![tactic(auto)]

pub mod whole_lists;

ghost use Rattle.std.specs.Prelude.{◌≡◌, ◌<◌, ◌^◌, ◌*◌, ltb, length, nat_abs, ◌+ℤ◌, ◌-ℤ◌, ◌*ℤ◌};
ghost use Rattle.std.specs.Int.{w64};
ghost use Rattle.std.proofs.Common.{SFits};
ghost use Rattle.columns.specs.WholeFactor.{whole_value, not_zero, is_one};
ghost use Rattle.exact.specs.Checked.{beyond};

// The number at p.
pub fn whole_at(values: &[i64], p: usize) -> i64
    requires { p < length values.now }
    ensures { result ≡ whole_value values.now p }
{
    values[p]
}

// Whether z is not 0.
pub fn is_nonzero(z: i64) -> bool
    ensures { result ≡ not_zero z }
{
    z != 0
}

// Whether z is 1.
pub fn is_one(z: i64) -> bool
    ensures { result ≡ is_one z }
{
    z == 1
}

// a + b.
pub fn sum(a: i64, b: i64) -> i64
    requires { SFits w64 (a +ℤ b) }
    ensures { result ≡ a +ℤ b }
{
    a + b
}

// a - b.
pub fn minus(a: i64, b: i64) -> i64
    requires { SFits w64 (a -ℤ b) }
    ensures { result ≡ a -ℤ b }
{
    a - b
}

// a times b.
pub fn product(a: i64, b: i64) -> i64
    requires { SFits w64 (a *ℤ b) }
    ensures { result ≡ a *ℤ b }
{
    a * b
}

// The size of z; that of the least number too, which has no negative.
pub fn size(z: i64) -> usize
    ensures { result ≡ nat_abs z }
{
    if z < 0 {
        let y = -1 - z;
        return y as usize + 1;
    }
    z as usize
}

// Whether z is beyond 2^53 in size.
pub fn is_beyond(z: i64) -> bool
    ensures { result ≡ beyond z }
{
    if z > 9007199254740992 {
        return true;
    }
    z < -9007199254740992
}

// Whether a product of these sizes is beyond 2^53: without a division where both are small.
pub fn product_beyond(a: usize, b: usize) -> bool
    ensures { result ≡ ltb (2 ^ 53) (a * b) }
{
    if a <= 67108864 {
        if b <= 134217728 {
            return false;
        }
    }
    if a == 0 {
        return false;
    }
    9007199254740992 / a < b
}
