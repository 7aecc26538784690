// Lists of signed 64-bit numbers: their sizes, clearing and copying.
ghost use Rattle.std.specs.Prelude.{◌≡◌, ◌≤◌, length, pos};
ghost use Rattle.lists.specs.Test.{any_in};
ghost use Rattle.lists.specs.Overwrite.{filled};
ghost use Rattle.columns.specs.WholeFactor.{whole_value};
ghost use Rattle.exact.specs.Checked.{beyond};

use super::{is_beyond, whole_at};

// Whether a number from s to e is beyond 2^53 in size. The loop has one exit, so that it can be compiled to vector instructions.
pub fn beyond_between(wholes: &[i64], s: usize, e: usize) -> bool
    requires { (s ≤ e) × (e ≤ length wholes.now) }
    ensures { result ≡ any_in (λ p. beyond (whole_value wholes.now p)) s e }
{
    let mut found = false;
    for p in s..e {
        if is_beyond(whole_at(wholes, p)) {
            found = true;
        }
    }
    found
}

// Sets the first m numbers to 0.
pub fn clear_wholes(wholes: &mut [i64], m: usize)
    requires { m ≤ length wholes.old }
    ensures { wholes.new ≡ filled (λ _. pos 0) m wholes.old }
{
    wholes[..m].fill(0);
}

// Copies the first m numbers.
pub fn copy_wholes(from: &[i64], to: &mut [i64], m: usize)
    requires { (m ≤ length from.now) × (m ≤ length to.old) }
    ensures { to.new ≡ filled (whole_value from.now) m to.old }
{
    // `copy_from_slice` would have the archive for C ask for memmove, which it needs nowhere else.
    for i in 0..m {
        to[i] = whole_at(from, i);
    }
}
