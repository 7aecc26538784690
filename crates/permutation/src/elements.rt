// A permutation's elements: refusals 10, 11 and, with the other list, 12.
ghost use Rattle.std.specs.Prelude.{◌≡◌, true, not, ◌&&◌, ◌<◌, ◌≤◌, eqb, length};
ghost use Rattle.refusal.specs.Bounds.{max_dimension};
ghost use Rattle.refusal.specs.Steps.{verdict, each};
ghost use Rattle.refusal.specs.Refusal.{reply_of};
ghost use Rattle.factor_order.specs.Permutation.{index, element_steps};

use refusal::{MAX_DIMENSION, Refusal};
use words::at;

// Whether the other list is compared and does not lead from p back to i.
fn disagrees(compared: bool, perm_to_orig: &[u32], p: usize, i: usize) -> bool
    requires { compared ≡ true → p < length perm_to_orig.now }
    ensures { result ≡ (compared && not (eqb (index perm_to_orig.now p) i)) }
{
    if compared {
        return at(perm_to_orig, p) != i;
    }
    false
}

// Element by element, the first fault: 10, 11 and, where the other list is compared, 12. What was seen is in a local array.
pub fn check_elements(
    orig_to_perm: &[u32],
    perm_to_orig: &[u32],
    compared: bool,
) -> Result<(), Refusal>
    requires orig_to_perm_len_bound { length orig_to_perm.now ≤ max_dimension }
    requires orig_to_perm_in_bounds { compared ≡ true → length orig_to_perm.now ≤ length perm_to_orig.now }
    ensures { reply_of result ≡ verdict (each (element_steps compared orig_to_perm.now perm_to_orig.now) (length orig_to_perm.now)) }
{
    let n = orig_to_perm.len();
    let mut seen = [false; MAX_DIMENSION];
    for (i, place) in orig_to_perm.iter().enumerate() {
        let p = *place as usize;
        if n <= p {
            return Err(Refusal::IndexTooLarge);
        }
        if seen[p] {
            return Err(Refusal::DuplicateEntry);
        }
        if disagrees(compared, perm_to_orig, p, i) {
            return Err(Refusal::NotInverse);
        }
        seen[p] = true;
    }
    Ok(())
}
