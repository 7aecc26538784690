// The inverse of a permutation, written to the front of a list.
ghost use Rattle.std.specs.Prelude.{◌≡◌, ◌≤◌, length};
ghost use Rattle.lists.specs.Overwrite.{overwrite};
ghost use Rattle.refusal.specs.Bounds.{max_dimension};
ghost use Rattle.factor_order.specs.Permutation.{inverse_of, Permutation};

// Stores each original index at its place.
pub fn invert(orig_to_perm: &[u32], perm_to_orig: &mut [u32])
    requires permutation { Permutation orig_to_perm.now }
    requires orig_to_perm_len_bound { (length orig_to_perm.now ≤ max_dimension) × (length orig_to_perm.now ≤ length perm_to_orig.old) }
    ensures { perm_to_orig.new ≡ overwrite (inverse_of orig_to_perm.now) perm_to_orig.old }
{
    for (i, place) in orig_to_perm.iter().enumerate() {
        let p = *place as usize;
        perm_to_orig[p] = i as u32;
    }
}
