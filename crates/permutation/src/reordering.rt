// A list in factor order, of values or of marks, written in original order to the front of another.
ghost use Rattle.std.specs.Prelude.{◌≡◌, ◌≤◌, length};
ghost use Rattle.lists.specs.Overwrite.{overwrite};
ghost use Rattle.factor_order.specs.Permutation.{reordered, Permutation};

// Element i of the output is the input's at orig_to_perm[i].
pub fn reorder<T: Copy>(orig_to_perm: &[u32], input: &[T], output: &mut [T])
    requires permutation { Permutation orig_to_perm.now }
    requires input_len { (length input.now ≡ length orig_to_perm.now) × (length orig_to_perm.now ≤ length output.old) }
    ensures { (blank : T) → output.new ≡ overwrite (reordered blank orig_to_perm.now input.now) output.old }
{
    for (i, place) in orig_to_perm.iter().enumerate() {
        let p = *place as usize;
        output[i] = input[p];
    }
}
