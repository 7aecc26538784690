// Permutations, after `Permutation` and `SparseCholeskyFactor::permute_factor_to_original` of types.rs. orig_to_perm[i] is the place of original index i in
// factor order, perm_to_orig[k] the original index at place k.
#![tactic(auto)]

pub mod elements;
pub mod inverse;
pub mod order;
pub mod reordering;

ghost use Rattle.std.specs.Prelude.{◌≡◌};
ghost use Rattle.refusal.specs.Steps.{verdict};
ghost use Rattle.refusal.specs.Refusal.{reply_of};
ghost use Rattle.factor_order.specs.Permutation.{validate_steps};
ghost use Rattle.permutation.specs.PermutationCalls.{PermutationInverted, ValuesReordered, MarkedValuesReordered};

use elements::check_elements;
use inverse::invert;
use order::{check_marked, check_permutation};
use refusal::{MAX_DIMENSION, Refusal};
use reordering::reorder;

// Whether the two lists are permutations that undo each other.
pub fn validate(orig_to_perm: &[u32], perm_to_orig: &[u32]) -> Result<(), Refusal>
    ensures { reply_of result ≡ verdict (validate_steps orig_to_perm.now perm_to_orig.now) }
{
    if MAX_DIMENSION < orig_to_perm.len() {
        return Err(Refusal::TooLarge);
    }
    if MAX_DIMENSION < perm_to_orig.len() {
        return Err(Refusal::TooLarge);
    }
    if orig_to_perm.len() != perm_to_orig.len() {
        return Err(Refusal::NotInverse);
    }
    check_elements(orig_to_perm, perm_to_orig, true)
}

// Writes the inverse list to the front of perm_to_orig.
pub fn from_orig_to_perm(orig_to_perm: &[u32], perm_to_orig: &mut [u32]) -> Result<(), Refusal>
    ensures { PermutationInverted orig_to_perm.now perm_to_orig.old (reply_of result) perm_to_orig.new }
{
    if MAX_DIMENSION < orig_to_perm.len() {
        return Err(Refusal::TooLarge);
    }
    check_permutation(orig_to_perm, perm_to_orig.len())?;
    invert(orig_to_perm, perm_to_orig);
    Ok(())
}

// Writes a list in factor order to the front of the output in original order.
pub fn permute_factor_to_original(
    orig_to_perm: &[u32],
    input: &[f64],
    output: &mut [f64],
) -> Result<(), Refusal>
    ensures { ValuesReordered orig_to_perm.now input.now output.old (reply_of result) output.new }
{
    if MAX_DIMENSION < orig_to_perm.len() {
        return Err(Refusal::TooLarge);
    }
    if MAX_DIMENSION < input.len() {
        return Err(Refusal::TooLarge);
    }
    if input.len() != orig_to_perm.len() {
        return Err(Refusal::DimensionMismatch);
    }
    check_permutation(orig_to_perm, output.len())?;
    reorder(orig_to_perm, input, output);
    Ok(())
}

// The same with a mark for each value: values and marks are moved alike.
pub fn permute_factor_to_original_marked(
    orig_to_perm: &[u32],
    input: &[f64],
    marks: &[u8],
    output: &mut [f64],
    output_marks: &mut [u8],
) -> Result<(), Refusal>
    ensures { MarkedValuesReordered orig_to_perm.now input.now marks.now output.old output_marks.old
        (reply_of result) output.new output_marks.new }
{
    check_marked(
        orig_to_perm,
        input.len(),
        marks.len(),
        output.len(),
        output_marks.len(),
    )?;
    reorder(orig_to_perm, input, output);
    reorder(orig_to_perm, marks, output_marks);
    Ok(())
}
