// Permutations, and lists put in the original order.
ghost use Rattle.std.specs.Prelude.{◌≡◌};
ghost use Rattle.refusal.specs.Steps.{verdict};
ghost use Rattle.refusal.specs.Refusal.{reply_of};
ghost use Rattle.factor_order.specs.Permutation.{validate_steps};
ghost use Rattle.permutation.specs.PermutationCalls.{PermutationInverted, ValuesReordered, MarkedValuesReordered};
ghost use Rattle.verdicts.specs.Number.{checked_number, reply_number};
ghost use Rattle.c_replies.specs.Numbers.{Shows};

use verdicts::checked_number;

// Whether two lists are a permutation and its inverse.
#[unsafe(no_mangle)]
pub extern "C" fn redstartgilt_validate(orig_to_perm: &[u32], perm_to_orig: &[u32]) -> u32
    ensures { result ≡ reply_number (verdict (validate_steps orig_to_perm.now perm_to_orig.now)) }
{
    checked_number(permutation::validate(orig_to_perm, perm_to_orig))
}

// The inverse of a permutation.
#[unsafe(no_mangle)]
pub extern "C" fn redstartgilt_from_orig_to_perm(
    orig_to_perm: &[u32],
    perm_to_orig: &mut [u32],
) -> u32
    ensures { Shows checked_number (λ d. PermutationInverted
        orig_to_perm.now perm_to_orig.old (reply_of d) perm_to_orig.new) result }
{
    checked_number(permutation::from_orig_to_perm(orig_to_perm, perm_to_orig))
}

// Values put in the original order.
#[unsafe(no_mangle)]
pub extern "C" fn redstartgilt_permute_factor_to_original(
    orig_to_perm: &[u32],
    input: &[f64],
    output: &mut [f64],
) -> u32
    ensures { Shows checked_number (λ d. ValuesReordered
        orig_to_perm.now input.now output.old (reply_of d) output.new) result }
{
    checked_number(permutation::permute_factor_to_original(orig_to_perm, input, output))
}

// Values and their marks put in the original order.
#[unsafe(no_mangle)]
pub extern "C" fn redstartgilt_permute_factor_to_original_marked(
    orig_to_perm: &[u32],
    input: &[f64],
    marks: &[u8],
    output: &mut [f64],
    output_marks: &mut [u8],
) -> u32
    ensures { Shows checked_number (λ d. MarkedValuesReordered
        orig_to_perm.now input.now marks.now output.old output_marks.old
        (reply_of d) output.new output_marks.new) result }
{
    checked_number(permutation::permute_factor_to_original_marked(
        orig_to_perm,
        input,
        marks,
        output,
        output_marks,
    ))
}
