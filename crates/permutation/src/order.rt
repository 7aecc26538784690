// A permutation's elements, with the length that another list asks of it.
ghost use Rattle.std.specs.Prelude.{◌≡◌, ◌≤◌, length};
ghost use Rattle.refusal.specs.Bounds.{max_dimension};
ghost use Rattle.refusal.specs.Steps.{verdict};
ghost use Rattle.refusal.specs.Refusal.{reply_of};
ghost use Rattle.factor_order.specs.Permutation.{order_steps, accept_steps, marked_steps};

use super::elements::check_elements;
use refusal::{MAX_DIMENSION, Refusal};

// 4 for a list that is not n long, then 10 and 11 element by element.
pub fn check_order(n: usize, orig_to_perm: &[u32]) -> Result<(), Refusal>
    requires { n ≤ max_dimension }
    ensures { reply_of result ≡ verdict (order_steps n orig_to_perm.now) }
{
    if orig_to_perm.len() != n {
        return Err(Refusal::DimensionMismatch);
    }
    check_elements(orig_to_perm, orig_to_perm, false)
}

// 10 and 11 element by element, then 7 for an output of that length.
pub fn check_permutation(orig_to_perm: &[u32], room: usize) -> Result<(), Refusal>
    requires { length orig_to_perm.now ≤ max_dimension }
    ensures { reply_of result ≡ verdict (accept_steps orig_to_perm.now room) }
{
    check_elements(orig_to_perm, orig_to_perm, false)?;
    if room < orig_to_perm.len() {
        return Err(Refusal::TooShort);
    }
    Ok(())
}

// What reordering values and marks refuses, by the lengths of these lists and of the outputs.
pub fn check_marked(
    orig_to_perm: &[u32],
    input: usize,
    marks: usize,
    room: usize,
    marks_room: usize,
) -> Result<(), Refusal>
    ensures { reply_of result ≡ verdict (marked_steps orig_to_perm.now input marks room marks_room) }
{
    if MAX_DIMENSION < orig_to_perm.len() {
        return Err(Refusal::TooLarge);
    }
    if MAX_DIMENSION < input {
        return Err(Refusal::TooLarge);
    }
    if MAX_DIMENSION < marks {
        return Err(Refusal::TooLarge);
    }
    if input != orig_to_perm.len() {
        return Err(Refusal::DimensionMismatch);
    }
    if marks != orig_to_perm.len() {
        return Err(Refusal::DimensionMismatch);
    }
    check_permutation(orig_to_perm, room)?;
    if marks_room < orig_to_perm.len() {
        return Err(Refusal::TooShort);
    }
    Ok(())
}
