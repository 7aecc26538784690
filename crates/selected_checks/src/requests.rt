// Requests, a dimension and two lists: refusals 4 and 5.
ghost use Rattle.std.specs.Prelude.{◌≡◌};
ghost use Rattle.refusal.specs.Steps.{verdict};
ghost use Rattle.refusal.specs.Refusal.{reply_of};
ghost use Rattle.selection.specs.RequestSteps.{request_steps};

use refusal::Refusal;
use words::index::index_outside;

// 4: another dimension, or lists of unequal length; 5: an index of n or more.
pub fn check_requests(
    n: usize,
    dimension: usize,
    request_rows: &[u32],
    request_columns: &[u32],
) -> Result<(), Refusal>
    ensures { reply_of result ≡ verdict (request_steps n dimension request_rows.now request_columns.now) }
{
    if dimension != n {
        return Err(Refusal::DimensionMismatch);
    }
    if request_rows.len() != request_columns.len() {
        return Err(Refusal::DimensionMismatch);
    }
    if index_outside(n, request_rows) {
        return Err(Refusal::RequestOutOfRange);
    }
    if index_outside(n, request_columns) {
        return Err(Refusal::RequestOutOfRange);
    }
    Ok(())
}
