// The dimension and the number of entries: refusal 1.
ghost use Rattle.std.specs.Prelude.{◌≡◌};
ghost use Rattle.refusal.specs.Steps.{verdict};
ghost use Rattle.refusal.specs.Refusal.{reply_of};
ghost use Rattle.columns.specs.Columns.{bound_steps};

use refusal::Refusal;

// 1: n or the number of stored entries, `entries`, above its bound.
pub fn check_bounds(n: usize, entries: usize) -> Result<(), Refusal>
    ensures { reply_of result ≡ verdict (bound_steps n entries) }
{
    if n > refusal::MAX_DIMENSION {
        return Err(Refusal::TooLarge);
    }
    if entries > refusal::MAX_ENTRIES {
        return Err(Refusal::TooLarge);
    }
    Ok(())
}
