// The kept entries of a factor's columns: refusal 18.
ghost use Rattle.std.specs.Prelude.{◌≡◌, length};
ghost use Rattle.refusal.specs.Steps.{verdict};
ghost use Rattle.refusal.specs.Refusal.{reply_of};
ghost use Rattle.columns.specs.Factor.{Factor};
ghost use Rattle.columns.specs.Kept.{not_finite};
ghost use Rattle.columns.specs.Stored.{finite_steps};
ghost use Rattle.factor_check.specs.Nonzero.{not_finite_nonzero};

use super::unfit::{CheckedValue, kept_unfit};
use finite_check::not_finite_between;
use refusal::Refusal;

// What is not finite.
impl CheckedValue for f64 {
    ghost unfit = { not_finite };

    fn unfit_between(values: &[f64], s: usize, e: usize) -> bool {
        not_finite_between(values, s, e)
    }

    ghost unfit_kept = { not_finite_nonzero };
}

// 18: a kept entry that is not finite.
pub fn check_finite(n: usize, starts: &[u32], rows: &[u32], values: &[f64]) -> Result<(), Refusal>
    requires { Factor n starts.now rows.now (length values.now) }
    ensures { reply_of result ≡ verdict (finite_steps n starts.now rows.now values.now) }
{
    if kept_unfit(n, starts, rows, values) {
        return Err(Refusal::NotFiniteEntry);
    }
    Ok(())
}
