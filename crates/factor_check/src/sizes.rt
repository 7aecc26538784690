// The sizes of the kept entries of a factor of whole numbers.
ghost use Rattle.std.specs.Prelude.{◌≡◌, length};
ghost use Rattle.lists.specs.Test.{any};
ghost use Rattle.columns.specs.Factor.{Factor};
ghost use Rattle.columns.specs.WholeFactor.{whole_value};
ghost use Rattle.exact.specs.Checked.{beyond};
ghost use Rattle.entries.specs.WholeTable.{kept_exceeds};
ghost use Rattle.factor_check.specs.Nonzero.{beyond_nonzero};

use super::unfit::{CheckedValue, kept_unfit};
use whole_steps::whole_lists::beyond_between;

// What is beyond 2^53.
impl CheckedValue for i64 {
    ghost unfit = { λ values p. beyond (whole_value values p) };

    fn unfit_between(values: &[i64], s: usize, e: usize) -> bool {
        beyond_between(values, s, e)
    }

    ghost unfit_kept = { beyond_nonzero };
}

// Whether a kept entry is beyond 2^53.
pub fn kept_beyond(n: usize, starts: &[u32], rows: &[u32], values: &[i64]) -> bool
    requires { Factor n starts.now rows.now (length values.now) }
    ensures { result ≡ any (kept_exceeds starts.now rows.now values.now) n }
{
    kept_unfit(n, starts, rows, values)
}
