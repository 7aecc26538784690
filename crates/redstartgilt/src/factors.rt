// A factor's check.
ghost use Rattle.std.specs.Prelude.{◌≡◌};
ghost use Rattle.columns.specs.Columns.{factor_lists};
ghost use Rattle.refusal.specs.Steps.{verdict};
ghost use Rattle.columns.specs.Stored.{factor_steps};
ghost use Rattle.verdicts.specs.Number.{reply_number};

use factor_check::check_factor;
use verdicts::checked_number;

// Whether a factor's lists are well formed and its kept entries finite.
#[unsafe(no_mangle)]
pub extern "C" fn redstartgilt_check_factor(
    n: usize,
    starts: &[u32],
    rows: &[u32],
    values: &[f64],
) -> u32
    ensures { result ≡ reply_number (verdict (factor_steps (factor_lists n starts.now rows.now values.now))) }
{
    checked_number(check_factor(n, starts, rows, values))
}
