// The order of a column's rows.
ghost use Rattle.std.specs.Prelude.{◌≡◌, ◌+◌, ◌≤◌, length};
ghost use Rattle.lists.specs.Test.{any_in};
ghost use Rattle.columns.specs.Columns.{not_above};

use words::order::descents;

// Whether a row between s and e is not above the one before it, the first left out.
pub fn not_rising(rows: &[u32], s: usize, e: u32) -> bool
    requires { (s ≤ e) × (e ≤ length rows.now) }
    ensures { result ≡ any_in (not_above rows.now) (s + 1) e }
{
    0 < descents(rows, s, e)
}
