// The starts of a factor's columns: refusal 2. An operator's starts are checked by `check_broken` too.
ghost use Rattle.std.specs.Prelude.{◌≡◌, ◌+◌, ◌<◌, length};
ghost use Rattle.lists.specs.Test.{any};
ghost use Rattle.refusal.specs.Steps.{verdict};
ghost use Rattle.refusal.specs.Refusal.{refusal_number, reply_of};
ghost use Rattle.columns.specs.Columns.{falls, broken_steps, starts_steps};

use refusal::Refusal;
use words::at;

// Whether one of the first n starts is above the next.
fn start_falls(n: usize, starts: &[u32]) -> bool
    requires { n < length starts.now }
    ensures { result ≡ any (falls starts.now) n }
{
    for c in 0..n {
        if starts[c + 1] < starts[c] {
            return true;
        }
    }
    false
}

// Starts of n parts of a list of `indices` indices, with `values` values; `why` is the refusal of broken ones.
pub fn check_broken(
    why: Refusal,
    n: usize,
    starts: &[u32],
    indices: usize,
    values: usize,
) -> Result<(), Refusal>
    requires { n < length starts.now }
    ensures { reply_of result ≡ verdict (broken_steps (refusal_number why) n starts.now indices values) }
{
    if starts[0] != 0 {
        return Err(why);
    }
    if start_falls(n, starts) {
        return Err(why);
    }
    if at(starts, n) != indices {
        return Err(why);
    }
    if indices != values {
        return Err(why);
    }
    Ok(())
}

// 2: starts that are broken or not n + 1, or values of another number than rows; `values` is the number of values.
pub fn check_starts(n: usize, starts: &[u32], rows: &[u32], values: usize) -> Result<(), Refusal>
    ensures { reply_of result ≡ verdict (starts_steps n starts.now rows.now values) }
{
    if starts.len() <= n {
        return Err(Refusal::BrokenStarts);
    }
    if n + 1 < starts.len() {
        return Err(Refusal::BrokenStarts);
    }
    check_broken(Refusal::BrokenStarts, n, starts, rows.len(), values)
}
