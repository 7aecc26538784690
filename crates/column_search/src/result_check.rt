// Refusals 2 and 3 of a result, one column or column by column.
ghost use Rattle.std.specs.Prelude.{◌≡◌, ◌+◌, ◌<◌, length};
ghost use Rattle.refusal.specs.Steps.{verdict, each};
ghost use Rattle.refusal.specs.Refusal.{reply_of};
ghost use Rattle.result.specs.Lookup.{dimension, column_faults, result_steps};

use super::order::not_rising;
use refusal::Refusal;
use words::at;

// One column; `values` is the number of values.
pub fn check_column(starts: &[u32], rows: &[u32], values: usize, c: usize) -> Result<(), Refusal>
    requires { c + 1 < length starts.now }
    ensures { reply_of result ≡ verdict (column_faults starts.now rows.now values c) }
{
    let s = at(starts, c);
    let e = at(starts, c + 1);
    if e < s {
        return Err(Refusal::BrokenStarts);
    }
    if rows.len() < e {
        return Err(Refusal::BrokenStarts);
    }
    if values < e {
        return Err(Refusal::BrokenStarts);
    }
    if not_rising(rows, s, starts[c + 1]) {
        return Err(Refusal::BrokenRows);
    }
    Ok(())
}

// Column by column.
fn check_each(starts: &[u32], rows: &[u32], values: usize) -> Result<(), Refusal>
    requires { 0 < length starts.now }
    ensures { reply_of result ≡ verdict (each (column_faults starts.now rows.now values) (dimension starts.now)) }
{
    let n = starts.len() - 1;
    for c in 0..n {
        if let Err(why) = check_column(starts, rows, values, c) {
            return Err(why);
        }
    }
    Ok(())
}

// The whole result.
pub fn check_result(starts: &[u32], rows: &[u32], values: usize) -> Result<(), Refusal>
    ensures { reply_of result ≡ verdict (result_steps starts.now rows.now values) }
{
    if starts.len() == 0 {
        return Err(Refusal::BrokenStarts);
    }
    check_each(starts, rows, values)
}
