// What is refused of a request list that is to be written: 1, 4, 5, 24.
ghost use Rattle.std.specs.Prelude.{◌≡◌, ◌&&◌, ◌≤◌, eqb, ltb, length};
ghost use Rattle.refusal.specs.Steps.{verdict};
ghost use Rattle.refusal.specs.Refusal.{reply_of};
ghost use Rattle.requests_writer.specs.Writer.{some_upper, write_checks};

use refusal::{MAX_DIMENSION, MAX_ENTRIES, Refusal};
use words::at;
use words::index::index_outside;

// Whether some row is less than its column.
fn some_upper(rows: &[u32], columns: &[u32]) -> bool
    requires { length rows.now ≤ length columns.now }
    ensures { result ≡ some_upper rows.now columns.now }
{
    for k in 0..rows.len() {
        if at(rows, k) < at(columns, k) {
            return true;
        }
    }
    false
}

// Whether there are no requests of some columns.
fn no_requests(n: usize, requests: usize) -> bool
    ensures { result ≡ (eqb requests 0 && ltb 0 n) }
{
    requests == 0 && n > 0
}

// 1, 4, 5 and 24 in their order.
pub fn check_written(n: usize, rows: &[u32], columns: &[u32]) -> Result<(), Refusal>
    ensures { reply_of result ≡ verdict (write_checks n rows.now columns.now) }
{
    if MAX_DIMENSION < n {
        return Err(Refusal::TooLarge);
    }
    if MAX_ENTRIES < rows.len() {
        return Err(Refusal::TooLarge);
    }
    if rows.len() != columns.len() {
        return Err(Refusal::DimensionMismatch);
    }
    if index_outside(n, rows) {
        return Err(Refusal::RequestOutOfRange);
    }
    if index_outside(n, columns) {
        return Err(Refusal::RequestOutOfRange);
    }
    if some_upper(rows, columns) {
        return Err(Refusal::RequestOutOfRange);
    }
    if no_requests(n, rows.len()) {
        return Err(Refusal::NoRequests);
    }
    Ok(())
}
