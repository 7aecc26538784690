// Document 01's starred closed sets and limits, called and compared; that each comparison holds is proved from the contracts and the table.
ghost use Rattle.std.specs.Prelude.{◌≡◌, true, [], ◌∷◌};
ghost use Rattle.starred_table.specs.Calls.{F2, F3};
ghost use Rattle.starred_table.specs.Counts.{counted_of};

use super::calls::entries;
use super::shown::{counted, has_ratio};
use check::expect;

// F2 with requests and a limit shows these counts, and a status that is Complete or not.
fn f2_shows(
    request_rows: &[u32],
    request_columns: &[u32],
    limit: usize,
    requested: usize,
    closure: usize,
    complete: bool,
)
    requires { counted_of (F2 request_rows.now request_columns.now limit) requested closure 3 complete ≡ true }
{
    let reply = entries(
        2,
        &[0, 2, 3],
        &[0, 1, 1],
        &[1.0, 2.0, 1.0],
        request_rows,
        request_columns,
        limit,
        3,
        12,
    );
    expect(counted(reply, requested, closure, 3, complete));
}

// The same with one request.
fn f2_pair_shows(row: u32, col: u32, limit: usize, closure: usize, complete: bool)
    requires { counted_of (F2 (row ∷ []) (col ∷ []) limit) 1 closure 3 complete ≡ true }
{
    f2_shows(&[row], &[col], limit, 1, closure, complete);
}

// F2 with (0,0) at limits 3 and 2, (1,0) and (1,1).
pub fn pairs_of_f2() {
    f2_pair_shows(0, 0, 3, 3, true);
    f2_pair_shows(0, 0, 2, 3, false);
    f2_pair_shows(1, 0, 3, 2, true);
    f2_pair_shows(1, 1, 3, 1, true);
}

// F2 with (0,1) and (1,0), and with no requests at limit 0.
pub fn requests_of_f2() {
    f2_shows(&[0, 1], &[1, 0], 3, 1, 2, true);
    f2_shows(&[], &[], 0, 0, 0, true);
}

// F2 at limits 0 and 2^32 - 1, with a pair requested twice, and with more requests than the limit.
pub fn limits() {
    f2_pair_shows(0, 0, 0, 1, false);
    f2_pair_shows(0, 0, 4294967295, 3, true);
    f2_shows(&[0, 0], &[0, 0], 3, 1, 3, true);
    f2_shows(&[0, 1], &[0, 1], 0, 2, 1, false);
}

// F3 with (0,0) and a limit; it keeps 5 entries.
fn f3_shows(limit: usize, complete: bool)
    requires { counted_of (F3 (0 ∷ []) (0 ∷ []) limit) 1 6 5 complete ≡ true }
{
    let reply = entries(
        3,
        &[0, 3, 4, 5],
        &[0, 1, 2, 1, 2],
        &[1.0, 2.0, 3.0, 1.0, 1.0],
        &[0],
        &[0],
        limit,
        6,
        19,
    );
    expect(counted(reply, 1, 6, 5, complete));
}

// At limits 6 and 5.
pub fn closed_sets_of_f3() {
    f3_shows(6, true);
    f3_shows(5, false);
}

// No columns and no requests: Complete, and the ratio is 0.0.
pub fn closed_set_of_no_columns() {
    let reply = entries(0, &[0], &[], &[], &[], &[], 3, 1, 1);
    expect(counted(reply, 0, 0, 0, true));
    expect(has_ratio(reply, 0.0));
}
