// The requests that a file's entries stand for: their pairs, or every diagonal pair where there are none.
ghost use Rattle.std.specs.Prelude.{◌≤◌, ◌≡◌, length};
ghost use Rattle.refusal.specs.Bounds.{max_dimension};
ghost use Rattle.matrix_market.specs.File.{every_diagonal, stand_for, request_count};
ghost use Rattle.requests_reader.specs.EntryLines.{entries_from, StoreEntriesInput, RequestsStored};

use super::entries::store_entries;

// How many requests so many entries stand for, in a file of dimension n.
pub fn request_count(n: usize, count: usize) -> usize
    ensures { result ≡ request_count n count }
{
    if count == 0 {
        return n;
    }
    count
}

// Stores the diagonal pairs of n columns to the front of the lists, ascending.
fn store_diagonals(n: usize, rows: &mut [u32], columns: &mut [u32])
    requires { (n ≤ max_dimension) × (n ≤ length rows.old) × (n ≤ length columns.old) }
    ensures { RequestsStored (every_diagonal n) rows.old columns.old rows.new columns.new }
{
    for k in 0..n {
        rows[k] = k as u32;
        columns[k] = k as u32;
    }
}

// Stores the requests that the entry lines from p on stand for, in a file of dimension n, to the front of the lists.
pub fn store_requests(
    text: &[u8],
    p: usize,
    n: usize,
    count: usize,
    rows: &mut [u32],
    columns: &mut [u32],
)
    requires store_entries_input { StoreEntriesInput text.now p count × (n ≤ max_dimension) }
    requires count_in_bounds { (request_count n count ≤ length rows.old) × (request_count n count ≤ length columns.old) }
    ensures { RequestsStored (stand_for n (entries_from text.now p)) rows.old columns.old rows.new columns.new }
{
    if count == 0 {
        store_diagonals(n, rows, columns);
        return;
    }
    store_entries(text, p, count, rows, columns);
}
