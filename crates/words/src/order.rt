// The order of words.
ghost use Rattle.std.specs.Prelude.{◌≡◌, ◌+◌, ◌≤◌, length};
ghost use Rattle.lists.specs.Select.{tally};
ghost use Rattle.columns.specs.Columns.{not_above};

// How many of the rows between s and e are not above the one before them, the first left out.
// The loop has one exit and a 32-bit count, so that it is compiled to vector instructions on four rows.
pub fn descents(rows: &[u32], s: usize, e: u32) -> usize
    requires { (s ≤ e) × (e ≤ length rows.now) }
    ensures { result ≡ tally (not_above rows.now) (s + 1) e }
{
    let end = e as usize;
    let mut count: u32 = 0;
    for p in s + 1..end {
        if rows[p] <= rows[p - 1] {
            count += 1;
        }
    }
    count as usize
}
