// Positions that follow one another.
ghost use Rattle.std.specs.Prelude.{◌≡◌, true};
ghost use Rattle.closure_route.specs.Run.{row_positions, IsRunInput, Follows};

use words::at;

// Whether the positions of the rows from `from` to last, each in the word `base` past its row, follow one another. They rise with the row, so they do
// where the first and the last differ by as much as their places.
pub fn is_run(base: usize, from: usize, last: usize, rows: &[u32], scratch: &[u32]) -> bool
    requires { IsRunInput base from last rows.now scratch.now }
    ensures { result ≡ true → Follows (row_positions base rows.now scratch.now) from last }
{
    let a = at(scratch, base + at(rows, from));
    let b = at(scratch, base + at(rows, last - 1));
    b - a == last - 1 - from
}
