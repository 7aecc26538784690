// The marked pairs listed, ascending by row then column, where there is room for them; the marks end 0.
ghost use Rattle.std.specs.Prelude.{◌≡◌, ◌≤◌, length};
ghost use Rattle.refusal.specs.Bounds.{max_dimension};
ghost use Rattle.pairs.specs.Scratch.{mark_words};
ghost use Rattle.pairs.specs.Marks.{marking};
ghost use Rattle.pattern_lists.specs.ListedMarks.{ListedMarks};

use super::marks::{count_marks, list_pairs};
use pair_places::pair_total;
use refusal::Refusal;
use words::clear;

// Lists the marked pairs if there is room for them, and clears the marks.
pub fn list_marked(
    n: usize,
    marks: &mut [u32],
    rows: &mut [u32],
    columns: &mut [u32],
) -> Result<usize, Refusal>
    requires { (n ≤ max_dimension) × (length marks.old ≡ mark_words n) }
    ensures { ListedMarks n (marking marks.old) result marks.old rows.old columns.old marks.new rows.new columns.new }
{
    let count = count_marks(marks, pair_total(n));
    if rows.len() < count {
        clear(marks, marks.len());
        return Err(Refusal::TooShort);
    }
    if columns.len() < count {
        clear(marks, marks.len()); // also when an output is short
        return Err(Refusal::TooShort);
    }
    let listed = list_pairs(n, marks, rows, columns);
    clear(marks, marks.len()); // the marks end 0
    Ok(listed)
}
