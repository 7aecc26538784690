// Document 01's starred values, read back and compared; that each comparison holds is proved from the contracts and the table.
ghost use Rattle.std.specs.Prelude.{◌≡◌, true, [], ◌∷◌};
ghost use Rattle.selected_entry.specs.SelectedEntry.{answer_of};
ghost use Rattle.starred_table.specs.Answer.{f2_entry, one_entry};
ghost use Rattle.starred_table.specs.Entries.{is_value};

use super::calls::entry;
use super::shown::{is_absent, is_refused, is_value};
use check::expect;
use selected_entry::SelectedEntry;

// The entry of F2 at a row and a column, for the request of one diagonal.
fn f2_entry(request: u32, row: usize, col: usize) -> SelectedEntry
    ensures { answer_of result ≡ f2_entry (request ∷ []) (request ∷ []) row col }
{
    entry(
        2,
        &[0, 2, 3],
        &[0, 1, 1],
        &[1.0, 2.0, 1.0],
        &[request],
        &[request],
        row,
        col,
        3,
        12,
    )
}

// The entry of a factor of one column, which stores this diagonal alone, for the request (0,0).
fn one_entry(diagonal: f64) -> SelectedEntry
    ensures { answer_of result ≡ one_entry diagonal }
{
    entry(1, &[0, 1], &[0], &[diagonal], &[0], &[0], 0, 0, 1, 6)
}

fn f2_has(row: usize, col: usize, value: f64)
    requires { is_value (f2_entry (0 ∷ []) (0 ∷ []) row col) value ≡ true }
{
    expect(is_value(f2_entry(0, row, col), value));
}

// F2 with (0,0): Z(0,0) = 5, Z(1,0) = -2, Z(1,1) = 1; with (1,1) the lookup of (0,0) gives 8.
pub fn values_of_f2() {
    f2_has(0, 0, 5.0);
    f2_has(1, 0, -2.0);
    f2_has(1, 1, 1.0);
    expect(is_absent(f2_entry(1, 0, 0)));
}

// One column: with only the value 0.0 it gives 6; the diagonal 2.0 gives 0.25; NaN gives 18.
pub fn values_of_one_column() {
    expect(is_refused(one_entry(0.0), 6));
    expect(is_value(one_entry(2.0), 0.25));
    expect(is_refused(one_entry(0.0 / 0.0), 18));
}
