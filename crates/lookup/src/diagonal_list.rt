// The diagonals of a well-formed selected-inverse result and their marks, written to the front of two lists.
ghost use Rattle.std.specs.Prelude.{◌≡◌, ◌<◌, ◌≤◌, length};
ghost use Rattle.std.specs.Float.{nan};
ghost use Rattle.lists.specs.Overwrite.{overwrite};
ghost use Rattle.columns.specs.Kept.{f0};
ghost use Rattle.result.specs.Lookup.{dimension, diagonal_of, mark_of, diagonals, coverage, WellFormed};

use column_search::find_in_column;

// A diagonal, 0.0 where it is not covered, and its mark.
#[derive(Clone, Copy)]
struct MarkedDiagonal {
    value: f64,
    mark: u8,
}

// The diagonal of column c of a well-formed result.
fn diagonal(starts: &[u32], rows: &[u32], values: &[f64], c: usize) -> MarkedDiagonal
    requires well_formed { WellFormed starts.now rows.now (length values.now) }
    requires c_bound { c < dimension starts.now }
    ensures value_value { result.value ≡ diagonal_of nan f0 starts.now rows.now values.now c }
    ensures mark_value { result.mark ≡ mark_of nan starts.now rows.now values.now c }
{
    let found = find_in_column(starts, rows, c, c);
    let place = found.place;
    match place {
        Some(p) => MarkedDiagonal {
            value: values[p],
            mark: 1,
        },
        None => MarkedDiagonal {
            value: 0.0,
            mark: 0,
        },
    }
}

// Writes the diagonals and their marks to the front of the outputs.
pub fn write_diagonals(
    starts: &[u32],
    rows: &[u32],
    values: &[f64],
    output: &mut [f64],
    marks: &mut [u8],
)
    requires well_formed { WellFormed starts.now rows.now (length values.now) }
    requires starts_in_bounds { (dimension starts.now ≤ length output.old) × (dimension starts.now ≤ length marks.old) }
    ensures output_after { output.new ≡ overwrite (diagonals starts.now rows.now values.now) output.old }
    ensures marks_after { marks.new ≡ overwrite (coverage starts.now rows.now values.now) marks.old }
{
    let n = starts.len() - 1;
    for c in 0..n {
        let d = diagonal(starts, rows, values, c);
        output[c] = d.value;
        marks[c] = d.mark;
    }
}
