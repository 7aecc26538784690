// Products of the recurrence over a closed set, added to the sums of a column: entries of the inverse are read by position.
ghost use Rattle.std.specs.Prelude.{◌≡◌, length, get_or, set};
ghost use Rattle.closure_route.specs.Part.{PartSet};
ghost use Rattle.closure_route.specs.Products.{with_term, run_terms, row_terms, column_terms, AddRunInput, AddAtInput, AddRowsInput, AddColumnInput};

use super::runs::is_run;
use pair_places::positions::column_base;
use words::at;

// Adds to each entry from `from` to last the product of l and an entry, the first at the position, each next one place further.
fn add_run(from: usize, last: usize, position: usize, l: f64, result_values: &mut [f64])
    requires { AddRunInput from last position (length result_values.old) }
    ensures { PartSet from last (run_terms from position l result_values.old) result_values.old result_values.new }
{
    for q in from..last {
        result_values[q] = result_values[q] + l * result_values[position + (q - from)];
    }
}

// Adds to the entry at q the product of l and the entry whose position is the word.
fn add_at(q: usize, word: usize, l: f64, scratch: &[u32], result_values: &mut [f64])
    requires { AddAtInput q word scratch.now (length result_values.old) }
    ensures { result_values.new ≡ set result_values.old q (with_term result_values.old q l (get_or scratch.now word 0)) }
{
    let position = at(scratch, word);
    let z = result_values[position];
    result_values[q] = result_values[q] + l * z;
}

// Adds to each entry from `from` to last the product of l and the entry whose position is in the word `base` past its row.
fn add_rows(
    base: usize,
    from: usize,
    last: usize,
    l: f64,
    result_rows: &[u32],
    scratch: &[u32],
    result_values: &mut [f64],
)
    requires { AddRowsInput base from last result_rows.now scratch.now (length result_values.old) }
    ensures { PartSet from last (row_terms base l result_rows.now scratch.now result_values.old)
        result_values.old result_values.new }
{
    for q in from..last {
        add_at(q, base + at(result_rows, q), l, scratch, result_values);
    }
}

// A run shorter than this is not looked for.
const SHORT: usize = 4;

// Adds to each sum from `from` to last the product of the descendant k, whose factor entry is l. Where the positions
// of the rows follow one another the entries are read from a run.
pub fn add_column(
    n: usize,
    k: usize,
    l: f64,
    from: usize,
    last: usize,
    result_rows: &[u32],
    scratch: &[u32],
    result_values: &mut [f64],
)
    requires { AddColumnInput n k from last result_rows.now scratch.now (length result_values.old) }
    ensures { PartSet from last (column_terms n k l result_rows.now scratch.now result_values.old)
        result_values.old result_values.new }
{
    let base = column_base(n, k);
    if last - from < SHORT {
        add_rows(base, from, last, l, result_rows, scratch, result_values);
        return;
    }
    if is_run(base, from, last, result_rows, scratch) {
        let position = at(scratch, base + at(result_rows, from));
        add_run(from, last, position, l, result_values);
    } else {
        add_rows(base, from, last, l, result_rows, scratch, result_values);
    }
}
