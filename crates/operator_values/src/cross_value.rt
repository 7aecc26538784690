// The value of a row of one operator and a row of another, from entries of the inverse that are read by position.
ghost use Rattle.std.specs.Prelude.{◌≡◌, ◌+◌, length};
ghost use Rattle.std.specs.Float.{nan};
ghost use Rattle.pairs.specs.Positions.{inverse_at};
ghost use Rattle.columns.specs.Columns.{value};
ghost use Rattle.exact.specs.Exact.{floats};
ghost use Rattle.quadratic_form.specs.CrossValue.{with_terms, cross_value};
ghost use Rattle.quadratic_form.specs.RowValue.{term_column};
ghost use Rattle.operator_values.specs.Reading.{CrossValueInput};

use pair_places::positions::{column_shift, pair_position};
use pair_places::scratch::queue_start;
use words::at;

// Adds the terms of the place a of the first row with each place from t to f of the second to a sum.
fn add_terms(
    n: usize,
    a_columns: &[u32],
    a_weights: &[f64],
    a: usize,
    b_columns: &[u32],
    b_weights: &[f64],
    t: usize,
    f: usize,
    scratch: &[u32],
    result_values: &[f64],
    first: f64,
) -> f64
    requires { CrossValueInput n a_columns.now (length a_weights.now) b_columns.now (length b_weights.now) scratch.now (length result_values.now) a (a + 1) t f }
    ensures { result ≡ with_terms floats (term_column a_columns.now) (term_column b_columns.now) (value a_weights.now) (value b_weights.now)
        (inverse_at nan n scratch.now result_values.now) t f a first }
{
    let x = a_weights[a];
    let i = at(a_columns, a);
    let positions = queue_start(n);
    let base = positions + column_shift(n, i);
    let mut sum = first;
    for b in t..f {
        let y = b_weights[b];
        let position = pair_position(n, positions, base, i, at(b_columns, b), scratch);
        sum = sum + x * y * result_values[position];
    }
    sum
}

// The value of the row with the places from s to e and that with the places from t to f.
pub fn cross_value(
    n: usize,
    a_columns: &[u32],
    a_weights: &[f64],
    s: usize,
    e: usize,
    b_columns: &[u32],
    b_weights: &[f64],
    t: usize,
    f: usize,
    scratch: &[u32],
    result_values: &[f64],
) -> f64
    requires { CrossValueInput n a_columns.now (length a_weights.now) b_columns.now (length b_weights.now) scratch.now (length result_values.now) s e t f }
    ensures { result ≡ cross_value floats (term_column a_columns.now) (term_column b_columns.now) (value a_weights.now) (value b_weights.now)
        (inverse_at nan n scratch.now result_values.now) s e t f }
{
    let mut sum = 0.0;
    for a in s..e {
        sum = add_terms(
            n,
            a_columns,
            a_weights,
            a,
            b_columns,
            b_weights,
            t,
            f,
            scratch,
            result_values,
            sum,
        );
    }
    sum
}
