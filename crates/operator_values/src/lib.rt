// The values of operators' rows from the entries of a selected inverse: each row with itself, the vector that `selected_inverse_transformed_diag` of
// uncertainty.rs builds; and pairs of rows of two operators.
#![tactic(auto)]

pub mod cross_value;

ghost use Rattle.std.specs.Prelude.{◌≡◌, ◌+◌, ◌<◌, length};
ghost use Rattle.std.specs.Float.{nan};
ghost use Rattle.lists.specs.Overwrite.{overwrite};
ghost use Rattle.pairs.specs.Positions.{inverse_at};
ghost use Rattle.columns.specs.Columns.{start};
ghost use Rattle.columns.specs.Operator.{operator_rows};
ghost use Rattle.quadratic_form.specs.RowValue.{operator_values, row_pair_value, row_pair_values};
ghost use Rattle.operator_values.specs.Reading.{CrossValueInput, OperatorValuesInput, RowPairValuesInput};

use cross_value::cross_value;
use operator_check::operator_rows;
use words::at;

// Writes the value of each row to the front of the output.
pub fn operator_values(
    n: usize,
    row_starts: &[u32],
    columns: &[u32],
    weights: &[f64],
    scratch: &[u32],
    result_values: &[f64],
    output: &mut [f64],
)
    requires { OperatorValuesInput n row_starts.now columns.now (length weights.now) scratch.now (length result_values.now) (length output.old) }
    ensures { output.new ≡ overwrite (operator_values row_starts.now columns.now weights.now
        (inverse_at nan n scratch.now result_values.now)) output.old }
{
    let last = operator_rows(row_starts);
    for i in 0..last {
        let s = at(row_starts, i);
        let e = at(row_starts, i + 1);
        output[i] = cross_value(
            n,
            columns,
            weights,
            s,
            e,
            columns,
            weights,
            s,
            e,
            scratch,
            result_values,
        );
    }
}

// The value of row i of the first operator and row j of the second.
fn pair_value(
    n: usize,
    a_row_starts: &[u32],
    a_columns: &[u32],
    a_weights: &[f64],
    i: usize,
    b_row_starts: &[u32],
    b_columns: &[u32],
    b_weights: &[f64],
    j: usize,
    scratch: &[u32],
    result_values: &[f64],
) -> f64
    requires i_bound { (i < operator_rows a_row_starts.now) × (j < operator_rows b_row_starts.now) }
    requires cross_value_input { CrossValueInput n a_columns.now (length a_weights.now) b_columns.now (length b_weights.now) scratch.now (length result_values.now)
        (start a_row_starts.now i) (start a_row_starts.now (i + 1)) (start b_row_starts.now j) (start b_row_starts.now (j + 1)) }
    ensures { result ≡ row_pair_value a_row_starts.now a_columns.now a_weights.now
        b_row_starts.now b_columns.now b_weights.now (inverse_at nan n scratch.now result_values.now) i j }
{
    let s = at(a_row_starts, i);
    let e = at(a_row_starts, i + 1);
    let t = at(b_row_starts, j);
    let f = at(b_row_starts, j + 1);
    cross_value(
        n,
        a_columns,
        a_weights,
        s,
        e,
        b_columns,
        b_weights,
        t,
        f,
        scratch,
        result_values,
    )
}

// Writes the value of each row pair, row a_rows[p] of the first operator and row b_rows[p] of the second, to the front of the output.
pub fn row_pair_values(
    n: usize,
    a_row_starts: &[u32],
    a_columns: &[u32],
    a_weights: &[f64],
    b_row_starts: &[u32],
    b_columns: &[u32],
    b_weights: &[f64],
    a_rows: &[u32],
    b_rows: &[u32],
    scratch: &[u32],
    result_values: &[f64],
    output: &mut [f64],
)
    requires { RowPairValuesInput n a_row_starts.now a_columns.now (length a_weights.now) b_row_starts.now b_columns.now (length b_weights.now)
        a_rows.now b_rows.now scratch.now (length result_values.now) (length output.old) }
    ensures { output.new ≡ overwrite (row_pair_values a_row_starts.now a_columns.now a_weights.now
        b_row_starts.now b_columns.now b_weights.now a_rows.now b_rows.now
        (inverse_at nan n scratch.now result_values.now)) output.old }
{
    for p in 0..a_rows.len() {
        output[p] = pair_value(
            n,
            a_row_starts,
            a_columns,
            a_weights,
            at(a_rows, p),
            b_row_starts,
            b_columns,
            b_weights,
            at(b_rows, p),
            scratch,
            result_values,
        );
    }
}
