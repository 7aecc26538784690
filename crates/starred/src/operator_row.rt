// Document 01's starred operator row, called and compared; that each comparison holds is proved from the contract and the table.
use super::shown::counted;
use check::expect;
use operator_variances::selected_inverse_transformed_diag;

// F2 with the operator row 1 at 0, 1 at 1: 2.
pub fn operator_row() {
    let mut result_starts = [7u32; 3];
    let mut result_rows = [7u32; 3];
    let mut result_values = [7.0f64; 3];
    let mut scratch = [7u32; 12];
    let mut output = [7.0f64; 1];
    let reply = selected_inverse_transformed_diag(
        2,
        &[0, 2, 3],
        &[0, 1, 1],
        &[1.0, 2.0, 1.0],
        2,
        &[0, 2],
        &[0, 1],
        &[1.0, 1.0],
        &mut result_starts,
        &mut result_rows,
        &mut result_values,
        &mut scratch,
        &mut output,
    );
    expect(counted(reply, 3, 3, 3, true));
    expect(output[0] == 2.0);
}
