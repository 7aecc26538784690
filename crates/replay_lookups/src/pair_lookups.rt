// Lookups of the pairs of a case.
use case_lists::{columns_of, rows_of};
use case_text::skip_to;
use std::io;
use std::io::Write;

// The line of what `put_found` finds and writes at each pair, if the case has any.
pub fn gets<W: Write, F: Fn(&mut W, usize, usize) -> io::Result<()>>(
    out: &mut W,
    text: &[u8],
    put_found: F,
) -> io::Result<()>
    requires { F.IsAlwaysCallable put_found }
{
    let mut pair_rows = [0u32; 64];
    let mut pair_columns = [0u32; 64];
    if skip_to(text, 0, b"\nprows ") < text.len() {
        let rows = rows_of(text, b'p', &mut pair_rows);
        let columns = columns_of(text, b'p', &mut pair_columns);
        let count = rows.len();
        write!(out, "gets {count}")?;
        for (row, column) in rows.iter().zip(columns) {
            put_found(out, *row as usize, *column as usize)?;
        }
        writeln!(out)?;
    }
    Ok(())
}
