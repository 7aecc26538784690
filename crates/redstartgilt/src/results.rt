// A result: lookups, its check, its diagonal list.
ghost use Rattle.std.specs.Prelude.{◌≡◌, length};
ghost use Rattle.refusal.specs.Steps.{verdict};
ghost use Rattle.refusal.specs.Refusal.{reply_of};
ghost use Rattle.result.specs.Lookup.{lookup, result_steps};
ghost use Rattle.result.specs.Counted.{lookup_looks};
ghost use Rattle.result.specs.Halving.{lookup_within};
ghost use Rattle.lookup.specs.DiagonalList.{DiagonalsListed};
ghost use Rattle.verdicts.specs.Number.{checked_number, reply_number};
ghost use Rattle.c_replies.specs.Numbers.{entry_numbers, counted_numbers, Shows};

use c_replies::{CountedNumbers, EntryNumbers};
use column_search::result_check::check_result;
use lookup::well_formed::get_well_formed;
use verdicts::checked_number;

// A lookup in a result.
#[unsafe(no_mangle)]
pub extern "C" fn redstartgilt_get(
    starts: &[u32],
    rows: &[u32],
    values: &[f64],
    row: usize,
    column: usize,
) -> EntryNumbers
    ensures { result ≡ entry_numbers (lookup starts.now rows.now values.now row column) }
{
    EntryNumbers::from(lookup::get(starts, rows, values, row, column))
}

// The same, and how many places the column search looked at.
#[unsafe(no_mangle)]
pub extern "C" fn redstartgilt_get_counted(
    starts: &[u32],
    rows: &[u32],
    values: &[f64],
    row: usize,
    column: usize,
) -> CountedNumbers
    ensures { result ≡ counted_numbers (lookup starts.now rows.now values.now row column)
        (lookup_looks starts.now rows.now (length values.now) row column) }
{
    CountedNumbers::from(lookup::get_counted(starts, rows, values, row, column))
}

// Whether a result is well formed.
#[unsafe(no_mangle)]
pub extern "C" fn redstartgilt_check_result(starts: &[u32], rows: &[u32], values: &[f64]) -> u32
    ensures { result ≡ reply_number (verdict (result_steps starts.now rows.now (length values.now))) }
{
    checked_number(check_result(starts, rows, values.len()))
}

// A lookup in a result that is known to be well formed.
#[unsafe(no_mangle)]
pub extern "C" fn redstartgilt_get_well_formed(
    starts: &[u32],
    rows: &[u32],
    values: &[f64],
    row: usize,
    column: usize,
) -> EntryNumbers
    ensures { result ≡ entry_numbers (lookup_within starts.now rows.now values.now row column) }
{
    EntryNumbers::from(get_well_formed(starts, rows, values, row, column))
}

// The diagonal list of a result, and the marks of the diagonals that it covers.
#[unsafe(no_mangle)]
pub extern "C" fn redstartgilt_diag(
    starts: &[u32],
    rows: &[u32],
    values: &[f64],
    output: &mut [f64],
    marks: &mut [u8],
) -> u32
    ensures { Shows checked_number (λ d. DiagonalsListed
        starts.now rows.now values.now output.old marks.old
        (reply_of d) output.new marks.new) result }
{
    checked_number(lookup::diag(starts, rows, values, output, marks))
}
