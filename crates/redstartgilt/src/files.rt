// Request files.
ghost use Rattle.requests_reader.specs.Reader.{RequestsRead};
ghost use Rattle.requests_writer.specs.Writer.{RequestsWritten};
ghost use Rattle.c_replies.specs.Numbers.{requests_numbers, bytes_numbers, Shows};
ghost use Rattle.refusal.specs.Refusal.{reply_of};

use c_replies::{BytesNumbers, RequestsNumbers};

// Requests from a Matrix Market file.
#[unsafe(no_mangle)]
pub extern "C" fn redstartgilt_read_requests(
    text: &[u8],
    rows: &mut [u32],
    columns: &mut [u32],
) -> RequestsNumbers
    ensures { Shows (λ d. requests_numbers (reply_of d)) (λ d. RequestsRead
        text.now rows.old columns.old d rows.new columns.new) result }
{
    RequestsNumbers::from(requests_reader::read_requests(text, rows, columns))
}

// Requests as a Matrix Market file.
#[unsafe(no_mangle)]
pub extern "C" fn redstartgilt_write_requests(
    dimension: usize,
    rows: &[u32],
    columns: &[u32],
    output: &mut [u8],
    scratch: &mut [u32],
) -> BytesNumbers
    ensures { Shows (λ d. bytes_numbers (reply_of d)) (λ d. RequestsWritten dimension
        rows.now columns.now output.old scratch.old d output.new scratch.new) result }
{
    BytesNumbers::from(requests_writer::write_requests(dimension, rows, columns, output, scratch))
}
