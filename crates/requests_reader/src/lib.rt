// Reading requests from a Matrix Market file.
#![tactic(auto)]

ghost use Rattle.std.specs.Prelude.{◌≤◌, true, false, length, MatchOption};
ghost use Rattle.requests_reader.specs.HeaderLines.{SizeRead};
ghost use Rattle.requests_reader.specs.Reader.{RequestsRead};

use entries::scan_entries;
use file_lines::read_triple;
use front::{first_line_is, skip_comments};
use refusal::{MAX_DIMENSION, MAX_ENTRIES, Refusal};
use requests::{request_count, store_requests};

pub mod entries;
pub mod front;
pub mod requests;

// What an accepted size line tells: the dimension, the entry count and the place behind it.
#[derive(Clone, Copy)]
struct Size {
    n: usize,
    count: usize,
    next: usize,
}

// The size line at p, if it is accepted.
fn read_size(text: &[u8], p: usize) -> Option<Size>
    requires { p ≤ length text.now }
    ensures { MatchOption result (SizeRead text.now p false 0 0 0) (λ s. SizeRead text.now p true s.n s.count s.next) }
{
    let line = read_triple(text, p)?;
    if line.first > MAX_DIMENSION {
        return None;
    }
    if line.first != line.second {
        return None;
    }
    if line.third > MAX_ENTRIES {
        return None;
    }
    Some(Size {
        n: line.first,
        count: line.third,
        next: line.next,
    })
}

// Reads the file's requests to the front of the two lists, in file order, repeats kept; a file without entries stands for every diagonal pair.
pub fn read_requests(
    text: &[u8],
    rows: &mut [u32],
    columns: &mut [u32],
) -> Result<(usize, usize), Refusal>
    ensures { RequestsRead text.now rows.old columns.old result rows.new columns.new }
{
    let header = b"%%MatrixMarket matrix coordinate pattern symmetric";
    let Some(start) = first_line_is(text, header) else {
        return Err(Refusal::OtherHeader);
    };
    let at = skip_comments(text, start);
    let Some(size) = read_size(text, at) else {
        return Err(Refusal::MalformedFile);
    };
    let Some(scan) = scan_entries(text, size.next, size.n) else {
        return Err(Refusal::MalformedFile);
    };
    if scan.count != size.count {
        return Err(Refusal::MalformedFile);
    }
    if scan.outside {
        return Err(Refusal::FileIndexOutside);
    }
    let requests = request_count(size.n, scan.count);
    if rows.len() < requests {
        return Err(Refusal::TooShort);
    }
    if columns.len() < requests {
        return Err(Refusal::TooShort);
    }
    store_requests(text, size.next, size.n, scan.count, rows, columns);
    Ok((size.n, requests))
}
