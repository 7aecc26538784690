// Cases of Matrix Market files: requests read from one, and written as one.
#![tactic(auto)]

use answer_text::answers::{put_file, put_read, put_requests, put_written};
use case_lists::lent::{lent_file, lent_list, lent_scratch};
use case_lists::{ROOM, columns_of, list_of, request_dimension, rows_of};
use case_text::items::{HexBytes, Words};
use requests_reader::read_requests;
use requests_writer::write_requests;
use std::io;
use std::io::Write;

// Kind mmread; where the case lends no lists, lists of 7777.
pub fn reading(out: &mut impl Write, text: &[u8]) -> io::Result<()> {
    let mut file = [0u8; ROOM];
    let mut rows = [7777u32; ROOM];
    let mut columns = [7777u32; ROOM];
    let file = list_of::<HexBytes>(text, b"\nfile ", &mut file);
    let rows = lent_list::<Words>(text, b"\nlrrows ", &mut rows);
    let columns = lent_list::<Words>(text, b"\nlrcols ", &mut columns);
    put_read(out, read_requests(file, rows, columns))?;
    put_requests(out, rows, columns)
}

// Kind mmwrite; where the case lends no lists, a scratch of 7777 and bytes 77 in hexadecimal digits.
pub fn writing(out: &mut impl Write, text: &[u8]) -> io::Result<()> {
    let mut rows = [0u32; ROOM];
    let mut columns = [0u32; ROOM];
    let mut scratch = [7777u32; 67072];
    let mut file = [0x77u8; 65536];
    let scratch = lent_scratch(text, &mut scratch);
    let file = lent_file(text, &mut file);
    put_written(
        out,
        write_requests(
            request_dimension(text),
            rows_of(text, b'r', &mut rows),
            columns_of(text, b'r', &mut columns),
            file,
            scratch,
        ),
    )?;
    put_file(out, scratch, file)
}
