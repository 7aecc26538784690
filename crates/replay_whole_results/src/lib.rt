// Cases of the calls on a result of whole numbers: bounds on a row's variance, and variances along a track.
#![tactic(auto)]

use answer_text::answers::{put_bounds, put_checked, put_whole_output};
use case_lists::lent::lent_whole_output;
use case_lists::{ROOM, cells, columns, highs, lows, rows, starts, whole_values, width};
use std::io;
use std::io::Write;
use track_variances::track_variances_whole;
use weight_ranges::variance_bounds_whole;

// Kind bounds.
pub fn bounds(out: &mut impl Write, text: &[u8]) -> io::Result<()> {
    let mut result_starts = [0u32; ROOM];
    let mut result_rows = [0u32; ROOM];
    let mut result_values = [0i64; ROOM];
    let mut row_columns = [0u32; ROOM];
    let mut row_lows = [0i64; ROOM];
    let mut row_highs = [0i64; ROOM];
    put_bounds(
        out,
        variance_bounds_whole(
            starts(text, &mut result_starts),
            rows(text, &mut result_rows),
            whole_values(text, &mut result_values),
            columns(text, &mut row_columns),
            lows(text, &mut row_lows),
            highs(text, &mut row_highs),
        ),
    )
}

// Kind track; where the case lends no output, one of 7777.
pub fn track(out: &mut impl Write, text: &[u8]) -> io::Result<()> {
    let mut result_starts = [0u32; ROOM];
    let mut result_rows = [0u32; ROOM];
    let mut result_values = [0i64; ROOM];
    let mut track = [0u32; ROOM];
    let mut output = [7777i64; ROOM];
    let output = lent_whole_output(text, &mut output);
    put_checked(
        out,
        track_variances_whole(
            starts(text, &mut result_starts),
            rows(text, &mut result_rows),
            whole_values(text, &mut result_values),
            cells(text, &mut track),
            width(text),
            output,
        ),
    )?;
    put_whole_output(out, output)
}
