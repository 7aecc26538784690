// Searches in the rows of one column.
ghost use Rattle.std.specs.Prelude.{◌<◌, length};
ghost use Rattle.columns.specs.Columns.{start};
ghost use Rattle.columns.specs.Factor.{Column};

use answer_text::answers::{put_checked, put_ok};
use case_lists::{ROOM, list_of, rows};
use case_text::items::Words;
use column_search::find_in_column;
use column_search::result_check::check_column;
use std::io;
use std::io::Write;

// Where the row stands, none where it is absent.
fn put_place(out: &mut impl Write, place: Option<usize>) -> io::Result<()> {
    match place {
        Some(p) => write!(out, " {p}"),
        None => write!(out, " none"),
    }
}

// The place of each row sought in the column between the two starts.
fn put_places(out: &mut impl Write, starts: &[u32], rows: &[u32], sought: &[u32]) -> io::Result<()>
    requires in_bounds { 1 < length starts.now }
    requires column { Column rows.now (length rows.now) (start starts.now 0) (start starts.now 1) }
{
    let count = sought.len();
    write!(out, "places {count}")?;
    for row in sought {
        let found = find_in_column(starts, rows, *row as usize, 0);
        let place = found.place;
        put_place(out, place)?;
    }
    writeln!(out)
}

// How many places each search looks at.
fn put_looks(out: &mut impl Write, starts: &[u32], rows: &[u32], sought: &[u32]) -> io::Result<()>
    requires in_bounds { 1 < length starts.now }
    requires column { Column rows.now (length rows.now) (start starts.now 0) (start starts.now 1) }
{
    let count = sought.len();
    write!(out, "looks {count}")?;
    for row in sought {
        let found = find_in_column(starts, rows, *row as usize, 0);
        let looks = found.looks;
        write!(out, " {looks}")?;
    }
    writeln!(out)
}

// The searches, if the rows ascend.
fn put_searches(
    out: &mut impl Write,
    starts: &[u32],
    rows: &[u32],
    sought: &[u32],
) -> io::Result<()>
    requires { 1 < length starts.now }
{
    match check_column(starts, rows, rows.len(), 0) {
        Err(why) => put_checked(out, Err(why)),
        Ok(()) => {
            put_ok(out)?;
            put_places(out, starts, rows, sought)?;
            put_looks(out, starts, rows, sought)
        }
    }
}

// The searches in a column of these rows.
fn searched(out: &mut impl Write, rows: &[u32], sought: &[u32]) -> io::Result<()> {
    let starts = [0, u32::try_from(rows.len()).unwrap_or(u32::MAX)];
    put_searches(out, &starts, rows, sought)
}

// The searches of the case.
pub fn searches(out: &mut impl Write, text: &[u8]) -> io::Result<()> {
    let mut column = [0u32; ROOM];
    let mut sought = [0u32; ROOM];
    searched(
        out,
        rows(text, &mut column),
        list_of::<Words>(text, b"\nsought ", &mut sought),
    )
}
