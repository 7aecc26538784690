// The place of a row in lists that are taken to be a well-formed result.
ghost use Rattle.std.specs.Prelude.{◌≡◌, ◌-◌, ◌<◌, ◌≤◌, length};
ghost use Rattle.columns.specs.Columns.{row};
ghost use Rattle.result.specs.Halving.{halving, standing, halved_place};
ghost use Rattle.column_search.specs.Reply.{place_reply};

use words::at;

// A place and the row there.
#[derive(Clone, Copy)]
struct Stood {
    place: usize,
    there: usize,
}

// Where halving the places from s to below e ends. The row is carried along, so that no jump is compiled for the choice of a half.
fn halve(rows: &[u32], r: usize, s: usize, e: usize) -> Stood
    requires { (s < e) × (e ≤ length rows.now) }
    ensures place_value { result.place ≡ halving rows.now r s (e - s) }
    ensures there_value { result.there ≡ row rows.now result.place }
{
    let mut base = s;
    let mut there = at(rows, s);
    let mut size = e - s;
    while 1 < size {
        let half = size / 2;
        let mid = base + half;
        let at_mid = at(rows, mid);
        if at_mid <= r {
            base = mid;
            there = at_mid;
        }
        size -= half;
    }
    Stood {
        place: base,
        there: there,
    }
}

// The place that halving ends at, if r stands there.
fn halve_for(rows: &[u32], r: usize, s: usize, e: usize) -> Option<usize>
    requires { (s < e) × (e ≤ length rows.now) }
    ensures { place_reply result ≡ standing rows.now r (halving rows.now r s (e - s)) }
{
    let h = halve(rows, r, s, e);
    if h.there == r {
        return Some(h.place);
    }
    None
}

// Place p, if r stands there.
fn standing_at(rows: &[u32], r: usize, p: usize) -> Option<usize>
    requires { p < length rows.now }
    ensures { place_reply result ≡ standing rows.now r p }
{
    if at(rows, p) == r {
        return Some(p);
    }
    None
}

// The place of row r from s to below e: the first, else by the distance from it in a run of rows one after the other, else by halving.
pub fn find_by_halving(rows: &[u32], r: usize, s: usize, e: usize) -> Option<usize>
    requires { e ≤ length rows.now }
    ensures { place_reply result ≡ halved_place rows.now r s e }
{
    if e <= s {
        return None;
    }
    let first = at(rows, s);
    if first == r {
        return Some(s);
    }
    if r < first {
        return None;
    }
    let last = at(rows, e - 1);
    if last < r {
        return None;
    }
    if last - first == e - 1 - s {
        return standing_at(rows, r, s + (r - first));
    }
    halve_for(rows, r, s, e)
}
