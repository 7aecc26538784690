// The place of a row in a column of a result and of a pair in the result, and how many places a search looks at.
#![tactic(auto)]

pub mod halving;
pub mod order;
pub mod pair_place;
pub mod result_check;
pub mod within;

ghost use Rattle.std.specs.Prelude.{◌≡◌, ◌+◌, ◌-◌, ◌^◌, ◌<◌, length, take, drop};
ghost use Rattle.refusal.specs.Steps.{refused, answered};
ghost use Rattle.columns.specs.Columns.{start};
ghost use Rattle.columns.specs.Factor.{Column};
ghost use Rattle.result.specs.Place.{Ascending, sought, place_in};
ghost use Rattle.result.specs.Looks.{looks};
ghost use Rattle.result.specs.Counted.{column_rows};
ghost use Rattle.column_search.specs.Reply.{place_reply};

use words::at;

// A place, and how many places were looked at for it.
#[derive(Clone, Copy)]
pub struct Found {
    pub place: Option<usize>,
    pub looks: usize,
}

fn absent(looks: usize) -> Found
    ensures { (place_reply result.place ≡ refused 8) × (result.looks ≡ looks) }
{
    Found {
        place: None,
        looks: looks,
    }
}

fn found_at(p: usize, looks: usize) -> Found
    ensures { (place_reply result.place ≡ answered p) × (result.looks ≡ looks) }
{
    Found {
        place: Some(p),
        looks: looks,
    }
}

// The place of row r in a part of the rows that starts at `base`, after `seen` looks: one at the part's first place, then one at its middle.
// What lies below the middle, or above it, goes to the next call.
pub fn search(part: &[u32], r: usize, base: usize, seen: usize) -> Found
    requires ascending { Ascending part.now }
    requires part_bound { base + length part.now < 2 ^ 64 }
    requires r_bound { seen + looks part.now r < 2 ^ 64 }
    ensures place_value { place_reply result.place ≡ sought base part.now r }
    ensures looks_value { result.looks ≡ seen + looks part.now r }
{
    let m = part.len();
    if m == 0 {
        return absent(seen);
    }
    if at(part, 0) == r {
        return found_at(base, seen + 1);
    }
    let mid = m / 2;
    let there = at(part, mid);
    if there == r {
        return found_at(base + mid, seen + 2);
    }
    if r < there {
        return search(&part[..mid], r, base, seen + 2);
    }
    let after = mid + 1;
    search(&part[after..], r, base + after, seen + 2)
}

// The place of row r among the rows from s to below e.
fn search_between(rows: &[u32], r: usize, s: usize, e: usize) -> Found
    requires { Column rows.now (length rows.now) s e }
    ensures place_value { place_reply result.place ≡ place_in rows.now r s e }
    ensures looks_value { result.looks ≡ looks (take (e - s) (drop s rows.now)) r }
{
    search(&rows[s..e], r, s, 0)
}

// The place of row r in column c.
pub fn find_in_column(starts: &[u32], rows: &[u32], r: usize, c: usize) -> Found
    requires c_in_bounds { c + 1 < length starts.now }
    requires column { Column rows.now (length rows.now) (start starts.now c) (start starts.now (c + 1)) }
    ensures place_value { place_reply result.place ≡ place_in rows.now r (start starts.now c) (start starts.now (c + 1)) }
    ensures looks_value { result.looks ≡ looks (column_rows starts.now rows.now c) r }
{
    search_between(rows, r, at(starts, c), at(starts, c + 1))
}
