// The faults of the pairs of listed cells: 2 where one is absent, 1 where an entry is beyond a size, else 0.
ghost use Rattle.std.specs.Prelude.{◌≡◌, ◌<◌, ◌≤◌, [], ◌∷◌, leb, ltb, nat_abs, length};
ghost use Rattle.lists.specs.Sum.{bit};
ghost use Rattle.refusal.specs.Steps.{verdict};
ghost use Rattle.refusal.specs.Refusal.{reply_of};
ghost use Rattle.columns.specs.WholeFactor.{whole_value};
ghost use Rattle.result.specs.Lookup.{WellFormed};
ghost use Rattle.whole_pairs.specs.Entry.{pair_fault, cell_fault};
ghost use Rattle.whole_pairs.specs.Worst.{worst_in};

use column_search::within::pair_place_within;
use refusal::Refusal;
use whole_steps::{size, whole_at};
use words::at;

// 1 where the number at p is beyond `most` in size, else 0.
fn size_fault(values: &[i64], p: usize, most: usize) -> usize
    requires { p < length values.now }
    ensures { result ≡ bit (ltb most (nat_abs (whole_value values.now p))) }
{
    if most < size(whole_at(values, p)) {
        return 1;
    }
    0
}

// The fault of one pair.
fn pair_fault(
    starts: &[u32],
    rows: &[u32],
    values: &[i64],
    row: usize,
    col: usize,
    most: usize,
) -> usize
    requires { WellFormed starts.now rows.now (length values.now) }
    ensures { result ≡ pair_fault most starts.now rows.now values.now row col }
{
    match pair_place_within(starts, rows, values.len(), row, col) {
        Ok(p) => size_fault(values, p, most),
        Err(_) => 2,
    }
}

// The worst fault of the cell at place p with the cells at the places from s to below e.
pub fn line_fault(
    starts: &[u32],
    rows: &[u32],
    values: &[i64],
    cells: &[u32],
    p: usize,
    s: usize,
    e: usize,
    most: usize,
) -> usize
    requires well_formed { WellFormed starts.now rows.now (length values.now) }
    requires p_in_bounds { (p < length cells.now) × (s ≤ e) × (e ≤ length cells.now) }
    ensures { result ≡ worst_in (cell_fault most starts.now rows.now values.now cells.now p) s e }
{
    let row = at(cells, p);
    let mut worst: usize = 0;
    for q in s..e {
        worst = worst.max(pair_fault(starts, rows, values, row, at(cells, q), most));
    }
    worst
}

// Steps 8 and 20 of the worst fault.
pub fn fault_verdict(worst: usize) -> Result<(), Refusal>
    ensures { reply_of result ≡ verdict ((8, leb 2 worst) ∷ (20, leb 1 worst) ∷ []) }
{
    if 2 <= worst {
        return Err(Refusal::NotCovered);
    }
    if 1 <= worst {
        return Err(Refusal::NumberTooLarge);
    }
    Ok(())
}
