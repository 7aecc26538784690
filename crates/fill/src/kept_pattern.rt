// Whether a marked set of pairs is the factor's pattern, its diagonals and its kept entries, after `closure_is_cholesky_factor_pattern` of uncertainty.rs.
ghost use Rattle.std.specs.Prelude.{◌≡◌, ◌≤◌, ◌<◌, length};
ghost use Rattle.refusal.specs.Bounds.{max_dimension};
ghost use Rattle.lists.specs.Test.{any_in};
ghost use Rattle.pairs.specs.Scratch.{queue_start};
ghost use Rattle.pairs.specs.ColumnOrder.{column_marking};
ghost use Rattle.columns.specs.Kept.{nonzero};
ghost use Rattle.columns.specs.Form.{pattern_pair};
ghost use Rattle.fill.specs.Agree.{same_pairs};
ghost use Rattle.fill.specs.KeptPattern.{ChoiceInput, ChoiceColumnInput, unmarked_entry, unmarked_at, unmarked_between};

use pair_places::column_place;
use words::at;
use words::bit_words::bit;

// Whether an entry of column c, with row r and value l, is kept and its pair not marked.
fn unmarked_entry(n: usize, c: usize, r: usize, l: f64, scratch: &[u32]) -> bool
    requires { (n ≤ max_dimension) × (r < n) × (queue_start n ≤ length scratch.now) }
    ensures { result ≡ unmarked_entry n scratch.now c r l }
{
    if r < c {
        return false;
    }
    if l == 0.0 {
        return false;
    }
    !bit(scratch, column_place(n, r, c))
}

// Whether some entry of column c, stored from s to e, is kept and its pair not marked.
fn unmarked_column(
    n: usize,
    c: usize,
    rows: &[u32],
    values: &[f64],
    s: usize,
    e: usize,
    scratch: &[u32],
) -> bool
    requires { ChoiceColumnInput n rows.now (length values.now) s e (length scratch.now) }
    ensures { result ≡ any_in (unmarked_at n scratch.now rows.now values.now c) s e }
{
    for p in s..e {
        if unmarked_entry(n, c, at(rows, p), values[p], scratch) {
            return true;
        }
    }
    false
}

// Whether the diagonal of column c, or some entry of it that is stored from s to e and kept, is not marked.
fn unmarked_pattern(
    n: usize,
    c: usize,
    rows: &[u32],
    values: &[f64],
    s: usize,
    e: usize,
    scratch: &[u32],
) -> bool
    requires { ChoiceColumnInput n rows.now (length values.now) s e (length scratch.now) × (c < n) }
    ensures { result ≡ unmarked_between n scratch.now rows.now values.now c s e }
{
    if !bit(scratch, column_place(n, c, c)) {
        return true;
    }
    unmarked_column(n, c, rows, values, s, e, scratch)
}

// Whether the marked set is the pattern: as many pairs, and every diagonal and every kept entry marked.
pub fn closure_is_cholesky_factor_pattern(
    n: usize,
    starts: &[u32],
    rows: &[u32],
    values: &[f64],
    factor_pairs: usize,
    closure_pairs: usize,
    scratch: &[u32],
) -> bool
    requires { ChoiceInput n starts.now rows.now values.now factor_pairs closure_pairs scratch.now }
    ensures { result ≡ same_pairs n (column_marking n scratch.now)
        (pattern_pair starts.now rows.now (nonzero values.now)) }
{
    if closure_pairs != factor_pairs {
        return false;
    }
    for c in 0..n {
        if unmarked_pattern(
            n,
            c,
            rows,
            values,
            at(starts, c),
            at(starts, c + 1),
            scratch,
        ) {
            return false;
        }
    }
    true
}
