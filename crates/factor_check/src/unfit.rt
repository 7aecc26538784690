// Kept entries that a factor may not have, whatever the type of its values: which values these are is told by the type.
ghost use Rattle.std.specs.Prelude.{◌≡◌, ◌≤◌, ◌&&◌, ℕ, Bool, true, List, length};
ghost use Rattle.lists.specs.Test.{any, any_in};
ghost use Rattle.columns.specs.Factor.{Factor, Column};
ghost use Rattle.columns.specs.Kept.{kept};
ghost use Rattle.factor_check.specs.Unfit.{unfit_column};

use kept_entries::diagonal::first_from;
use kept_entries::stored::StoredValue;
use words::at;

pub trait CheckedValue: StoredValue {
    // Whether the value at a place of a list may not be kept.
    ghost unfit: { List Self → ℕ → Bool };

    fn unfit_between(values: &[Self], s: usize, e: usize) -> bool
        requires { (s ≤ e) × (e ≤ length values.now) }
        ensures { result ≡ any_in (unfit values.now) s e };

    // Such a value is not 0.
    ghost unfit_kept: { (values : List Self) (p : ℕ) → unfit values p ≡ true → Self.kept values p ≡ true };
}

// Whether an entry from s to e is kept in column c and unfit.
// Rows ascend, so none is above the diagonal from the first place on whose row is c or more; what is unfit is not 0.
fn column_unfit<T: CheckedValue>(c: usize, rows: &[u32], values: &[T], s: usize, e: usize) -> bool
    requires { Column rows.now (length values.now) s e }
    ensures { result ≡ any_in (λ p. kept rows.now (T.kept values.now) c p && T.unfit values.now p) s e }
{
    let first = first_from(c, rows, s, e);
    T::unfit_between(values, first, e)
}

// Whether one of the first n columns has such an entry.
fn columns_unfit<T: CheckedValue>(n: usize, starts: &[u32], rows: &[u32], values: &[T]) -> bool
    requires { Factor n starts.now rows.now (length values.now) }
    ensures { result ≡ any (unfit_column starts.now rows.now (T.kept values.now) (T.unfit values.now)) n }
{
    for c in 0..n {
        if column_unfit(c, rows, values, at(starts, c), at(starts, c + 1)) {
            return true;
        }
    }
    false
}

// Whether a kept entry is unfit. Where no value is, one look at them decides; the columns are looked at only where one is.
pub fn kept_unfit<T: CheckedValue>(n: usize, starts: &[u32], rows: &[u32], values: &[T]) -> bool
    requires { Factor n starts.now rows.now (length values.now) }
    ensures { result ≡ any (unfit_column starts.now rows.now (T.kept values.now) (T.unfit values.now)) n }
{
    if !T::unfit_between(values, 0, values.len()) {
        return false;
    }
    columns_unfit(n, starts, rows, values)
}
