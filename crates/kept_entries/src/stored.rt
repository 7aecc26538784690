// Values that a factor can store, and which of a list of them are not 0, and which are 1: what reads positions alone needs no more of them.
ghost use Rattle.std.specs.Prelude.{◌≡◌, ◌<◌, ℕ, Bool, List, length};
ghost use Rattle.columns.specs.Kept.{nonzero, kept_below};
ghost use Rattle.columns.specs.Pivots.{float_one};
ghost use Rattle.columns.specs.WholeFactor.{whole_nonzero, whole_one};

use whole_steps::{is_one, whole_at};
use words::at;

pub trait StoredValue: Copy {
    // Whether the value at a place of a list is not 0.
    ghost kept: { List Self → ℕ → Bool };

    // Whether it is 1.
    ghost one: { List Self → ℕ → Bool };

    fn is_kept(values: &[Self], p: usize) -> bool
        requires { p < length values.now }
        ensures { result ≡ kept values.now p };

    fn is_one(values: &[Self], p: usize) -> bool
        requires { p < length values.now }
        ensures { result ≡ one values.now p };
}

impl StoredValue for f64 {
    ghost kept = { nonzero };

    ghost one = { float_one };

    fn is_kept(values: &[f64], p: usize) -> bool {
        values[p] != 0.0
    }

    fn is_one(values: &[f64], p: usize) -> bool {
        values[p] == 1.0
    }
}

impl StoredValue for i64 {
    ghost kept = { whole_nonzero };

    ghost one = { whole_one };

    fn is_kept(values: &[i64], p: usize) -> bool {
        values[p] != 0
    }

    fn is_one(values: &[i64], p: usize) -> bool {
        is_one(whole_at(values, p))
    }
}

// Whether the entry at q is kept below the diagonal of column c.
pub fn kept_below<T: StoredValue>(c: usize, q: usize, rows: &[u32], values: &[T]) -> bool
    requires { (q < length rows.now) × (q < length values.now) }
    ensures { result ≡ kept_below rows.now (T.kept values.now) c q }
{
    if at(rows, q) <= c {
        return false;
    }
    T::is_kept(values, q)
}
