// The last steps of an entry, with S or S' its sum. Of L.Lᵀ, d the diagonal of the factor's column: below the diagonal −S/d, on it 1/(d·d) − S'/d.
// Of L.D.Lᵀ, d the column's pivot: −S, and 1/d − S'.
#![tactic(auto)]

ghost use Rattle.std.specs.Prelude.{◌≡◌};
ghost use Rattle.exact.specs.PivotCase.{step_below, step_on};
ghost use Rattle.last_steps.specs.DivisorParts.{is_pivot, number};

// What the entries of a column are finished with: of L.Lᵀ the diagonal of the factor's column, of L.D.Lᵀ the column's pivot.
#[derive(Clone, Copy)]
pub enum Divisor {
    Diagonal(f64),
    Pivot(f64),
}

// An entry below the diagonal.
pub fn entry_below(divisor: Divisor, sum: f64) -> f64
    ensures { result ≡ step_below (is_pivot divisor) (number divisor) sum }
{
    match divisor {
        Divisor::Diagonal(d) => -sum / d,
        Divisor::Pivot(_) => -sum,
    }
}

// The entry on the diagonal.
pub fn entry_on_diagonal(divisor: Divisor, sum: f64) -> f64
    ensures { result ≡ step_on (is_pivot divisor) (number divisor) sum }
{
    match divisor {
        Divisor::Diagonal(d) => 1.0 / (d * d) - sum / d,
        Divisor::Pivot(d) => 1.0 / d - sum,
    }
}
