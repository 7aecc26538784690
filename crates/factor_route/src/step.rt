// The last step of a column of the factor-pattern route: the column's own part of the values, from its weights and sums.
ghost use Rattle.std.specs.Prelude.{◌≡◌, ◌+◌, ◌-◌, ◌<◌, ◌≤◌, length, take, drop};
ghost use Rattle.std.specs.Float.{nan};
ghost use Rattle.refusal.specs.Bounds.{max_dimension};
ghost use Rattle.lists.specs.Overwrite.{splice};
ghost use Rattle.exact.specs.Exact.{floats};
ghost use Rattle.exact.specs.PivotCase.{step_below, step_on};
ghost use Rattle.last_steps.specs.DivisorParts.{is_pivot, number};
ghost use Rattle.scatter.specs.Scatter.{steps, step_sum, stepped};

use last_steps::{Divisor, entry_below, entry_on_diagonal};
use refusal::MAX_DIMENSION;

// The m values below the diagonal; returns the diagonal's sum.
fn column_below(
    part: &mut [f64],
    weights: &[f64; MAX_DIMENSION],
    sums: &[f64; MAX_DIMENSION],
    divisor: Divisor,
    m: usize,
) -> f64
    requires { (m < length part.old) × (m ≤ max_dimension) }
    ensures value { result ≡ step_sum floats (step_below (is_pivot divisor)) (step_on (is_pivot divisor)) nan (number divisor) weights.now sums.now m }
    ensures part_after { part.new ≡ steps floats (step_below (is_pivot divisor)) (step_on (is_pivot divisor)) nan (number divisor) sums.now part.old m }
{
    let mut sum = 0.0;
    for p in 0..m {
        let z = entry_below(divisor, sums[p]);
        part[p + 1] = z;
        sum = sum + weights[p] * z;
    }
    sum
}

// The whole part, the diagonal last.
fn column_step(
    part: &mut [f64],
    weights: &[f64; MAX_DIMENSION],
    sums: &[f64; MAX_DIMENSION],
    divisor: Divisor,
    m: usize,
)
    requires { (m < length part.old) × (m ≤ max_dimension) }
    ensures { part.new ≡ stepped floats (step_below (is_pivot divisor)) (step_on (is_pivot divisor)) nan (number divisor) weights.now sums.now part.old m }
{
    let sum = column_below(part, weights, sums, divisor, m);
    part[0] = entry_on_diagonal(divisor, sum);
}

// Lends the column's part of the values, from a to e, to the column step.
pub fn write_column(
    values: &mut [f64],
    a: usize,
    e: usize,
    weights: &[f64; MAX_DIMENSION],
    sums: &[f64; MAX_DIMENSION],
    divisor: Divisor,
    m: usize,
)
    requires { (a + m < e) × (e ≤ length values.old) × (m ≤ max_dimension) }
    ensures { values.new ≡ splice a (stepped floats (step_below (is_pivot divisor)) (step_on (is_pivot divisor)) nan (number divisor) weights.now sums.now
        (take (e - a) (drop a values.old)) m) values.old }
{
    column_step(&mut values[a..e], weights, sums, divisor, m);
}
