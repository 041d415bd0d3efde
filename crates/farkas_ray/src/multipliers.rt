//! Column sums and values of multipliers.
ghost use Rattle.std.specs.Prelude.{◌≡◌, ◌&&◌, not, length, true, IfOk, Decides};
ghost use Rattle.rationals.specs.Rational.{zero_ℚ};
ghost use Rattle.lp_defs.specs.Tests.{is_above_zero};
ghost use Rattle.lp_defs.specs.Certificates.{IsInfeasible};
ghost use Rattle.farkas_ray.specs.Sums.{column_from, columns_from, value_from, ray_walk};

use frac128::{Form, Frac, Passed};
use simplex_core::{Standard, is_above_zero};

/// The products of a column's entries and the multipliers, added by row.
fn column_sum(rows: &[Form], duals: &[Frac], column: u64) -> Result<Frac, Passed>
    requires { length duals.now ≡ length rows.now }
    ensures { result ≡ column_from zero_ℚ rows.now duals.now column }
{
    let mut sum = Frac::zero();
    for row in 0..rows.len() {
        sum = sum.add_product(rows[row].get(column), duals[row])?;
    }
    Ok(sum)
}

fn is_still_good(is_good: bool, sum: Frac) -> bool
    ensures { result ≡ is_good && not (is_above_zero sum) }
{
    is_good && !is_above_zero(sum)
}

/// Whether no column sum is above 0; all are computed, in order.
fn has_good_sums(rows: &[Form], duals: &[Frac], columns: u64) -> Result<bool, Passed>
    requires { length duals.now ≡ length rows.now }
    ensures { result ≡ columns_from rows.now duals.now 0 columns true }
{
    let mut is_good = true;
    for column in 0..columns {
        let sum = column_sum(rows, duals, column)?;
        is_good = is_still_good(is_good, sum);
    }
    Ok(is_good)
}

/// The products of the multipliers and the right sides, added by row.
fn value(duals: &[Frac], right: &[Frac]) -> Result<Frac, Passed>
    requires { length duals.now ≡ length right.now }
    ensures { result ≡ value_from zero_ℚ duals.now right.now }
{
    let mut sum = Frac::zero();
    for row in 0..duals.len() {
        sum = sum.add_product(duals[row], right[row])?;
    }
    Ok(sum)
}

/// Whether no column sum of the multipliers is above 0 and their value is: no point meets all rows then (Farkas'
/// lemma).
///
/// The steps are those of the column sums, by column and then by row, each the sum so far and an entry times a
/// multiplier, and then those of the value, by row, each the value so far and a multiplier times a right side.
/// The first of them that passes 128 bits ends the call.
pub fn is_ray(program: &Standard, duals: &[Frac]) -> Result<bool, Passed>
    requires { length duals.now ≡ length program.now.rows }
    ensures exact { result ≡ ray_walk program.now duals.now }
    ensures certified { IfOk result (λ is_shown. Decides is_shown (IsInfeasible program.now duals.now)) }
{
    let has_good_sums = has_good_sums(program.rows(), duals, program.columns())?;
    let value = value(duals, program.right())?;
    Ok(has_good_sums && is_above_zero(value))
}
