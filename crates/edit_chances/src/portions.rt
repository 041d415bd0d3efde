// Probabilities over a denominator that they share.
ghost use Rattle.std.specs.Prelude.{◌≡◌, ◌<◌, pos, true, IfSome};
ghost use Rattle.rationals.specs.Rational.{◌÷◌};
ghost use Rattle.scen_defs.specs.Program.{scenarios_content};
ghost use Rattle.edit_chances.specs.Portions.{FitsAllTrees, HavePortions};

use frac128::Frac;
use scen_defs::Scenario;

/// Numbers below this have at most `i128::MAX`.
const BOUND: u128 = 1 << 127;

/// A multiple of two numbers.
fn multiple(one: i128, other: i128) -> Option<i128> {
    if one == other || other == 0 {
        return Some(one);
    }
    Frac::new(one, other)?.num().checked_mul(other)
}

/// A multiple of all denominators.
fn common_denominator(scenarios: &[Scenario]) -> Option<u128> {
    let mut common: i128 = 1;
    for scenario in scenarios {
        common = multiple(common, scenario.probability.den())?;
    }
    Some(common.unsigned_abs())
}

/// The numerator, where it isn't negative.
fn numerator(probability: Frac) -> Option<u128>
    ensures { IfSome result (λ num. probability.num ≡ pos num) }
{
    match u128::try_from(probability.num()) {
        Ok(num) => Some(num),
        Err(_) => None,
    }
}

fn denominator(probability: Frac) -> u128
    ensures { result ≡ probability.den }
{
    probability.den() as u128
}

/// How many portions of 1 / `common` a probability is, where they are whole.
fn portions_of(probability: Frac, common: u128) -> Option<u128>
    requires { 0 < common }
    ensures { IfSome result (λ portions. probability ≡ pos portions ÷ common) }
{
    let den = denominator(probability);
    if common % den != 0 {
        return None;
    }
    let times = common / den;
    let portions = numerator(probability)?.checked_mul(times)?;
    Some(portions)
}

/// How many portions of 1 / `common` all probabilities are together.
fn all_portions(scenarios: &[Scenario], common: u128) -> Option<u128>
    requires { 0 < common }
    ensures { IfSome result (λ all. HavePortions common all (scenarios_content scenarios.now)) }
{
    let mut all: u128 = 0;
    for scenario in scenarios {
        let own = portions_of(scenario.probability, common)?;
        all = all.checked_add(own)?;
    }
    Some(all)
}

/// Whether it is seen without the sums themselves that no total and no share passes, wherever nodes stand: as portions of one
/// denominator the probabilities have a sum of at most `i128::MAX`, and so has each part of them.
pub fn fits_all_trees(scenarios: &[Scenario]) -> bool
    ensures { result ≡ true → FitsAllTrees (scenarios_content scenarios.now) }
{
    let Some(common) = common_denominator(scenarios) else {
        return false;
    };
    if common == 0 || common >= BOUND {
        return false;
    }
    match all_portions(scenarios, common) {
        Some(all) => all < BOUND,
        None => false,
    }
}
