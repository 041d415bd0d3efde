// Tests of numbers, and the end of an interval that a multiplier uses.
ghost use Rattle.std.specs.Prelude.{◌≡◌, slice_index_or};
ghost use Rattle.rationals.specs.Rational.{at_most, zero_ℚ};
ghost use Rattle.scen_defs.specs.Ends.{used_end};
ghost use Rattle.scen_model.specs.Walks.{worth_step};

use crate::stop::Stop;
use frac128::Frac;

pub(crate) fn is_at_most(a: Frac, b: Frac) -> bool
    ensures { result ≡ at_most a b }
{
    a <= b
}

/// The number at a place, 0 where there is none.
pub fn number_at(numbers: &[Frac], place: usize) -> Frac
    ensures { result ≡ slice_index_or numbers.now place zero_ℚ }
{
    if place < numbers.len() {
        numbers[place]
    } else {
        Frac::zero()
    }
}

/// The low end for a multiplier above 0, the high end below 0, and 0 for 0.
fn used_end(low: Option<Frac>, high: Option<Frac>, multiplier: Frac) -> Option<Frac>
    ensures { result ≡ used_end low high multiplier }
{
    let zero = Frac::zero();
    if !is_at_most(multiplier, zero) {
        low
    } else if !is_at_most(zero, multiplier) {
        high
    } else {
        Some(zero)
    }
}

/// The sum, and a multiplier times the end that it uses.
pub(crate) fn add_worth(
    low: Option<Frac>,
    high: Option<Frac>,
    multiplier: Frac,
    sum: Frac,
) -> Result<Frac, Stop>
    ensures { result ≡ worth_step low high multiplier sum }
{
    match used_end(low, high, multiplier) {
        None => Err(Stop::Decided),
        Some(end) => {
            let next = sum.add_product(multiplier, end)?;
            Ok(next)
        }
    }
}
