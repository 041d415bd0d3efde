//! Steps: a product that is at once added to a number, rounded where that doesn't fit.
ghost use Rattle.std.specs.Prelude.{◌≡◌, IfSome, Ok, Some};
ghost use Rattle.rationals.specs.Rational.{ℚ, ◌+ℚ◌, ◌*ℚ◌};
ghost use Rattle.rationals.specs.Passes.{add_product_walk};
ghost use Rattle.rounded_sums.specs.Sides.{Beside, factor_side};

use crate::grid::{MOST, at_grid, den_of, places_within, size_of};
use crate::side::{Side, factor_side};
use frac128::Frac;

/// What a product of two numbers may have: a little less than 128 bits.
const ROOM: u128 = 100_000_000_000_000_000_000_000_000_000_000_000_000;

/// A factor of so many parts stays as it is.
const SHORT: u128 = 1_000_000_000_000_000_000;

/// An end is told with so many places behind its point.
const PLACES: u32 = 15;

/// The denominators of so many places.
const TOLD: u128 = 1_000_000_000_000_000;

/// The side on which a factor is rounded, so that its product with another number stands on this side.
pub fn side_of_factor(side: Side, other: Frac) -> Side
    ensures { result ≡ factor_side side other }
{
    factor_side(side, other)
}

/// Whether a number is shorter than half of 128 bits.
fn is_short(number: Frac) -> bool {
    size_of(number) <= SHORT && den_of(number) <= SHORT
}

/// A number that is short, on a side of another.
fn shortened(side: Side, exact: Frac) -> Option<Frac>
    ensures { IfSome result (Beside side exact) }
{
    if is_short(exact) {
        Some(exact)
    } else {
        at_grid(side, exact, places_within(exact, SHORT, SHORT))
    }
}

/// The product, where it fits.
pub(crate) fn exact_product(a: Frac, b: Frac) -> Option<Frac>
    ensures { IfSome result (λ product. product ≡ a *ℚ b) }
{
    match a.mul(b) {
        Ok(product) => Some(product),
        Err(_) => None,
    }
}

/// The sum, where it fits.
pub(crate) fn exact_sum(a: Frac, b: Frac) -> Option<Frac>
    ensures { IfSome result (λ sum. sum ≡ a +ℚ b) }
{
    match a.add(b) {
        Ok(sum) => Some(sum),
        Err(_) => None,
    }
}

/// The product of a number and a short one, where the first is rounded to a side.
#[tactic(auto, using(crate::proofs::SideLemmas::product_beside))]
fn times_short(side: Side, long: Frac, short: Frac) -> Option<Frac>
    ensures { IfSome result (Beside side (long *ℚ short)) }
{
    let most_num = ROOM / size_of(short).max(1);
    let most_den = ROOM / den_of(short);
    let places = places_within(long, most_num, most_den);
    match at_grid(factor_side(side, short), long, places) {
        Some(rounded) => exact_product(rounded, short),
        None => None,
    }
}

/// The product of two numbers, both rounded.
#[tactic(auto, using(crate::proofs::SideLemmas::then_product))]
fn shortened_product(side: Side, long: Frac, short: Frac) -> Option<Frac>
    ensures { IfSome result (Beside side (long *ℚ short)) }
{
    match shortened(factor_side(side, long), short) {
        Some(short) => times_short(side, long, short),
        None => None,
    }
}

/// The product of two numbers, rounded where it doesn't fit.
#[tactic(auto, using(crate::proofs::SideLemmas::commuted))]
fn product(side: Side, a: Frac, b: Frac) -> Option<Frac>
    ensures { IfSome result (Beside side (a *ℚ b)) }
{
    match a.mul(b) {
        Ok(product) => Some(product),
        Err(_) => {
            if is_short(a) {
                shortened_product(side, b, a)
            } else {
                shortened_product(side, a, b)
            }
        }
    }
}

/// The sum of two numbers that are rounded.
#[tactic(auto, using(crate::proofs::SideLemmas::sum_beside))]
pub(crate) fn rounded_sum(side: Side, a: Frac, b: Frac) -> Option<Frac>
    ensures { IfSome result (Beside side (a +ℚ b)) }
{
    let places = places_within(a, MOST, MOST).min(places_within(b, MOST, MOST));
    match at_grid(side, a, places) {
        Some(first) => match at_grid(side, b, places) {
            Some(second) => exact_sum(first, second),
            None => None,
        },
        None => None,
    }
}

/// The sum of two numbers, rounded where it doesn't fit.
fn sum(side: Side, a: Frac, b: Frac) -> Option<Frac>
    ensures { IfSome result (Beside side (a +ℚ b)) }
{
    match a.add(b) {
        Ok(sum) => Some(sum),
        Err(_) => rounded_sum(side, a, b),
    }
}

/// The number and a product, rounded.
#[tactic(auto, using(crate::proofs::SideLemmas::then_sum))]
fn rounded_step(side: Side, from: Frac, factor: Frac, times: Frac) -> Option<Frac>
    ensures { IfSome result (Beside side (from +ℚ factor *ℚ times)) }
{
    match product(side, factor, times) {
        Some(product) => sum(side, from, product),
        None => None,
    }
}

/// The number and the product of two others, added: exactly where that fits, else rounded to a side. None where even that doesn't fit.
pub fn add_product(side: Side, from: Frac, factor: Frac, times: Frac) -> Option<Frac>
    ensures beside { IfSome result (Beside side (from +ℚ factor *ℚ times)) }
    ensures exact { (sum : ℚ) → add_product_walk from factor times ≡ Ok sum → result ≡ Some sum }
{
    match from.add_product(factor, times) {
        Ok(sum) => Some(sum),
        Err(_) => rounded_step(side, from, factor, times),
    }
}

/// An end as it is told: with fifteen places behind its point, where its denominator is longer and that fits.
pub(crate) fn shown_end(side: Side, end: Frac) -> Frac
    ensures { Beside side end result }
{
    if den_of(end) <= TOLD {
        return end;
    }
    match at_grid(side, end, PLACES) {
        Some(rounded) => rounded,
        None => end,
    }
}
