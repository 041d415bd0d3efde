//! Numbers over powers of ten, near others.
ghost use Rattle.std.specs.Prelude.{◌≡◌, ◌<◌, IfSome};
ghost use Rattle.rounded_sums.specs.Sides.{Beside};

use crate::side::{Side, is_beside};
use frac128::Frac;

/// No numerator and no denominator of a rounded number is much greater.
pub(crate) const MOST: u128 = 1_000_000_000_000_000_000_000_000_000_000_000_000;

/// A denominator from which on both parts are shortened by four bits, so that ten times a rest fits.
const LONG: u128 = 1 << 124;

/// A whole number over a power of ten.
#[derive(Clone, Copy)]
struct Near {
    number: u128,
    scale: u128,
}

/// The size of a number's numerator.
pub(crate) fn size_of(exact: Frac) -> u128 {
    exact.num().unsigned_abs()
}

/// A number's denominator, at least 1.
pub(crate) fn den_of(exact: Frac) -> u128
    ensures { 0 < result }
{
    exact.den().unsigned_abs().max(1)
}

/// A number with so many places behind its point, near a quotient; none where it is long. Nothing rests on how near it is.
fn quotient_near(num: u128, den: u128, places: u32) -> Option<Near> {
    let (num, den) = if den < LONG {
        (num, den.max(1))
    } else {
        (num / 16, (den / 16).max(1))
    };
    let mut number = num / den;
    let mut rest = num % den;
    let mut scale: u128 = 1;
    for _place in 0..places {
        let ten = rest.saturating_mul(10);
        number = number.saturating_mul(10).saturating_add(ten / den);
        rest = ten % den;
        scale = scale.saturating_mul(10);
        if number > MOST || scale > MOST {
            return None;
        }
    }
    Some(Near { number, scale })
}

/// The fraction of that sign, where it fits.
fn fraction(is_negative: bool, number: u128, scale: u128) -> Option<Frac> {
    if number > 2 * MOST || scale == 0 || scale > MOST {
        return None;
    }
    let size = number as i128;
    let signed = if is_negative { -size } else { size };
    Frac::new(signed, scale as i128)
}

/// The fraction, where it stands on the side.
fn tested(side: Side, exact: Frac, found: Option<Frac>) -> Option<Frac>
    ensures { IfSome result (Beside side exact) }
{
    match found {
        Some(rounded) => {
            if is_beside(side, exact, rounded) {
                Some(rounded)
            } else {
                None
            }
        }
        None => None,
    }
}

/// Whether the side is that which is farther from 0.
fn is_away(side: Side, is_negative: bool) -> bool {
    match side {
        Side::Above => !is_negative,
        Side::Below => is_negative,
    }
}

/// A number with so many places behind its point, on a side of another: the first of a few near ones that is found to stand there.
pub(crate) fn at_grid(side: Side, exact: Frac, places: u32) -> Option<Frac>
    ensures { IfSome result (Beside side exact) }
{
    let is_negative = exact.sign() < 0;
    let is_away = is_away(side, is_negative);
    match quotient_near(size_of(exact), den_of(exact), places) {
        Some(near) => {
            for turn in 0..3u32 {
                let more = turn as u128;
                let number = if is_away {
                    near.number.saturating_add(more)
                } else {
                    near.number.saturating_sub(more)
                };
                if let Some(rounded) = tested(
                    side,
                    exact,
                    fraction(is_negative, number, near.scale),
                ) {
                    return Some(rounded);
                }
            }
            None
        }
        None => None,
    }
}

/// So many places behind the point as leave the numerator and the power of ten below these numbers; 36 at most.
pub(crate) fn places_within(exact: Frac, most_num: u128, most_den: u128) -> u32 {
    let mut size = (size_of(exact) / den_of(exact)).saturating_add(1);
    let mut scale: u128 = 1;
    for place in 0..36u32 {
        size = size.saturating_mul(10);
        scale = scale.saturating_mul(10);
        if size > most_num || scale > most_den {
            return place;
        }
    }
    36
}
