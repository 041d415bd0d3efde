//! What a part of a sum takes of a number: guesses on which nothing rests.

use crate::grid::{den_of, size_of};
use frac128::Frac;

/// A numerator and a denominator of a fraction are below it.
const LIMIT: u128 = 1 << 127;

/// More steps than Euclid's algorithm makes with such numbers.
const STEPS: u32 = 200;

/// The greatest common divisor.
fn common_divisor(a: u128, b: u128) -> u128 {
    let mut greater = a;
    let mut smaller = b;
    for _step in 0..STEPS {
        if smaller == 0 {
            break;
        }
        let rest = greater % smaller;
        greater = smaller;
        smaller = rest;
    }
    greater
}

/// A number without the primes of another.
fn without_primes(number: u128, other: u128) -> u128 {
    let mut rest = number;
    for _step in 0..STEPS {
        let common = common_divisor(rest, other);
        if common <= 1 {
            break;
        }
        rest /= common;
    }
    rest
}

/// The sum of two remainders.
fn sum_modulo(a: u128, b: u128, modulus: u128) -> u128 {
    let sum = a.saturating_add(b);
    if sum >= modulus { sum - modulus } else { sum }
}

/// The product of two remainders.
fn product_modulo(a: u128, b: u128, modulus: u128) -> u128 {
    let mut product = 0;
    let mut double = a;
    let mut left = b;
    for _bit in 0..STEPS {
        if left == 0 {
            break;
        }
        if left % 2 == 1 {
            product = sum_modulo(product, double, modulus);
        }
        double = sum_modulo(double, double, modulus);
        left /= 2;
    }
    product
}

/// The number whose product with this one leaves 1 by the modulus, by Euclid's algorithm, where there is one.
fn inverse_modulo(number: u128, modulus: u128) -> Option<u128> {
    let mut greater = modulus;
    let mut smaller = number % modulus.max(1);
    let mut last = 0;
    let mut next = 1;
    for _step in 0..STEPS {
        if smaller == 0 {
            break;
        }
        let taken = product_modulo(greater / smaller % modulus.max(1), next, modulus);
        let rest = greater % smaller;
        greater = smaller;
        smaller = rest;
        let left = sum_modulo(last, modulus.saturating_sub(taken), modulus);
        last = next;
        next = left;
    }
    if greater == 1 { Some(last) } else { None }
}

/// The fraction, and 0 where it doesn't fit.
fn fraction(num: u128, den: u128) -> Frac {
    if num >= LIMIT || den == 0 || den >= LIMIT {
        return Frac::zero();
    }
    match Frac::new(num as i128, den as i128) {
        Some(fraction) => fraction,
        None => Frac::zero(),
    }
}

/// The greatest whole number that isn't above a number.
pub(crate) fn floor_of(number: Frac) -> Frac {
    let whole = size_of(number) / den_of(number);
    if number.sign() >= 0 {
        fraction(whole, 1)
    } else if den_of(number) == 1 {
        number
    } else {
        fraction(whole.saturating_add(1), 1).neg()
    }
}

/// The fraction with one factor of a number's denominator, from which the number differs by one with the other factor.
fn partial_fraction(number: Frac, factor: u128, other: u128) -> Frac {
    let size = size_of(number) % factor.max(1);
    let rest = if number.sign() < 0 {
        sum_modulo(0, factor.saturating_sub(size), factor)
    } else {
        size
    };
    if other == 1 {
        return number;
    }
    match inverse_modulo(other, factor) {
        Some(inverse) => fraction(product_modulo(rest, inverse, factor), factor),
        None => Frac::zero(),
    }
}

/// The partial fraction of a number with the primes that a part's denominator has.
fn share_beside(part: Frac, number: Frac) -> Frac {
    let all = den_of(number);
    if den_of(part) % all == 0 {
        return number;
    }
    let other = without_primes(all, den_of(part)).max(1);
    let factor = all / other;
    if factor == 1 {
        Frac::zero()
    } else {
        partial_fraction(number, factor, other)
    }
}

/// What a part takes of a number: its partial fraction; of one that no part has the primes of, the first part that is 0 takes all.
pub(crate) fn share_of(part: Frac, number: Frac, fills: bool) -> Frac {
    match (part.is_zero(), fills) {
        (true, true) => number,
        (false, false) => share_beside(part, number),
        _ => Frac::zero(),
    }
}
