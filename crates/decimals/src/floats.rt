//! Floats of exact numbers.

use frac128::Frac;
use std::num::nearest_u64_to_f64;

/// 2^64.
const BASE: u128 = 0x1_0000_0000_0000_0000;

/// A natural number, rounded.
fn natural(n: u128) -> f64 {
    let low = nearest_u64_to_f64((n % BASE) as u64);
    if n < BASE {
        return low;
    }
    let high = nearest_u64_to_f64((n / BASE) as u64);
    high * 18446744073709551616.0 + low
}

/// A fraction, rounded.
pub fn float(value: Frac) -> f64 {
    let size = natural(value.num().unsigned_abs()) / natural(value.den().unsigned_abs());
    if value.sign() < 0 { -size } else { size }
}

/// The difference of two fractions, rounded.
pub fn float_difference(a: Frac, b: Frac) -> f64 {
    match a.sub(b) {
        Ok(rest) => float(rest),
        Err(_) => float(a) - float(b),
    }
}
