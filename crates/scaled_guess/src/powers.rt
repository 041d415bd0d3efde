//! Powers of 2.

/// Farther from 0 no exponent is taken.
const MOST: i32 = 900;

/// The exponent of the greatest power of 2 that a size isn't below; 0 for 0.
pub(crate) fn exponent_of(size: f64) -> i32 {
    let mut left = size;
    let mut exponent: i32 = 0;
    for _turn in 0..100 {
        if left >= 65536.0 {
            left /= 65536.0;
            exponent = exponent.saturating_add(16);
        } else if left > 0.0 && left < 1.0 {
            left *= 65536.0;
            exponent = exponent.saturating_sub(16);
        } else {
            break;
        }
    }
    for _turn in 0..16 {
        if left >= 2.0 {
            left /= 2.0;
            exponent = exponent.saturating_add(1);
        }
    }
    exponent
}

/// 2 to this exponent.
pub(crate) fn power(exponent: i32) -> f64 {
    let base = if exponent < 0 { 0.5 } else { 2.0 };
    let turns = exponent.unsigned_abs().min(MOST as u32);
    let mut product = 1.0;
    for _turn in 0..turns {
        product *= base;
    }
    product
}
