//! Numbers from 0 to 1 as lengths.
use decimals::Decimal;
use frac128::Frac;
use report_values::Amount;

/// Ten to that power, 10^12 at most.
fn ten_to(power: i64) -> u64 {
    let mut number: u64 = 1;
    for place in 0..12i64 {
        if place < power {
            number = number.saturating_mul(10);
        }
    }
    number
}

/// A number from 0 to 1, in parts of ten thousand.
pub(crate) fn parts(value: Frac) -> u64 {
    let decimal = Decimal::of(value);
    if decimal.is_negative || decimal.digits == 0 {
        return 0;
    }
    let power = i64::from(decimal.up) - i64::from(decimal.down) + 11;
    let by = ten_to(7 - power);
    if by == 0 {
        return 0;
    }
    (decimal.digits / by).min(10_000)
}

/// How far a number stands between two others, in parts of ten thousand; half way where that isn't known.
pub(crate) fn between(value: &Amount, least: &Amount, most: &Amount) -> u64 {
    let (Some(part), Some(whole)) = (value.less(least).known(), most.less(least).known()) else {
        return 5_000;
    };
    if whole.is_zero() {
        return 5_000;
    }
    match part.div(whole) {
        Ok(share) => parts(share),
        Err(_) => 5_000,
    }
}
