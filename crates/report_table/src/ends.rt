//! The expected cost, as far as the ends of a report say it.
use decimals::Decimal;
use frac128::{Frac, Memory};
use scen_defs::Report;
use std::alloc::Global;

/// The least number of 13 digits.
const BEYOND: u64 = 1_000_000_000_000;

/// So many digits at least are shared where the ends lie near each other.
const LEAST_SHARED: u32 = 3;

/// What the ends of a report say of the expected cost.
#[derive(Clone, Copy, Debug)]
pub enum ExpectedCost {
    /// Both ends are this number.
    Known(Frac),
    /// Both ends come to this decimal, rounded to the most digits of which that holds.
    Shared(Decimal),
    /// An end is none, or they lie apart.
    Apart,
}

/// Ten to that power, 10^11 at most.
fn ten_to(power: u32) -> u64 {
    let mut number: u64 = 1;
    for place in 0..11u32 {
        if place < power {
            number = number.saturating_mul(10);
        }
    }
    number
}

/// A decimal rounded to so many digits, half away from 0.
fn rounded(value: Decimal, digits: u32) -> Decimal {
    let unit = ten_to(12u32.saturating_sub(digits)).max(1);
    let units = value.digits.saturating_add(unit / 2) / unit;
    let all = units.saturating_mul(unit);
    if all < BEYOND {
        return Decimal {
            digits: all,
            ..value
        };
    }
    Decimal {
        digits: all / 10,
        up: value.up.saturating_add(1),
        ..value
    }
}

/// The power of ten that the last digit of a decimal counts.
fn power(value: Decimal) -> i64 {
    i64::from(value.up).saturating_sub(i64::from(value.down))
}

/// Whether two decimals are the same number.
fn are_same(a: Decimal, b: Decimal) -> bool {
    a.is_negative == b.is_negative && a.digits == b.digits && power(a) == power(b)
}

/// The decimal that both come to with the most digits, at least three.
fn shared(a: Decimal, b: Decimal) -> Option<Decimal> {
    for less in 0..12u32 {
        let digits = 12u32.saturating_sub(less);
        let short = rounded(a, digits);
        if digits >= LEAST_SHARED && are_same(short, rounded(b, digits)) {
            return Some(short);
        }
    }
    None
}

/// What the ends of a report say of the expected cost.
pub fn expected_cost(report: &Report) -> ExpectedCost {
    let (Some(lower), Some(upper)) = (report.lower, report.upper) else {
        return ExpectedCost::Apart;
    };
    if lower == upper {
        return ExpectedCost::Known(upper);
    }
    match shared(Decimal::of(lower), Decimal::of(upper)) {
        Some(decimal) => ExpectedCost::Shared(decimal),
        None => ExpectedCost::Apart,
    }
}

/// A decimal as a text.
pub fn shared_text(alloc: Global, decimal: Decimal) -> Result<Vec<u8>, Memory> {
    let mut text = Vec::new(alloc);
    decimal.print(alloc, &mut text)?;
    Ok(text)
}
