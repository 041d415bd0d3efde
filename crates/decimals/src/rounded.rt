//! Decimals of 12 significant digits.
ghost use Rattle.std.specs.Prelude.{◌≡◌, ◌≢◌, ◌≤◌, ◌<◌, ◌↔◌, ◌<ℤ◌, ℕ, IsTrue, false, pos, unsigned_abs};
ghost use Rattle.decimals.specs.Rounded.{IsFloor, IsRounded, RoundedIsNearest};

use crate::digits::{Scaled, first_digits};
use frac128::Frac;

/// The least number of 12 digits.
const LEAST: u64 = 100_000_000_000;

/// The least number of 13 digits.
const BEYOND: u64 = 1_000_000_000_000;

/// A decimal: its digits, as a whole number, times 10^`up` over 10^`down`. It has 12 digits, or is 0.
#[derive(Clone, Copy, Debug, PartialEq, Eq)]
pub struct Decimal {
    pub is_negative: bool,
    pub digits: u64,
    pub up: u32,
    pub down: u32,
}

/// The first twelve of thirteen digits, rounded by the last.
fn twelve(first: Scaled, is_negative: bool) -> Decimal
    requires least { 1000000000000 ≤ first.number }
    requires most { first.number < 10000000000000 }
    requires short { first.up < 39 }
    ensures rounded { (num den : ℕ) → IsFloor num den first.number first.up first.down
        → IsRounded num den result.digits result.up result.down }
    ensures sign { result.is_negative ≡ is_negative }
{
    let digits = ((first.number + 5) / 10) as u64;
    if digits < BEYOND {
        Decimal {
            is_negative,
            digits,
            up: first.up + 1,
            down: first.down,
        }
    } else {
        Decimal {
            is_negative,
            digits: LEAST,
            up: first.up + 2,
            down: first.down,
        }
    }
}

/// A number without its sign.
fn size(number: i128) -> u128
    ensures { result ≡ unsigned_abs number }
{
    number.unsigned_abs()
}

impl Decimal {
    /// 0.
    fn zero() -> Decimal
        ensures { (result.digits ≡ 0) × (result.is_negative ≡ false) }
    {
        Decimal {
            is_negative: false,
            digits: 0,
            up: 0,
            down: 0,
        }
    }

    /// The decimal of 12 significant digits that is nearest to a number; of two that are as near, the one that is farther from 0.
    pub fn of(value: Frac) -> Decimal
        ensures zero { value.num ≡ pos 0 → result.digits ≡ 0 }
        ensures rounded { value.num ≢ pos 0 → IsRounded (unsigned_abs value.num) value.den result.digits result.up result.down }
        ensures sign { IsTrue result.is_negative ↔ (value.num <ℤ pos 0) }
    {
        let num = value.num();
        if num == 0 {
            return Decimal::zero();
        }
        let first = first_digits(size(num), size(value.den()));
        twelve(first, num < 0)
    }
}

/// No decimal of at most 12 digits is nearer to a number than the one to which it is rounded.
pub fn rounded_is_nearest()
    ensures { RoundedIsNearest }
{}
