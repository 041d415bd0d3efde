// Numbers by what stands before the zeros at their end.
ghost use Rattle.std.specs.Prelude.{◌≡◌, ◌<◌, ◌-◌, ◌+◌, ◌^◌, ◌%◌, ◌≤◌, ◌++◌, length, IfSome};
ghost use Rattle.frac128.specs.Numbers.{number};
ghost use Rattle.frac128.specs.Significand.{AllDigits, Extends, IsSignificand, digit_after};

use crate::digits::{MAX, shifted};

/// A number: `m` with zeros at its end.
#[derive(Clone, Copy)]
pub struct Significand {
    pub m: u128,
    pub zeros: u64,
}

/// The number and a digit after it, where what stands before the zeros at its end is not wide.
fn with_digit(start: Significand, digit: u8) -> Option<Significand>
    requires small { start.m < 2 ^ 127 }
    requires room { start.zeros + 1 < 2 ^ 64 }
    ensures { result ≡ digit_after start.m start.zeros (digit - 48) }
{
    let size = digit.saturating_sub(48);
    if size == 0 {
        Some(Significand {
            m: start.m,
            zeros: start.zeros + 1,
        })
    } else {
        let tens = shifted(start.m, start.zeros + 1)?;
        let m = tens + size as u128;
        if m > MAX {
            None
        } else {
            Some(Significand { m, zeros: 0 })
        }
    }
}

/// The number and digits after it.
pub fn with_digits(start: Significand, ds: &[u8]) -> Option<Significand>
    requires small { start.m < 2 ^ 127 }
    requires last { start.m % 10 ≡ 0 → start.m ≡ 0 }
    requires digits { AllDigits ds.now }
    requires room { start.zeros + length ds.now < 2 ^ 64 }
    ensures value { Extends result start ds.now }
    ensures zeros { IfSome result (λ t. t.zeros ≤ start.zeros + length ds.now) }
{
    let mut number = start;
    let mut i = 0;
    'digits: while i < ds.len() {
        number = with_digit(number, ds[i])?;
        i += 1;
    }
    Some(number)
}

impl Significand {
    /// The number that two runs of digits are together, where what stands before the zeros at its end
    /// is not wide.
    pub fn of_digits(whole: &[u8], places: &[u8]) -> Option<Significand>
        requires whole { AllDigits whole.now }
        requires places { AllDigits places.now }
        requires room { length whole.now + length places.now < 2 ^ 64 }
        ensures { IsSignificand (number (whole.now ++ places.now)) result }
    {
        let zero = Significand { m: 0, zeros: 0 };
        with_digits(with_digits(zero, whole)?, places)
    }
}
