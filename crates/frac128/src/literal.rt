// The parts of a number's text: sign, exponent, decimal digits, fraction.
ghost use Rattle.std.specs.Prelude.{◌≡◌, pos, true, ◌≢◌, ◌<◌, ◌≤◌, ◌-◌, ◌*◌, ◌+◌, ◌^◌, ◌%◌};
ghost use Rattle.std.specs.Prelude.{length, ◌+ℤ◌, neg_ℤ, Some, None};
ghost use Rattle.rationals.specs.Choices.{pick};
ghost use Rattle.ratio128.specs.Ratio.{signed};
ghost use Rattle.frac128.specs.Numbers.{number, is_negative, after_sign, is_short, exponent, power_value, decimal_literal};
ghost use Rattle.frac128.specs.Numbers.{fraction_literal, literal_value};
ghost use Rattle.frac128.specs.Significand.{AllDigits};

use crate::digits::{MAX, power_of_ten, small_number, split_digits};
use crate::fraction::Frac;
use crate::significand::Significand;
use crate::text::NumFault;

/// Whether a text begins with a minus.
pub fn begins_with_minus(text: &[u8]) -> bool
    ensures { result ≡ is_negative text.now }
{
    text.first() == Some(&b'-')
}

/// A text without the sign at its start.
pub fn without_sign(text: &[u8]) -> &[u8]
    ensures { result.now ≡ after_sign text.now }
{
    match text {
        [b'+' | b'-', rest @ ..] => rest,
        _ => text,
    }
}

/// Whether a text is one to four digits.
fn is_short_number(text: &[u8]) -> bool
    ensures { result ≡ is_short text.now }
{
    let (_, rest) = split_digits(text);
    rest.is_empty() && 1 <= text.len() && text.len() <= 4
}

/// A number of one to four digits.
fn short_number(text: &[u8]) -> i32
    requires { is_short text.now ≡ true }
    ensures { result ≡ pos (number text.now) }
{
    match small_number(text) {
        Some(n) => n as i32,
        None => 0,
    }
}

/// An exponent behind its letter: a sign or none, and one to four digits.
fn signed_number(text: &[u8]) -> Option<i32>
    ensures { result ≡ pick (is_short (after_sign text.now)) (Some (signed (is_negative text.now) (number (after_sign text.now)))) None }
{
    let size = without_sign(text);
    if !is_short_number(size) {
        return None;
    }
    let n = short_number(size);
    Some(if begins_with_minus(text) { -n } else { n })
}

/// The exponent that a text is, 0 where there is none.
fn read_exponent(text: &[u8]) -> Option<i32>
    ensures { result ≡ exponent text.now }
{
    match text {
        [] => Some(0),
        [b'E' | b'e' | b'D' | b'd', rest @ ..] => signed_number(rest),
        _ => None,
    }
}

/// A number times a power of ten.
fn power(is_negative: bool, size: u128, exponent: i128) -> Result<Frac, NumFault>
    requires small { size < 2 ^ 127 }
    requires above_zero { 0 < size }
    ensures { result ≡ power_value is_negative size exponent }
{
    let Some(ten) = power_of_ten(exponent.unsigned_abs()) else {
        return Err(NumFault::Wide);
    };
    if exponent < 0 {
        return Ok(Frac::from_sizes(is_negative, size, ten));
    }
    match size.checked_mul(ten) {
        Some(product) if product <= MAX => Ok(Frac::from_sizes(is_negative, product, 1)),
        _ => Err(NumFault::Wide),
    }
}

/// The exponent of a number of which `places` digits stand after the point, when it is written without the point and
/// without the zeros at its end.
fn without_point(exponent: i32, places: usize, zeros: u64) -> i128
    ensures { result ≡ (exponent +ℤ neg_ℤ (pos places)) +ℤ pos zeros }
{
    exponent as i128 - places as i128 + zeros as i128
}

/// The number of the digits before the point and after it, and of an exponent.
pub fn decimal(
    is_negative: bool,
    whole: &[u8],
    places: &[u8],
    rest: &[u8],
) -> Result<Frac, NumFault>
    requires whole { AllDigits whole.now }
    requires places { AllDigits places.now }
    requires room { length whole.now + length places.now < 2 ^ 64 }
    ensures { result ≡ literal_value is_negative (decimal_literal whole.now places.now rest.now) }
{
    if whole.is_empty() && places.is_empty() {
        return Err(NumFault::Bad);
    }
    let Some(exponent) = read_exponent(rest) else {
        return Err(NumFault::Bad);
    };
    let Some(number) = Significand::of_digits(whole, places) else {
        return Err(NumFault::Wide);
    };
    if number.m == 0 {
        return Ok(Frac::zero());
    }
    let exponent = without_point(exponent, places.len(), number.zeros);
    power(is_negative, number.m, exponent)
}

/// The number of the digits before a slash and of what stands after it.
pub fn fraction(is_negative: bool, whole: &[u8], below: &[u8]) -> Result<Frac, NumFault>
    ensures { result ≡ literal_value is_negative (fraction_literal whole.now below.now) }
{
    let (_, rest) = split_digits(below);
    if whole.is_empty() || !rest.is_empty() {
        return Err(NumFault::Bad);
    }
    match (small_number(whole), small_number(below)) {
        (_, Some(0)) => Err(NumFault::Bad),
        (Some(num), Some(den)) => Ok(Frac::from_sizes(is_negative, num, den)),
        _ => Err(NumFault::Wide),
    }
}
