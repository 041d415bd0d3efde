//! Fractions as decimals, rounded to one side.
use frac128::Frac;
use std::alloc::{AllocError, Global};
use visible_text::push_visible;

/// To which side a number is rounded.
#[derive(Clone, Copy, Debug, PartialEq, Eq)]
pub enum Side {
    Down,
    Up,
}

/// A digit, and what is left behind it.
#[derive(Clone, Copy)]
struct Division {
    digit: u128,
    rest: u128,
}

/// The next digit of a rest that is less than what it is divided by.
fn next_digit(rest: u128, by: u128) -> Division {
    let mut digit: u128 = 0;
    let mut sum: u128 = 0;
    for _ in 0..10 {
        sum = sum.saturating_add(rest);
        if sum >= by {
            sum = sum.saturating_sub(by);
            digit = digit.saturating_add(1);
        }
    }
    Division { digit, rest: sum }
}

/// The size of a number times 10 to the power `places`, without what is behind the point, or one more where that isn't 0.
fn scaled(value: Frac, places: usize, is_away: bool) -> u128 {
    let by = value.den().unsigned_abs();
    let size = value.num().unsigned_abs();
    let mut number = size.checked_div(by).unwrap_or(0);
    let mut rest = size.saturating_sub(number.saturating_mul(by));
    for _ in 0..places {
        let next = next_digit(rest, by);
        number = number.saturating_mul(10).saturating_add(next.digit);
        rest = next.rest;
    }
    if is_away && rest > 0 {
        number.saturating_add(1)
    } else {
        number
    }
}

/// Appends a number with at most so many places behind the point, rounded to a side. It has at most 36 digits together.
pub fn put_rounded(
    alloc: Global,
    text: &mut String,
    value: Frac,
    places: usize,
    side: Side,
) -> Result<(), AllocError> {
    let is_negative = value.sign() < 0;
    let number = scaled(value, places, is_negative == (side == Side::Down));
    if is_negative && number > 0 {
        text.push_str("-")?;
    }
    let digits = format!(in alloc; "{number}")?;
    put_pointed(alloc, text, digits.as_bytes(), places)
}

/// Appends digits with so many of them behind the point, without zeros at the end.
fn put_pointed(
    alloc: Global,
    text: &mut String,
    digits: &[u8],
    places: usize,
) -> Result<(), AllocError> {
    let mut all = Vec::new(alloc);
    for _ in digits.len()..places.saturating_add(1) {
        all.push(b'0')?;
    }
    all.extend_from_slice(digits)?;
    let whole = all.len().saturating_sub(places);
    push_visible(text, all.get(..whole).unwrap_or(&[]))?;
    let part = without_zeros(all.get(whole..).unwrap_or(&[]));
    if part.is_empty() {
        return Ok(());
    }
    text.push_str(".")?;
    push_visible(text, part)
}

/// Digits without the zeros at their end.
fn without_zeros(digits: &[u8]) -> &[u8] {
    let mut rest = digits;
    for _ in 0..digits.len() {
        match rest {
            [front @ .., b'0'] => rest = front,
            _ => break,
        }
    }
    rest
}
