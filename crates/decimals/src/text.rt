//! Decimals as texts.
use crate::rounded::Decimal;
use frac128::{Frac, Memory};
use std::alloc::Global;

/// The digits without the zeros at their end. The first one stays.
fn without_zeros(digits: &[u8]) -> &[u8] {
    let mut rest = digits;
    while let [front @ .., b'0'] = rest {
        if front.is_empty() {
            return rest;
        }
        rest = front;
    }
    rest
}

/// Appends so many zeros.
fn put_zeros(out: &mut Vec<u8>, count: usize) -> Result<(), Memory> {
    for _ in 0..count {
        out.push(b'0')?;
    }
    Ok(())
}

/// Appends digits with a point behind so many of them, and zeros where there are fewer.
fn put_pointed(out: &mut Vec<u8>, digits: &[u8], whole: usize) -> Result<(), Memory> {
    if digits.len() <= whole {
        out.extend_from_slice(digits)?;
        return put_zeros(out, whole - digits.len());
    }
    let (front, back) = digits.split_at(whole);
    out.extend_from_slice(front)?;
    out.push(b'.')?;
    out.extend_from_slice(back)?;
    Ok(())
}

/// Appends digits whose first one stands in that place behind the point, counted from 0.
fn put_small(out: &mut Vec<u8>, digits: &[u8], zeros: usize) -> Result<(), Memory> {
    out.extend_from_slice(b"0.")?;
    put_zeros(out, zeros)?;
    out.extend_from_slice(digits)?;
    Ok(())
}

/// Appends digits with a point behind the first one, times a power of ten.
fn put_power(alloc: Global, out: &mut Vec<u8>, digits: &[u8], power: i64) -> Result<(), Memory> {
    put_pointed(out, digits, 1)?;
    let text = format!(in alloc; "E{power}")?;
    out.extend_from_slice(text.as_bytes())?;
    Ok(())
}

/// Appends digits whose first one stands for its value times that power of ten.
fn put_digits(alloc: Global, out: &mut Vec<u8>, digits: &[u8], power: i64) -> Result<(), Memory> {
    if power < -5 || power > 11 {
        put_power(alloc, out, digits, power)
    } else if power < 0 {
        put_small(out, digits, (-1 - power) as usize)
    } else {
        put_pointed(out, digits, power as usize + 1)
    }
}

impl Decimal {
    /// Appends the decimal, as `-0.25`, `1200` or `1.5E-30`: without zeros at the end of its digits, and with a power of ten where the
    /// first digit stands behind five zeros of the point or more, or in front of eleven digits or more. `E` and a whole number are that
    /// power.
    pub fn print(self, alloc: Global, out: &mut Vec<u8>) -> Result<(), Memory> {
        let number = self.digits;
        let digits = format!(in alloc; "{number}")?;
        if self.is_negative {
            out.push(b'-')?;
        }
        if number == 0 {
            out.push(b'0')?;
            return Ok(());
        }
        let power = 11 + i64::from(self.up) - i64::from(self.down);
        put_digits(alloc, out, without_zeros(digits.as_bytes()), power)
    }
}

/// Appends a number as a decimal of 12 significant digits at most.
pub fn print_decimal(alloc: Global, value: Frac, out: &mut Vec<u8>) -> Result<(), Memory> {
    Decimal::of(value).print(alloc, out)
}
