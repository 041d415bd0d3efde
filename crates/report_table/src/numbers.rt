//! Numbers, as exact fractions and as decimals.
use decimals::print_decimal;
use frac128::{Frac, Memory, print};
use std::alloc::Global;

/// Appends a whole number.
pub fn put_count(alloc: Global, out: &mut Vec<u8>, count: u64) -> Result<(), Memory> {
    let text = format!(in alloc; "{count}")?;
    out.extend_from_slice(text.as_bytes())?;
    Ok(())
}

/// A number as an exact fraction.
pub fn exact_text(alloc: Global, value: Frac) -> Result<Vec<u8>, Memory> {
    let mut text = Vec::new(alloc);
    print(alloc, value, &mut text)?;
    Ok(text)
}

/// A number as a decimal.
pub fn decimal_text(alloc: Global, value: Frac) -> Result<Vec<u8>, Memory> {
    let mut text = Vec::new(alloc);
    print_decimal(alloc, value, &mut text)?;
    Ok(text)
}
