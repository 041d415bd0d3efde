//! Numbers as they stand in a text.
use frac128::{Frac, Memory};
use report_table::{decimal_text, exact_text};
use report_values::Amount;
use std::alloc::Global;

/// A cell has a fraction of at most so many characters.
const LONGEST: usize = 24;

/// Appends a text.
pub(crate) fn put(out: &mut Vec<u8>, text: &str) -> Result<(), Memory> {
    out.extend_from_slice(text.as_bytes())?;
    Ok(())
}

/// Appends a number as a decimal, with the exact fraction after it in parentheses where that reads otherwise: `0.25 (1/4)`.
fn put_both(alloc: Global, out: &mut Vec<u8>, value: Frac) -> Result<(), Memory> {
    let exact = exact_text(alloc, value)?;
    let decimal = decimal_text(alloc, value)?;
    out.extend_from_slice(&decimal)?;
    if exact.as_slice() != decimal.as_slice() {
        put(out, " (")?;
        out.extend_from_slice(&exact)?;
        put(out, ")")?;
    }
    Ok(())
}

/// Appends a number as above, or, where its fraction is long, the decimal alone: `about 0.333333333333`.
fn put_short(alloc: Global, out: &mut Vec<u8>, value: Frac) -> Result<(), Memory> {
    if exact_text(alloc, value)?.len() <= LONGEST {
        return put_both(alloc, out, value);
    }
    let decimal = decimal_text(alloc, value)?;
    put(out, "about ")?;
    out.extend_from_slice(&decimal)?;
    Ok(())
}

/// Appends a number with its whole fraction; `none` where there is none, and `passed` where its sum passes 128 bits.
pub(crate) fn put_whole(alloc: Global, out: &mut Vec<u8>, amount: Amount) -> Result<(), Memory> {
    match amount {
        Amount::Known(value) => put_both(alloc, out, value),
        Amount::Absent => put(out, "none"),
        Amount::Passed => put(out, "passed"),
    }
}

/// Appends a number that stands beside others, without a long fraction; where there is none, the word for that.
pub(crate) fn put_amount(
    alloc: Global,
    out: &mut Vec<u8>,
    amount: Amount,
    absent: &str,
) -> Result<(), Memory> {
    match amount {
        Amount::Known(value) => put_short(alloc, out, value),
        Amount::Absent => put(out, absent),
        Amount::Passed => put(out, "passed"),
    }
}
