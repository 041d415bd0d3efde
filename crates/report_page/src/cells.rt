//! Cells of tables.
use crate::escape::{put, put_name};
use frac128::{Frac, Memory};
use report_table::{decimal_text, exact_text, put_count};
use report_values::Amount;
use std::alloc::Global;

/// Appends a number as a decimal, and exactly, in small, where that reads otherwise.
fn put_number(alloc: Global, out: &mut Vec<u8>, value: Frac) -> Result<(), Memory> {
    let exact = exact_text(alloc, value)?;
    let decimal = decimal_text(alloc, value)?;
    out.extend_from_slice(&decimal)?;
    if exact.as_slice() != decimal.as_slice() {
        put(out, "<small>")?;
        out.extend_from_slice(&exact)?;
        put(out, "</small>")?;
    }
    Ok(())
}

/// Appends a number, or the word of an absent one.
pub(crate) fn put_amount(
    alloc: Global,
    out: &mut Vec<u8>,
    amount: Amount,
    absent: &str,
) -> Result<(), Memory> {
    match amount {
        Amount::Known(value) => put_number(alloc, out, value),
        Amount::Absent => put(out, absent),
        Amount::Passed => put(out, "passed"),
    }
}

/// Appends a number as a decimal alone, as it is shown in a drawing.
pub(crate) fn put_decimal(alloc: Global, out: &mut Vec<u8>, amount: Amount) -> Result<(), Memory> {
    match amount {
        Amount::Known(value) => {
            let decimal = decimal_text(alloc, value)?;
            out.extend_from_slice(&decimal)?;
            Ok(())
        }
        Amount::Absent => put(out, "-"),
        Amount::Passed => put(out, "passed"),
    }
}

/// Appends a cell with a number.
pub(crate) fn put_cell(
    alloc: Global,
    out: &mut Vec<u8>,
    amount: Amount,
    absent: &str,
) -> Result<(), Memory> {
    put(out, "<td class=n>")?;
    put_amount(alloc, out, amount, absent)
}

/// Appends a cell with a whole number.
pub(crate) fn put_count_cell(alloc: Global, out: &mut Vec<u8>, count: u32) -> Result<(), Memory> {
    put(out, "<td class=n>")?;
    put_count(alloc, out, u64::from(count))
}

/// Appends a cell with a name.
pub(crate) fn put_name_cell(alloc: Global, out: &mut Vec<u8>, name: &[u8]) -> Result<(), Memory> {
    put(out, "<td>")?;
    put_name(alloc, out, name)
}
