//! Rows of fractions as rows of whole numbers, which are kept modulo 2^128.

use basis_factors::Entry;
use frac128::{Frac, Memory};
use std::alloc::Global;

/// Numbers up to this size leave room for the sums of their products with digits.
const MOST: u128 = 0x1_0000_0000_0000_0000_0000_0000_0000;

/// The second number without what it has in common with the first.
fn share(a: u128, b: u128) -> Option<u128> {
    let above = i128::try_from(a).ok()?;
    let below = i128::try_from(b).ok()?;
    if below <= 0 {
        return None;
    }
    let lowest = Frac::new(above, below)?;
    Some(lowest.den().unsigned_abs())
}

/// The least common multiple, where it isn't too large.
pub(crate) fn common_multiple(a: u128, b: u128) -> Option<u128> {
    if b == 1 || a == b {
        return Some(a);
    }
    let all = a.checked_mul(share(a, b)?)?;
    if all > MOST { None } else { Some(all) }
}

/// The number modulo 2^128 that stands for one of this size and sign.
pub(crate) fn with_sign(is_negative: bool, size: u128) -> u128 {
    if is_negative {
        0u128.wrapping_sub(size)
    } else {
        size
    }
}

/// The size of a number that is given modulo 2^128.
pub(crate) fn size_of_signed(n: u128) -> u128 {
    with_sign(n >> 127 == 1, n)
}

/// The least number whose product with each entry is whole.
pub(crate) fn scale_of(row: &[Entry<Frac>]) -> Option<u128> {
    let mut scale = 1;
    for entry in row {
        scale = common_multiple(scale, entry.value.den().unsigned_abs())?;
    }
    Some(scale)
}

/// The product of a fraction and a multiple of its denominator.
fn whole(value: Frac, scale: u128) -> Option<u128> {
    let by = scale.checked_div(value.den().unsigned_abs())?;
    let size = value.num().unsigned_abs().checked_mul(by)?;
    if size > MOST {
        return None;
    }
    Some(with_sign(value.sign() < 0, size))
}

/// The row multiplied by its scale.
pub(crate) fn whole_row(
    alloc: Global,
    row: &[Entry<Frac>],
    scale: u128,
) -> Result<Option<Vec<Entry<u128>>>, Memory> {
    let mut entries = Vec::with_capacity(alloc, row.len())?;
    for entry in row {
        let Some(value) = whole(entry.value, scale) else {
            return Ok(None);
        };
        entries.push(Entry {
            at: entry.at,
            value,
        })?;
    }
    Ok(Some(entries))
}

/// Whether the sizes of a row's entries, added and multiplied by a factor, are below 2^126.
pub(crate) fn is_narrow(row: &[Entry<u128>], factor: u128) -> bool {
    let mut sum: u128 = 0;
    for entry in row {
        sum = sum.saturating_add(size_of_signed(entry.value));
    }
    match sum.checked_mul(factor) {
        Some(most) => most >> 126 == 0,
        None => false,
    }
}

fn turn_row(
    columns: &mut [Vec<Entry<u128>>],
    row: &[Entry<u128>],
    number: u32,
) -> Result<(), Memory> {
    for entry in row {
        let place = entry.at as usize;
        if place < columns.len() {
            columns[place].push(Entry {
                at: number,
                value: entry.value,
            })?;
        }
    }
    Ok(())
}

/// The columns of a square matrix that is given by rows.
pub(crate) fn turned(
    alloc: Global,
    rows: &[Vec<Entry<u128>>],
) -> Result<Vec<Vec<Entry<u128>>>, Memory> {
    let mut columns = Vec::new(alloc);
    for _row in rows {
        columns.push(Vec::new(alloc))?;
    }
    let mut number: u32 = 0;
    for row in rows {
        turn_row(&mut columns, row, number)?;
        number = number.wrapping_add(1);
    }
    Ok(columns)
}
