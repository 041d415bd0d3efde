//! A number that two programs of other numbers hardly ever share, and how large a program is.

use basis_values::{ExactProgram, ExactRow};
use frac128::Frac;

/// A prime, by which parts of fractions are divided.
const PRIME: u128 = 2_305_843_009_213_693_951;

/// An odd number, by which a digest is multiplied.
const FACTOR: u64 = 6_364_136_223_846_793_005;

/// A digest with one more number.
fn with(digest: u64, number: u64) -> u64 {
    digest
        .wrapping_mul(FACTOR)
        .wrapping_add(number)
        .wrapping_add(1)
}

/// What is left of a number that is divided by the prime.
fn remainder(number: i128) -> u64 {
    (number.unsigned_abs() % PRIME) as u64
}

/// A digest with a fraction.
fn with_fraction(digest: u64, value: Frac) -> u64 {
    let sign = if value.sign() < 0 { 1 } else { 0 };
    let signed = with(digest, sign);
    with(with(signed, remainder(value.num())), remainder(value.den()))
}

/// A digest with a bound.
fn with_bound(digest: u64, bound: Option<Frac>) -> u64 {
    match bound {
        Some(value) => with_fraction(with(digest, 1), value),
        None => with(digest, 0),
    }
}

fn with_row(digest: u64, row: &ExactRow) -> u64 {
    let mut sum = with_bound(with_bound(digest, row.low), row.high);
    for entry in &row.entries {
        sum = with_fraction(with(sum, entry.at as u64), entry.value);
    }
    with(sum, row.entries.len() as u64)
}

/// What all numbers of a program come to.
pub(crate) fn digest_of(exact: &ExactProgram) -> u64 {
    let mut sum = exact.column_count() as u64;
    for column in exact.columns() {
        sum = with_bound(with_bound(sum, column.low), column.high);
        sum = with_fraction(sum, column.cost);
    }
    for row in exact.rows() {
        sum = with_row(sum, row);
    }
    sum
}

/// How many columns, rows and entries a program has.
pub(crate) fn size_of(exact: &ExactProgram) -> u64 {
    let lines = exact.column_count().saturating_add(exact.row_count());
    let mut size = lines as u64;
    for row in exact.rows() {
        size = size.saturating_add(row.entries.len() as u64);
    }
    size
}
