//! Numbers with few places behind the point.

use frac128::{Frac, Memory};
use std::alloc::Global;
use std::num::saturating_f64_to_u64;

/// So many parts a unit has.
const PARTS: u128 = 1_000_000_000_000;

/// The same as a float.
const PARTS_OF_UNIT: f64 = 1_000_000_000_000.0;

/// So many parts a unit has where what is rounded is small.
const FINE_PARTS: u128 = 1_000_000_000_000_000;

/// The same as a float.
const FINE_PARTS_OF_UNIT: f64 = 1_000_000_000_000_000.0;

/// Below this a float is a number of 64 bits.
const MOST: f64 = 9_000_000_000_000_000_000.0;

/// So many more places there are at most.
const MORE_PLACES: u32 = 15;

/// From this size on a number is whole.
const LARGE: f64 = 10_000_000.0;

/// The number at a place, 0 where there is none.
pub(crate) fn at(list: &[Frac], place: usize) -> Frac {
    if place < list.len() {
        list[place]
    } else {
        Frac::zero()
    }
}

/// The float at a place, 0 where there is none.
pub(crate) fn float_at(list: &[f64], place: usize) -> f64 {
    if place < list.len() { list[place] } else { 0.0 }
}

/// The number of a place; the largest one where it is too large.
pub(crate) fn narrow(place: usize) -> u32 {
    if place < u32::MAX as usize {
        place as u32
    } else {
        u32::MAX
    }
}

/// So many numbers that are 0.
pub(crate) fn zeros(alloc: Global, count: usize) -> Result<Vec<Frac>, Memory> {
    let mut all = Vec::new(alloc);
    all.resize(count, Frac::zero())?;
    Ok(all)
}

/// From this size on a number has twelve places.
const FINE_LARGE: f64 = 10_000.0;

/// A fraction; 0 where it doesn't fit.
fn fraction(size: u64, parts: u128) -> Frac {
    if parts == 0 || parts > i128::MAX as u128 {
        return Frac::zero();
    }
    match Frac::new(size as i128, parts as i128) {
        Some(number) => number,
        None => Frac::zero(),
    }
}

/// A number of parts of the unit, of which there are so many; more of them for what counts so many times as much, as far as they can be
/// counted.
fn in_parts(count: f64, parts: u128, times: f64) -> Frac {
    let mut all = parts;
    let mut count = count;
    let mut left = times;
    for _place in 0..MORE_PLACES {
        if left < 10.0 || count * 10.0 >= MOST {
            break;
        }
        all = all.saturating_mul(10);
        count *= 10.0;
        left /= 10.0;
    }
    fraction(saturating_f64_to_u64(count + 0.5), all)
}

/// A float with twelve places behind its point, a whole number where it is large.
pub(crate) fn rounded(value: f64) -> Frac {
    let size = value.abs();
    let number = if size < LARGE {
        fraction(saturating_f64_to_u64(size * PARTS_OF_UNIT + 0.5), PARTS)
    } else {
        fraction(saturating_f64_to_u64(size + 0.5), 1)
    };
    if value < 0.0 { number.neg() } else { number }
}

/// A number and a float, which is rounded to fifteen places behind the point, and one more for each ten times that it counts; where it is
/// large, to twelve.
pub(crate) fn add_fine(number: Frac, value: f64, times: f64) -> Frac {
    let size = value.abs();
    let more = if size < FINE_LARGE {
        let found = in_parts(size * FINE_PARTS_OF_UNIT, FINE_PARTS, times);
        if value < 0.0 { found.neg() } else { found }
    } else {
        rounded(value)
    };
    number.add(more).unwrap_or(number)
}

/// The number, or the bound beyond which it is.
pub(crate) fn within(low: Option<Frac>, high: Option<Frac>, value: Frac) -> Frac {
    if let Some(low) = low {
        if value < low {
            return low;
        }
    }
    if let Some(high) = high {
        if high < value {
            return high;
        }
    }
    value
}
