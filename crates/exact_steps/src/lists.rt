//! Lists of fractions.

use frac128::{Frac, Memory};
use std::alloc::Global;

/// The number at a place, 0 where there is none.
pub(crate) fn at(list: &[Frac], place: usize) -> Frac {
    if place < list.len() {
        list[place]
    } else {
        Frac::zero()
    }
}

/// Writes a number at a place, if the list has it.
pub(crate) fn put(list: &mut [Frac], place: usize, value: Frac) {
    if place < list.len() {
        list[place] = value;
    }
}

/// So many numbers that are 0.
pub(crate) fn zeros(alloc: Global, count: usize) -> Result<Vec<Frac>, Memory> {
    let mut all = Vec::new(alloc);
    all.resize(count, Frac::zero())?;
    Ok(all)
}
