//! Vectors with few numbers other than 0.

use basis_factors::Entry;
use std::alloc::{AllocError, Global};

/// What stands for a sum that has become 0, so that its place isn't listed twice.
pub const TINY: f64 = 1e-300;

/// Numbers, and the places of those that may be other than 0.
#[derive(Drop)]
pub struct Vector {
    pub values: Vec<f64>,
    pub places: Vec<u32>,
}

/// The number at a place, 0 where there is none.
#[inline(always)]
pub fn number(values: &[f64], place: usize) -> f64 {
    if place < values.len() {
        values[place]
    } else {
        0.0
    }
}

/// Sets the number at a place.
#[inline(always)]
pub fn set_number(values: &mut [f64], place: usize, value: f64) {
    if place < values.len() {
        values[place] = value;
    }
}

/// So many numbers, all the same.
pub fn constant(alloc: Global, value: f64, count: usize) -> Result<Vec<f64>, AllocError> {
    let mut values = Vec::new(alloc);
    values.resize(count, value)?;
    Ok(values)
}

/// Adds multiples of entries; places where 0 stood before are listed.
pub fn add_entries(
    values: &mut [f64],
    places: &mut Vec<u32>,
    factor: f64,
    entries: &[Entry<f64>],
) -> Result<(), AllocError> {
    for entry in entries {
        let at = entry.at as usize;
        if at < values.len() {
            let before = values[at];
            if before == 0.0 {
                places.push(entry.at)?;
            }
            let sum = before + factor * entry.value;
            values[at] = if sum == 0.0 { TINY } else { sum };
        }
    }
    Ok(())
}

impl Vector {
    /// So many numbers, all 0.
    pub fn new(alloc: Global, size: usize) -> Result<Vector, AllocError> {
        Ok(Vector {
            values: constant(alloc, 0.0, size)?,
            places: Vec::new(alloc),
        })
    }

    /// The number at a place.
    #[inline(always)]
    pub fn at(&self, place: usize) -> f64 {
        number(&self.values, place)
    }

    /// Makes all numbers 0.
    pub fn clear(&mut self) {
        for place in &self.places {
            set_number(&mut self.values, *place as usize, 0.0);
        }
        self.places.clear();
    }
}
