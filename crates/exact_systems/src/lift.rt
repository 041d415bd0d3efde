//! Digits of a solution to the base of the prime: each solves the system modulo the prime, and what it leaves of the
//! right side is divided by the prime.

use crate::residue::Residue;
use crate::restore::{Digits, LONG, Restorer};
use crate::whole::{is_narrow, with_sign};
use basis_factors::{Entry, Factors};
use frac128::{Frac, Memory};
use std::alloc::Global;

/// One over the prime modulo 2^128: -(1 + 2^61 + 2^122).
const INVERSE: u128 = 0xfbff_ffff_ffff_ffff_dfff_ffff_ffff_ffff;

/// Right sides, one an equation: whole numbers, kept modulo 2^128, over their denominators. And the digits found.
#[derive(Drop)]
pub(crate) struct Lift {
    rests: Vec<u128>,
    factors: Vec<u128>,
    inverses: Vec<Residue>,
    digits: Vec<Digits>,
    right: Vec<Residue>,
    found: Vec<Residue>,
    places: Vec<u32>,
}

impl Lift {
    fn new(alloc: Global) -> Lift {
        Lift {
            rests: Vec::new(alloc),
            factors: Vec::new(alloc),
            inverses: Vec::new(alloc),
            digits: Vec::new(alloc),
            right: Vec::new(alloc),
            found: Vec::new(alloc),
            places: Vec::new(alloc),
        }
    }

    /// Adds an equation. False where its denominator is 0 modulo the prime.
    fn push(&mut self, value: Frac) -> Result<bool, Memory> {
        let factor = value.den().unsigned_abs();
        let residue = Residue::of(factor);
        if residue.value() == 0 {
            return Ok(false);
        }
        let inverse = if factor == 1 {
            residue
        } else {
            residue.inverted()
        };
        self.rests
            .push(with_sign(value.sign() < 0, value.num().unsigned_abs()))?;
        self.factors.push(factor)?;
        self.inverses.push(inverse)?;
        self.digits.push(Digits::zero())?;
        self.right.push(Residue::none())?;
        self.found.push(Residue::none())?;
        Ok(true)
    }

    /// For right sides of rows, each of which was multiplied by its scale.
    pub(crate) fn of_right_sides(
        alloc: Global,
        right: &[Frac],
        scales: &[u128],
    ) -> Result<Option<Lift>, Memory> {
        let mut lift = Lift::new(alloc);
        for (value, scale) in right.iter().zip(scales.iter()) {
            let Some(value) = times(*value, *scale) else {
                return Ok(None);
            };
            if !lift.push(value)? {
                return Ok(None);
            }
        }
        Ok(Some(lift))
    }

    /// For costs of columns.
    pub(crate) fn of_costs(alloc: Global, costs: &[Frac]) -> Result<Option<Lift>, Memory> {
        let mut lift = Lift::new(alloc);
        for cost in costs {
            if !lift.push(*cost)? {
                return Ok(None);
            }
        }
        Ok(Some(lift))
    }

    /// Whether the sums of all equations stay small enough.
    fn fits(&self, equations: &[Vec<Entry<u128>>]) -> bool {
        for (equation, factor) in equations.iter().zip(self.factors.iter()) {
            if !is_narrow(equation, *factor) {
                return false;
            }
        }
        true
    }

    /// The right sides modulo the prime.
    fn set_right(&mut self) {
        for ((right, rest), inverse) in self
            .right
            .iter_mut()
            .zip(self.rests.iter())
            .zip(self.inverses.iter())
        {
            *right = Residue::of_signed(*rest).product(*inverse);
        }
    }

    fn clear_found(&mut self) {
        self.places.clear();
        for found in self.found.iter_mut() {
            *found = Residue::none();
        }
    }

    /// Takes the digit that was found from the right sides, and divides what is left by the prime.
    fn reduce(&mut self, equations: &[Vec<Entry<u128>>]) {
        for ((rest, factor), equation) in self
            .rests
            .iter_mut()
            .zip(self.factors.iter())
            .zip(equations.iter())
        {
            let sum = sum_of_products(equation, &self.found);
            let left = rest.wrapping_sub(sum.wrapping_mul(*factor));
            *rest = left.wrapping_mul(INVERSE);
        }
    }

    fn keep_digit(&mut self, place: usize) {
        for (digits, found) in self.digits.iter_mut().zip(self.found.iter()) {
            digits.put(place, found.value());
        }
    }

    /// The fractions with these digits, each multiplied by its scale where there are scales.
    fn restored(
        &self,
        alloc: Global,
        count: usize,
        scales: &[u128],
    ) -> Result<Option<Vec<Frac>>, Memory> {
        let mut restorer = Restorer::new(count);
        let mut all = Vec::new(alloc);
        for (place, digits) in self.digits.iter().enumerate() {
            let scale = if place < scales.len() {
                scales[place]
            } else {
                1
            };
            let Some(value) = restorer.restored(digits, scale) else {
                return Ok(None);
            };
            all.push(value)?;
        }
        Ok(Some(all))
    }
}

/// The product of a fraction and a natural number.
fn times(value: Frac, by: u128) -> Option<Frac> {
    if by == 1 {
        return Some(value);
    }
    let whole = Frac::new(i128::try_from(by).ok()?, 1)?;
    value.mul(whole).ok()
}

/// The sum of an equation's entries times the digits, modulo 2^128.
fn sum_of_products(equation: &[Entry<u128>], digits: &[Residue]) -> u128 {
    let mut sum: u128 = 0;
    for entry in equation {
        let place = entry.at as usize;
        if place < digits.len() {
            let digit = digits[place].value() as u128;
            sum = sum.wrapping_add(entry.value.wrapping_mul(digit));
        }
    }
    sum
}

/// One more digit.
fn step(lift: &mut Lift, factors: &Factors<Residue>, is_transposed: bool) -> Result<(), Memory> {
    lift.set_right();
    lift.clear_found();
    let Lift {
        right,
        found,
        places,
        ..
    } = lift;
    if is_transposed {
        factors.backward(right, &[], found, places)?;
    } else {
        factors.forward(right, &[], found, places)?;
    }
    Ok(())
}

/// The solution of all equations, by as few digits as show it; nothing where it is too wide. Where there are scales
/// the equations are columns, and each number of the solution is to be multiplied by its scale.
pub(crate) fn lifted(
    alloc: Global,
    lift: &mut Lift,
    factors: &Factors<Residue>,
    equations: &[Vec<Entry<u128>>],
    scales: &[u128],
) -> Result<Option<Vec<Frac>>, Memory> {
    if !lift.fits(equations) {
        return Ok(None);
    }
    for digit in 0..LONG {
        step(lift, factors, !scales.is_empty())?;
        lift.keep_digit(digit);
        lift.reduce(equations);
        if digit == 1 || digit == 2 || digit == 4 {
            let all = lift.restored(alloc, digit + 1, scales)?;
            if all.is_some() {
                return Ok(all);
            }
        }
    }
    Ok(None)
}
