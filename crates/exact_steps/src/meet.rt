//! Equations that are met exactly: a few numbers are moved a little.
//!
//! Each equation gets a number of its own that meets it. As long as a number stands in one equation alone, that equation takes it, and
//! nothing has to be eliminated; so equations are peeled off in one walk over their entries. Only what is left then is eliminated, the
//! number first that fills in least (H. M. Markowitz, The elimination form of the inverse, 1957).

use crate::lists::{at, put, zeros};
use crate::lone::Left;
use basis_factors::Entry;
use frac128::{Frac, Memory};
use std::alloc::Global;

/// An entry that is looked at in an elimination counts as so much work.
const EXACT: u64 = 10;

/// Equations: the entries of the numbers that may be moved, and what is left to be met.
#[derive(Drop)]
pub struct Equations {
    pub rows: Vec<Vec<Entry<Frac>>>,
    pub rests: Vec<Frac>,
}

/// A number of an equation that meets it.
#[derive(Clone, Copy)]
pub(crate) struct Choice {
    pub(crate) row: usize,
    pub(crate) at: u32,
    pub(crate) value: Frac,
}

/// The value of a number in an equation.
pub(crate) fn value_in(row: &[Entry<Frac>], place: u32) -> Option<Frac> {
    for entry in row {
        if entry.at == place {
            return Some(entry.value);
        }
    }
    None
}

pub(crate) fn row_at(rows: &[Vec<Entry<Frac>>], number: usize) -> &[Entry<Frac>] {
    if number < rows.len() {
        rows[number].as_slice()
    } else {
        &[]
    }
}

/// The row less a multiple of another; none where that passes.
fn less(
    alloc: Global,
    row: &[Entry<Frac>],
    factor: Frac,
    other: &[Entry<Frac>],
    but: u32,
) -> Result<Option<Vec<Entry<Frac>>>, Memory> {
    let mut all = Vec::new(alloc);
    for entry in row {
        if entry.at != but {
            let by = match value_in(other, entry.at) {
                Some(value) => value,
                None => Frac::zero(),
            };
            let Ok(value) = entry.value.less_product(factor, by) else {
                return Ok(None);
            };
            if !value.is_zero() {
                all.push(Entry {
                    at: entry.at,
                    value,
                })?;
            }
        }
    }
    for entry in other {
        if entry.at != but && value_in(row, entry.at).is_none() {
            let Ok(value) = Frac::zero().less_product(factor, entry.value) else {
                return Ok(None);
            };
            all.push(Entry {
                at: entry.at,
                value,
            })?;
        }
    }
    Ok(Some(all))
}

/// An equation without a number, and what is then left of it.
#[derive(Drop)]
struct Without {
    row: Vec<Entry<Frac>>,
    rest: Frac,
}

/// An equation less the multiple of the chosen one that takes the chosen number out; none where a number passes.
fn taken_out(
    alloc: Global,
    row: &[Entry<Frac>],
    rest: Frac,
    value: Frac,
    choice: Choice,
    chosen: &[Entry<Frac>],
    chosen_rest: Frac,
) -> Result<Option<Without>, Memory> {
    let Ok(factor) = divided(value, choice.value) else {
        return Ok(None);
    };
    let Some(row) = less(alloc, row, factor, chosen, choice.at)? else {
        return Ok(None);
    };
    let Ok(rest) = rest.less_product(factor, chosen_rest) else {
        return Ok(None);
    };
    Ok(Some(Without { row, rest }))
}

/// Takes what is looked at in an elimination from the work that is left.
pub(crate) fn spend(work: &mut u64, size: usize) {
    let size = (size as u64).saturating_add(1);
    *work = work.saturating_sub(size.saturating_mul(EXACT));
}

impl Equations {
    /// Takes the chosen number out of an equation, if it is left and has it. False where a number passes.
    fn take_out_of(
        &mut self,
        alloc: Global,
        number: usize,
        choice: Choice,
        chosen: &[Entry<Frac>],
        left: &mut Left,
    ) -> Result<bool, Memory> {
        let Some(value) = value_in(row_at(&self.rows, number), choice.at) else {
            return Ok(true);
        };
        let rest = at(&self.rests, number);
        let chosen_rest = at(&self.rests, choice.row);
        let row = row_at(&self.rows, number);
        match taken_out(alloc, row, rest, value, choice, chosen, chosen_rest)? {
            Some(found) => {
                let Without { row, rest } = found;
                put(&mut self.rests, number, rest);
                left.change(row_at(&self.rows, number), &row, number)?;
                if number < self.rows.len() {
                    self.rows[number] = row;
                }
                Ok(true)
            }
            None => Ok(false),
        }
    }

    /// Takes the chosen number out of all other equations that are left. False where a number passes, or where the work is spent.
    fn take_out(
        &mut self,
        alloc: Global,
        choice: Choice,
        left: &mut Left,
        work: &mut u64,
    ) -> Result<bool, Memory> {
        let chosen = Vec::from_slice(alloc, row_at(&self.rows, choice.row))?;
        for number in &left.rows_of(alloc, choice.at)? {
            let number = *number as usize;
            spend(
                work,
                row_at(&self.rows, number)
                    .len()
                    .saturating_add(chosen.len()),
            );
            if *work == 0 {
                return Ok(false);
            }
            if left.is_open(number) && !self.take_out_of(alloc, number, choice, &chosen, left)? {
                return Ok(false);
            }
        }
        left.find_lone(&chosen)?;
        Ok(true)
    }

    /// By how much each number is moved, so that all equations are met; none where that isn't found within the work.
    pub fn moves(
        mut self,
        alloc: Global,
        count: usize,
        work: &mut u64,
    ) -> Result<Option<Vec<Frac>>, Memory> {
        let mut left = Left::of(alloc, &self.rows, count)?;
        let mut choices = Vec::new(alloc);
        for _turn in 0..self.rows.len() {
            let Some(choice) = left.next(&self.rows, work)? else {
                break;
            };
            left.close(&self.rows, choice.row)?;
            choices.push(choice)?;
            if left.count(choice.at) > 0 && !self.take_out(alloc, choice, &mut left, work)? {
                return Ok(None);
            }
        }
        for number in 0..self.rows.len() {
            if left.is_open(number) && !at(&self.rests, number).is_zero() {
                return Ok(None);
            }
        }
        self.behind(alloc, &choices, count)
    }

    /// The moves, from the last choice back.
    fn behind(
        &self,
        alloc: Global,
        choices: &[Choice],
        count: usize,
    ) -> Result<Option<Vec<Frac>>, Memory> {
        let mut moves = zeros(alloc, count)?;
        for back in 0..choices.len() {
            let place = choices.len() - 1 - back;
            let choice = choices[place];
            let mut rest = at(&self.rests, choice.row);
            for entry in row_at(&self.rows, choice.row) {
                if entry.at != choice.at {
                    let Ok(next) = rest.less_product(entry.value, at(&moves, entry.at as usize))
                    else {
                        return Ok(None);
                    };
                    rest = next;
                }
            }
            let Ok(by) = divided(rest, choice.value) else {
                return Ok(None);
            };
            put(&mut moves, choice.at as usize, by);
        }
        Ok(Some(moves))
    }
}

/// The quotient; an error where it passes, or where the divisor is 0.
fn divided(value: Frac, by: Frac) -> Result<Frac, ()> {
    if by.is_zero() {
        return Err(());
    }
    match value.div(by) {
        Ok(quotient) => Ok(quotient),
        Err(_) => Err(()),
    }
}

/// The numbers, moved; none where one passes.
pub fn moved(numbers: &mut [Frac], moves: &[Frac]) -> bool {
    for place in 0..numbers.len() {
        match numbers[place].add(at(moves, place)) {
            Ok(sum) => numbers[place] = sum,
            Err(_) => return false,
        }
    }
    true
}
