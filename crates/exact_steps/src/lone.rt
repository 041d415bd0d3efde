//! Which equations are left, and the numbers that stand in one of them alone.

use crate::meet::{Choice, row_at, spend, value_in};
use basis_factors::Entry;
use frac128::{Frac, Memory};
use std::alloc::Global;

/// So many lengths are told apart.
const LENGTHS: usize = 513;

/// The equations that are left, how many of them have each number, and what was found of those that stand alone.
#[derive(Drop)]
pub(crate) struct Left {
    open: Vec<bool>,
    counts: Vec<usize>,
    /// By number the equations that have it, or had it.
    places: Vec<Vec<u32>>,
    /// By length the numbers that stood in one equation alone: short ones are chosen first, since others are divided by them.
    lone: Vec<Vec<u32>>,
    /// Those that came to stand alone since. They wait until the others are done, since what they are moved by moves others too.
    fresh: Vec<u32>,
    /// Equations that had one number alone.
    single: Vec<u32>,
}

/// How many bits a number has.
fn bits(number: u128) -> usize {
    128usize.saturating_sub(number.leading_zeros() as usize)
}

/// A number without its factors 2 and 5.
fn without_tens(number: u128) -> u128 {
    let mut left = number;
    for _turn in 0..128 {
        if left > 0 && left % 2 == 0 {
            left /= 2;
        } else if left > 0 && left % 5 == 0 {
            left /= 5;
        } else {
            break;
        }
    }
    left
}

/// How long a decimal becomes that is divided by a number: by the bits of its parts, and twice by those that make it no decimal.
fn length(value: Frac) -> usize {
    let num = value.num().unsigned_abs();
    let own = bits(num).saturating_add(bits(value.den().unsigned_abs()));
    own.saturating_add(bits(without_tens(num)).saturating_sub(1).saturating_mul(2))
}

/// The number of an equation.
fn narrow(number: usize) -> u32 {
    if number < u32::MAX as usize {
        number as u32
    } else {
        u32::MAX
    }
}

impl Left {
    /// All equations, over so many numbers.
    pub(crate) fn of(
        alloc: Global,
        rows: &[Vec<Entry<Frac>>],
        count: usize,
    ) -> Result<Left, Memory> {
        let mut left = Left {
            open: Vec::new(alloc),
            counts: Vec::new(alloc),
            places: Vec::new(alloc),
            lone: Vec::new(alloc),
            fresh: Vec::new(alloc),
            single: Vec::new(alloc),
        };
        left.open.resize(rows.len(), true)?;
        left.counts.resize(count, 0)?;
        for _number in 0..count {
            left.places.push(Vec::new(alloc))?;
        }
        for _length in 0..LENGTHS {
            left.lone.push(Vec::new(alloc))?;
        }
        for (number, row) in rows.iter().enumerate() {
            left.change(&[], row, number)?;
        }
        for row in rows {
            left.find_lone(row)?;
        }
        Ok(left)
    }

    /// Whether an equation is left.
    pub(crate) fn is_open(&self, row: usize) -> bool {
        row < self.open.len() && self.open[row]
    }

    /// How many equations that are left have a number.
    pub(crate) fn count(&self, place: u32) -> usize {
        let place = place as usize;
        if place < self.counts.len() {
            self.counts[place]
        } else {
            0
        }
    }

    /// The equations that have a number, or had it.
    pub(crate) fn rows_of(&self, alloc: Global, place: u32) -> Result<Vec<u32>, Memory> {
        let place = place as usize;
        if place < self.places.len() {
            Ok(Vec::from_slice(alloc, &self.places[place])?)
        } else {
            Ok(Vec::new(alloc))
        }
    }

    fn take_one(&mut self, place: u32) {
        let place = place as usize;
        if place < self.counts.len() {
            self.counts[place] = self.counts[place].saturating_sub(1);
        }
    }

    /// Puts an equation behind those that have a number.
    fn put_one(&mut self, place: u32, number: usize, is_new: bool) -> Result<(), Memory> {
        let place = place as usize;
        if place < self.counts.len() {
            self.counts[place] = self.counts[place].saturating_add(1);
        }
        if is_new && place < self.places.len() {
            self.places[place].push(narrow(number))?;
        }
        Ok(())
    }

    /// An equation changes.
    pub(crate) fn change(
        &mut self,
        old: &[Entry<Frac>],
        new: &[Entry<Frac>],
        number: usize,
    ) -> Result<(), Memory> {
        for entry in old {
            self.take_one(entry.at);
        }
        for entry in new {
            let is_new = value_in(old, entry.at).is_none();
            self.put_one(entry.at, number, is_new)?;
        }
        if new.len() == 1 {
            self.single.push(narrow(number))?;
        }
        Ok(())
    }

    /// An equation isn't left any more.
    pub(crate) fn close(&mut self, rows: &[Vec<Entry<Frac>>], number: usize) -> Result<(), Memory> {
        if number < self.open.len() {
            self.open[number] = false;
        }
        let row = row_at(rows, number);
        for entry in row {
            self.take_one(entry.at);
        }
        self.find_lone(row)
    }

    /// The equation that is left and has a number, where one alone does.
    fn lone_row(&self, rows: &[Vec<Entry<Frac>>], place: u32) -> Option<Choice> {
        let at = place as usize;
        if self.count(place) != 1 || at >= self.places.len() {
            return None;
        }
        for number in &self.places[at] {
            let row = *number as usize;
            if self.is_open(row) {
                if let Some(value) = value_in(row_at(rows, row), place) {
                    return Some(Choice {
                        row,
                        at: place,
                        value,
                    });
                }
            }
        }
        None
    }

    /// Finds those of some numbers that stand in one equation alone.
    pub(crate) fn find_lone(&mut self, row: &[Entry<Frac>]) -> Result<(), Memory> {
        for entry in row {
            if self.count(entry.at) == 1 {
                self.fresh.push(entry.at)?;
            }
        }
        Ok(())
    }

    /// Of the numbers of a length one that stands in one equation alone.
    fn next_of(&mut self, rows: &[Vec<Entry<Frac>>], length: usize) -> Option<Choice> {
        if length >= self.lone.len() {
            return None;
        }
        for _turn in 0..self.lone[length].len() {
            let Some(place) = self.lone[length].pop() else {
                break;
            };
            if let Some(choice) = self.lone_row(rows, place) {
                return Some(choice);
            }
        }
        None
    }

    /// A number that stood in one equation alone before, a short one first.
    fn next_old(&mut self, rows: &[Vec<Entry<Frac>>]) -> Option<Choice> {
        for length in 0..LENGTHS {
            if let Some(choice) = self.next_of(rows, length) {
                return Some(choice);
            }
        }
        None
    }

    /// Those that came to stand alone since are put to the others.
    fn take_fresh(&mut self, rows: &[Vec<Entry<Frac>>]) -> Result<(), Memory> {
        for _turn in 0..self.fresh.len() {
            let Some(place) = self.fresh.pop() else {
                break;
            };
            if let Some(choice) = self.lone_row(rows, place) {
                let length = length(choice.value);
                if length < self.lone.len() {
                    self.lone[length].push(place)?;
                }
            }
        }
        Ok(())
    }

    /// A number that stands in one equation alone, a short one first of those that do longest.
    fn next_lone(&mut self, rows: &[Vec<Entry<Frac>>]) -> Result<Option<Choice>, Memory> {
        if let Some(choice) = self.next_old(rows) {
            return Ok(Some(choice));
        }
        self.take_fresh(rows)?;
        Ok(self.next_old(rows))
    }

    /// The number of an equation that has no other.
    fn next_single(&mut self, rows: &[Vec<Entry<Frac>>]) -> Option<Choice> {
        for _turn in 0..self.single.len() {
            let Some(number) = self.single.pop() else {
                break;
            };
            let row = number as usize;
            let entries = row_at(rows, row);
            if self.is_open(row) && entries.len() == 1 {
                return Some(Choice {
                    row,
                    at: entries[0].at,
                    value: entries[0].value,
                });
            }
        }
        None
    }

    /// The choice that fills in least; none where no equation that is left has a number, or where the work is spent.
    fn least(&self, rows: &[Vec<Entry<Frac>>], work: &mut u64) -> Option<Choice> {
        let mut found: Option<Choice> = None;
        let mut least = usize::MAX;
        for (number, row) in rows.iter().enumerate() {
            if *work == 0 {
                return None;
            }
            if self.is_open(number) {
                spend(work, row.len());
                for entry in row {
                    let weight = self.weight(row, entry);
                    if weight < least {
                        least = weight;
                        found = Some(Choice {
                            row: number,
                            at: entry.at,
                            value: entry.value,
                        });
                    }
                }
            }
        }
        found
    }

    /// How much an entry fills in, and how long it is.
    fn weight(&self, row: &[Entry<Frac>], entry: &Entry<Frac>) -> usize {
        let others = self.count(entry.at).saturating_sub(1);
        let fill = others.saturating_mul(row.len().saturating_sub(1));
        fill.saturating_mul(2000)
            .saturating_add(others.saturating_mul(600))
            .saturating_add(length(entry.value))
    }

    /// The next choice: a number that stands alone, or an equation with one number, or else the choice that fills in least.
    pub(crate) fn next(
        &mut self,
        rows: &[Vec<Entry<Frac>>],
        work: &mut u64,
    ) -> Result<Option<Choice>, Memory> {
        if let Some(choice) = self.next_lone(rows)? {
            return Ok(Some(choice));
        }
        if let Some(choice) = self.next_single(rows) {
            return Ok(Some(choice));
        }
        Ok(self.least(rows, work))
    }
}
