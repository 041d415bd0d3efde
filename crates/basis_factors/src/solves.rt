//! Systems of a factored matrix. Where a right side has few numbers, the pivots that matter come off a heap.

use crate::factors::Factors;
use basis_pivots::{Entry, Number, at};
use std::alloc::AllocError;
use std::collections::BinaryHeap;

/// A right side has few numbers where they are less than one of so many.
const FEW: usize = 20;

/// The heap is used for one of so many pivots.
const HEAPED: usize = 8;

/// Takes a multiple of a list away.
#[inline(always)]
fn subtract_list<T: Number>(values: &mut [T], factor: T, list: &[Entry<T>]) {
    for entry in list {
        let place = entry.at as usize;
        if place < values.len() {
            values[place] = values[place].less_product(factor, entry.value);
        }
    }
}

/// The number at a place, which is set to 0.
#[inline(always)]
fn moved<T: Number>(values: &mut [T], place: u32) -> T {
    let place = place as usize;
    if place < values.len() {
        let value = values[place];
        if !value.is_zero() {
            values[place] = T::zero();
        }
        value
    } else {
        T::zero()
    }
}

/// The number at a place, 0 where there is none.
#[inline(always)]
fn number_at<T: Number>(values: &[T], place: u32) -> T {
    let place = place as usize;
    if place < values.len() {
        values[place]
    } else {
        T::zero()
    }
}

/// Sets a number of the solution.
#[inline(always)]
fn set<T: Number>(solution: &mut [T], place: u32, value: T) {
    let place = place as usize;
    if place < solution.len() {
        solution[place] = value;
    }
}

/// The number of a pivot as it stands on a heap: the last one comes off first, or, from the other end, the least.
#[inline(always)]
fn key(number: u32, is_turned: bool) -> u32 {
    if is_turned { u32::MAX - number } else { number }
}

/// The pivots of these rows or columns come onto the heap.
fn heap_up(
    heap: &mut BinaryHeap<u32>,
    pivots: &[u32],
    places: &[u32],
    is_turned: bool,
) -> Result<(), AllocError> {
    for place in places {
        heap.push(key(at(pivots, *place), is_turned))?;
    }
    Ok(())
}

/// The same for those of a list whose numbers are 0; the others are on the heap already.
#[inline(always)]
fn heap_new<T: Number>(
    heap: &mut BinaryHeap<u32>,
    pivots: &[u32],
    values: &[T],
    list: &[Entry<T>],
    is_turned: bool,
) -> Result<(), AllocError> {
    for entry in list {
        if number_at(values, entry.at).is_zero() {
            heap.push(key(at(pivots, entry.at), is_turned))?;
        }
    }
    Ok(())
}

impl<T: Number> Factors<T> {
    fn is_few(&self, count: usize) -> bool {
        count > 0 && count.saturating_mul(FEW) < self.pivots.len()
    }

    /// Solves a system: from a right side by row, which is 0 behind it, to the solution by column, which is 0
    /// before; `found` gets the places of the solution that aren't 0. `given` are the rows of the right side
    /// where they are few; it may be empty.
    pub fn forward(
        &self,
        right: &mut [T],
        given: &[u32],
        solution: &mut [T],
        found: &mut Vec<u32>,
    ) -> Result<(), AllocError> {
        let mut heap = BinaryHeap::new(*found.allocator());
        let mut from = self.pivots.len();
        if self.is_few(given.len()) {
            heap_up(&mut heap, &self.of_row, given, false)?;
            self.lower_few(right, &mut heap)?;
            from = self.upper_few(right, solution, found, &mut heap)?;
        } else {
            self.lower_all(right);
        }
        self.upper_all(from, right, solution, found)
    }

    /// Takes the rows of pivots away, in order.
    fn lower_all(&self, right: &mut [T]) {
        for number in &self.busy {
            let value = self.lower_value(*number as usize, right);
            if !value.is_zero() {
                subtract_list(right, value, self.lower.list(*number as usize));
            }
        }
    }

    fn lower_few(&self, right: &mut [T], heap: &mut BinaryHeap<u32>) -> Result<(), AllocError> {
        for number in &self.busy {
            let value = self.lower_value(*number as usize, right);
            if !value.is_zero() {
                let list = self.lower.list(*number as usize);
                heap_new(heap, &self.of_row, right, list, false)?;
                subtract_list(right, value, list);
            }
        }
        Ok(())
    }

    /// The right side in the row of a pivot.
    #[inline(always)]
    fn lower_value(&self, number: usize, right: &[T]) -> T {
        if number < self.pivots.len() {
            number_at(right, self.pivots[number].row)
        } else {
            T::zero()
        }
    }

    /// The pivots below a number, from the last one on.
    fn upper_all(
        &self,
        from: usize,
        right: &mut [T],
        solution: &mut [T],
        found: &mut Vec<u32>,
    ) -> Result<(), AllocError> {
        for number in (0..from).rev() {
            let value = self.upper_value(number, right, solution, found)?;
            if !value.is_zero() {
                subtract_list(right, value, self.upper_columns.list(number));
            }
        }
        Ok(())
    }

    /// The pivots of the heap, until they are many: the number below which none is done.
    fn upper_few(
        &self,
        right: &mut [T],
        solution: &mut [T],
        found: &mut Vec<u32>,
        heap: &mut BinaryHeap<u32>,
    ) -> Result<usize, AllocError> {
        let mut from = 0;
        for _step in 0..self.pivots.len() / HEAPED {
            let Some(number) = heap.pop() else {
                return Ok(0);
            };
            from = number as usize;
            let value = self.upper_value(from, right, solution, found)?;
            if !value.is_zero() {
                let list = self.upper_columns.list(from);
                heap_new(heap, &self.of_row, right, list, false)?;
                subtract_list(right, value, list);
            }
        }
        Ok(from)
    }

    /// The number of the solution at a pivot, which is put there where it isn't 0.
    #[inline(always)]
    fn upper_value(
        &self,
        number: usize,
        right: &mut [T],
        solution: &mut [T],
        found: &mut Vec<u32>,
    ) -> Result<T, AllocError> {
        if number < self.pivots.len() {
            let pivot = self.pivots[number];
            let value = moved(right, pivot.row);
            if !value.is_zero() {
                let value = value.times(pivot.inverse);
                set(solution, pivot.column, value);
                found.push(pivot.column)?;
                return Ok(value);
            }
        }
        Ok(T::zero())
    }

    /// Solves a system of the transposed matrix: from costs by column, which are 0 behind it, to multipliers by
    /// row, which are 0 before. `given` are the columns of the costs where they are few; it may be empty.
    pub fn backward(
        &self,
        costs: &mut [T],
        given: &[u32],
        solution: &mut [T],
        found: &mut Vec<u32>,
    ) -> Result<(), AllocError> {
        let mut heap = BinaryHeap::new(*found.allocator());
        let mut from = 0;
        if self.is_few(given.len()) {
            heap_up(&mut heap, &self.of_column, given, true)?;
            from = self.rows_few(costs, solution, found, &mut heap)?;
        }
        self.rows_all(from, costs, solution, found)?;
        self.lower_back(solution, found)
    }

    /// The pivots from a number on.
    fn rows_all(
        &self,
        from: usize,
        costs: &mut [T],
        solution: &mut [T],
        found: &mut Vec<u32>,
    ) -> Result<(), AllocError> {
        for number in from..self.pivots.len() {
            let value = self.row_value(number, costs, solution, found)?;
            if !value.is_zero() {
                subtract_list(costs, value, self.upper.list(number));
            }
        }
        Ok(())
    }

    /// The pivots of the heap, until they are many: the number from which on none is done.
    fn rows_few(
        &self,
        costs: &mut [T],
        solution: &mut [T],
        found: &mut Vec<u32>,
        heap: &mut BinaryHeap<u32>,
    ) -> Result<usize, AllocError> {
        let mut from = 0;
        for _step in 0..self.pivots.len() / HEAPED {
            let Some(number) = heap.pop() else {
                return Ok(self.pivots.len());
            };
            from = (u32::MAX - number) as usize;
            let value = self.row_value(from, costs, solution, found)?;
            if !value.is_zero() {
                let list = self.upper.list(from);
                heap_new(heap, &self.of_column, costs, list, true)?;
                subtract_list(costs, value, list);
            }
        }
        Ok(from)
    }

    /// The multiplier at a pivot, which is put there where it isn't 0.
    #[inline(always)]
    fn row_value(
        &self,
        number: usize,
        costs: &mut [T],
        solution: &mut [T],
        found: &mut Vec<u32>,
    ) -> Result<T, AllocError> {
        if number < self.pivots.len() {
            let pivot = self.pivots[number];
            let value = moved(costs, pivot.column);
            if !value.is_zero() {
                let value = value.times(pivot.inverse);
                set(solution, pivot.row, value);
                found.push(pivot.row)?;
                return Ok(value);
            }
        }
        Ok(T::zero())
    }

    /// Undoes the steps of elimination, from the last one on.
    fn lower_back(&self, solution: &mut [T], found: &mut Vec<u32>) -> Result<(), AllocError> {
        for number in self.busy.iter().rev() {
            let number = *number as usize;
            if number < self.pivots.len() {
                let row = self.pivots[number].row;
                let before = number_at(solution, row);
                let value = less_products(before, solution, self.lower.list(number));
                if before.is_zero() && !value.is_zero() {
                    found.push(row)?;
                }
                set(solution, row, value);
            }
        }
        Ok(())
    }
}

/// A number less the products of a list.
#[inline(always)]
fn less_products<T: Number>(start: T, values: &[T], list: &[Entry<T>]) -> T {
    let mut value = start;
    for entry in list {
        let other = number_at(values, entry.at);
        if !other.is_zero() {
            value = value.less_product(other, entry.value);
        }
    }
    value
}
