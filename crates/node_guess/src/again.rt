//! The basis of a node's last solve again, where it is the best one at the new trial too: exact numbers alone show it. Only for nodes
//! without children, whose rows and costs stay the same from solve to solve.

use crate::answers::lone_guess;
use basis_factors::Entry;
use basis_guess::Standing;
use cut_defs::ColumnBounds;
use exact_systems::System;
use frac128::{ArithmeticFault, Frac, Memory, Passed};
use node_draft::{Hint, is_priced, place_of};
use node_lp::{Guess, Task};
use scen_defs::NodeRow;
use std::alloc::Global;

/// A basis with more rows is large: where it isn't the best one, much was done in vain.
const LARGE: usize = 32;

/// No place at all.
const NONE: u32 = u32::MAX;

/// The basis: the rows that stand at an end, the basic columns, and the place of each column among these.
#[derive(Drop)]
struct Known {
    rows: Vec<u32>,
    columns: Vec<u32>,
    places: Vec<u32>,
}

/// The number of a place.
fn narrow(place: usize) -> u32 {
    if place < NONE as usize {
        place as u32
    } else {
        NONE
    }
}

/// The number at a place, 0 where there is none.
#[inline(always)]
fn at(numbers: &[Frac], place: usize) -> Frac {
    if place < numbers.len() {
        numbers[place]
    } else {
        Frac::zero()
    }
}

/// Writes a number at a place, if the list has it.
fn put(numbers: &mut [Frac], place: usize, value: Frac) {
    if place < numbers.len() {
        numbers[place] = value;
    }
}

/// The place at a place, none where there is none.
#[inline(always)]
fn place_at(places: &[u32], place: usize) -> u32 {
    if place < places.len() {
        places[place]
    } else {
        NONE
    }
}

/// So many numbers that are 0.
fn zeros(alloc: Global, count: usize) -> Result<Vec<Frac>, Memory> {
    let mut all = Vec::new(alloc);
    all.resize(count, Frac::zero())?;
    Ok(all)
}

/// Whether a hint is of a node like the task's, and the node has no children.
fn fits(task: &Task, hint: &Hint) -> bool {
    let datum = &task.datum;
    datum.shares().is_empty()
        && task.children.is_empty()
        && hint.columns.len() == datum.bounds().len()
        && hint.rows.len() == datum.rows().len()
}

/// The basis that a hint tells; none where it has more rows than columns, or fewer, and where it is large.
fn basis_told(alloc: Global, hint: &Hint) -> Result<Option<Known>, Memory> {
    let mut all = Known {
        rows: Vec::with_capacity(alloc, hint.rows.len())?,
        columns: Vec::with_capacity(alloc, hint.rows.len())?,
        places: Vec::with_capacity(alloc, hint.columns.len())?,
    };
    for (row, standing) in hint.rows.iter().enumerate() {
        if *standing != Standing::Basic {
            all.rows.push(narrow(row))?;
        }
    }
    for (column, standing) in hint.columns.iter().enumerate() {
        if *standing == Standing::Basic {
            let place = narrow(all.columns.len());
            all.places.push(place)?;
            all.columns.push(narrow(column))?;
        } else {
            all.places.push(NONE)?;
        }
    }
    Ok(if all.rows.len() == all.columns.len() && all.rows.len() <= LARGE {
        Some(all)
    } else {
        None
    })
}

/// Where a column rests, 0 where it is basic; none where it has no such bound.
fn resting_value(bound: &ColumnBounds, standing: Standing) -> Option<Frac> {
    match standing {
        Standing::Low => bound.lower,
        Standing::High => bound.upper,
        Standing::Basic | Standing::Free => Some(Frac::zero()),
    }
}

/// Where all columns rest.
fn resting(alloc: Global, task: &Task, hint: &Hint) -> Result<Option<Vec<Frac>>, Memory> {
    let bounds = task.datum.bounds();
    let mut all = Vec::with_capacity(alloc, bounds.len())?;
    for (bound, standing) in bounds.iter().zip(hint.columns.iter()) {
        match resting_value(bound, *standing) {
            Some(value) => all.push(value)?,
            None => {
                return Ok(None);
            }
        }
    }
    Ok(Some(all))
}

/// A row's entries in the basic columns.
fn own_entries(
    alloc: Global,
    task: &Task,
    known: &Known,
    row: &NodeRow,
) -> Result<Vec<Entry<Frac>>, Memory> {
    let mut all = Vec::with_capacity(alloc, row.entries.len())?;
    for term in row.entries.terms() {
        if let Some(column) = place_of(task.datum.bounds(), term.column) {
            let place = place_at(&known.places, column as usize);
            if place != NONE {
                all.push(Entry {
                    at: place,
                    value: term.value,
                })?;
            }
        }
    }
    Ok(all)
}

/// The system of the basis.
fn system(alloc: Global, task: &Task, known: &Known) -> Result<Option<System>, Memory> {
    let rows = task.datum.rows();
    let mut all = Vec::with_capacity(alloc, known.rows.len())?;
    for row in &known.rows {
        let row = *row as usize;
        if row < rows.len() {
            all.push(own_entries(alloc, task, known, &rows[row])?)?;
        }
    }
    System::of(alloc, all)
}

/// A row's activity at a point and the trial.
fn activity(task: &Task, row: &NodeRow, point: &[Frac]) -> Result<Frac, Passed> {
    let mut sum = Frac::zero();
    for term in row.entries.terms() {
        let value = match place_of(task.datum.bounds(), term.column) {
            Some(column) => at(point, column as usize),
            None => task.trial.get(term.column),
        };
        if !value.is_zero() {
            sum = sum.add_product(term.value, value)?;
        }
    }
    Ok(sum)
}

/// The end at which a row stands.
fn end_of(row: &NodeRow, standing: Standing) -> Option<Frac> {
    match standing {
        Standing::Low => row.low,
        Standing::High => row.high,
        Standing::Basic | Standing::Free => None,
    }
}

/// How a row or a column stands.
fn standing_at(list: &[Standing], place: usize) -> Standing {
    if place < list.len() {
        list[place]
    } else {
        Standing::Basic
    }
}

/// What the basic columns have to come to, by row.
fn right_sides(
    alloc: Global,
    task: &Task,
    hint: &Hint,
    known: &Known,
    point: &[Frac],
) -> Result<Option<Vec<Frac>>, ArithmeticFault> {
    let rows = task.datum.rows();
    let mut all = Vec::with_capacity(alloc, known.rows.len())?;
    for number in &known.rows {
        let place = *number as usize;
        if place >= rows.len() {
            return Ok(None);
        }
        let row = &rows[place];
        let Some(end) = end_of(row, standing_at(&hint.rows, place)) else {
            return Ok(None);
        };
        all.push(end.sub(activity(task, row, point)?)?)?;
    }
    Ok(Some(all))
}

/// Whether a value lies between two ends.
fn is_between(low: Option<Frac>, high: Option<Frac>, value: Frac) -> bool {
    if let Some(low) = low {
        if value < low {
            return false;
        }
    }
    if let Some(high) = high {
        if high < value {
            return false;
        }
    }
    true
}

/// Whether the basic columns, and the rows that stand at no end, are within their bounds.
fn is_within(task: &Task, hint: &Hint, known: &Known, point: &[Frac]) -> Result<bool, Passed> {
    let bounds = task.datum.bounds();
    for column in &known.columns {
        let place = *column as usize;
        if place < bounds.len() {
            let bound = &bounds[place];
            if !is_between(bound.lower, bound.upper, at(point, place)) {
                return Ok(false);
            }
        }
    }
    for (row, standing) in task.datum.rows().iter().zip(hint.rows.iter()) {
        if *standing == Standing::Basic
            && !is_between(row.low, row.high, activity(task, row, point)?)
        {
            return Ok(false);
        }
    }
    Ok(true)
}

/// Whether a price fits what stands so between two ends.
fn is_priced_right(low: Option<Frac>, high: Option<Frac>, standing: Standing, price: Frac) -> bool {
    let sign = price.sign();
    if sign == 0 {
        return true;
    }
    if let (Some(low), Some(high)) = (low, high) {
        if low == high {
            return true;
        }
    }
    match standing {
        Standing::Low => sign > 0,
        Standing::High => sign < 0,
        Standing::Basic | Standing::Free => false,
    }
}

/// The costs of the own columns.
fn costs_of(alloc: Global, task: &Task) -> Result<Vec<Frac>, Memory> {
    let mut all = zeros(alloc, task.datum.bounds().len())?;
    for term in task.datum.cost().terms() {
        if let Some(column) = place_of(task.datum.bounds(), term.column) {
            put(&mut all, column as usize, term.value);
        }
    }
    Ok(all)
}

/// The costs of the basic columns.
fn basic_costs(alloc: Global, known: &Known, costs: &[Frac]) -> Result<Vec<Frac>, Memory> {
    let mut all = Vec::with_capacity(alloc, known.columns.len())?;
    for column in &known.columns {
        all.push(at(costs, *column as usize))?;
    }
    Ok(all)
}

/// Takes a multiple of a row off the costs.
fn take_row(
    costs: &mut [Frac],
    task: &Task,
    row: &NodeRow,
    multiplier: Frac,
) -> Result<(), Passed> {
    for term in row.entries.terms() {
        if let Some(column) = place_of(task.datum.bounds(), term.column) {
            let place = column as usize;
            let left = at(costs, place).less_product(term.value, multiplier)?;
            put(costs, place, left);
        }
    }
    Ok(())
}

/// Whether multipliers of the rows at their ends are good.
fn are_right(
    task: &Task,
    hint: &Hint,
    multipliers: &[Frac],
    costs: &mut [Frac],
) -> Result<bool, Passed> {
    for ((row, standing), multiplier) in task
        .datum
        .rows()
        .iter()
        .zip(hint.rows.iter())
        .zip(multipliers.iter())
    {
        if !is_priced_right(row.low, row.high, *standing, *multiplier) {
            return Ok(false);
        }
        if !multiplier.is_zero() {
            take_row(costs, task, row, *multiplier)?;
        }
    }
    for ((bound, standing), price) in task
        .datum
        .bounds()
        .iter()
        .zip(hint.columns.iter())
        .zip(costs.iter())
    {
        if !is_priced_right(bound.lower, bound.upper, *standing, *price) {
            return Ok(false);
        }
    }
    Ok(true)
}

/// The multipliers of the basis, where they are good; none at all where nothing is priced.
fn multipliers_of(
    alloc: Global,
    task: &Task,
    hint: &Hint,
    known: &Known,
    system: &System,
) -> Result<Option<Vec<Frac>>, ArithmeticFault> {
    if !is_priced(task) {
        return Ok(Some(Vec::new(alloc)));
    }
    let mut costs = costs_of(alloc, task)?;
    let wanted = basic_costs(alloc, known, &costs)?;
    let Some(found) = system.solve_transposed(alloc, &wanted)? else {
        return Ok(None);
    };
    let mut all = zeros(alloc, task.datum.rows().len())?;
    for (row, value) in known.rows.iter().zip(found.iter()) {
        put(&mut all, *row as usize, *value);
    }
    Ok(if are_right(task, hint, &all, &mut costs)? {
        Some(all)
    } else {
        None
    })
}

/// The point of the basis, where it is within all bounds.
fn point_of(
    alloc: Global,
    task: &Task,
    hint: &Hint,
    known: &Known,
    system: &System,
) -> Result<Option<Vec<Frac>>, ArithmeticFault> {
    let Some(mut point) = resting(alloc, task, hint)? else {
        return Ok(None);
    };
    let Some(right) = right_sides(alloc, task, hint, known, &point)? else {
        return Ok(None);
    };
    let Some(found) = system.solve(alloc, &right)? else {
        return Ok(None);
    };
    for (column, value) in known.columns.iter().zip(found.iter()) {
        put(&mut point, *column as usize, *value);
    }
    Ok(if is_within(task, hint, known, &point)? {
        Some(point)
    } else {
        None
    })
}

/// The point and the multipliers of the basis of a hint, where they are best.
fn found(alloc: Global, task: &Task, hint: &Hint) -> Result<Option<Guess>, ArithmeticFault> {
    let Some(known) = basis_told(alloc, hint)? else {
        return Ok(None);
    };
    let Some(system) = system(alloc, task, &known)? else {
        return Ok(None);
    };
    let Some(point) = point_of(alloc, task, hint, &known, &system)? else {
        return Ok(None);
    };
    let Some(multipliers) = multipliers_of(alloc, task, hint, &known, &system)? else {
        return Ok(None);
    };
    Ok(Some(lone_guess(alloc, task, &point, &multipliers)?))
}

/// The guess that a hint tells, where a node has no children and the hint's basis is still the best one.
pub(crate) fn again(
    alloc: Global,
    task: &Task,
    hint: &Option<Hint>,
) -> Result<Option<Guess>, Memory> {
    let Some(hint) = hint else {
        return Ok(None);
    };
    if !fits(task, hint) {
        return Ok(None);
    }
    match found(alloc, task, hint) {
        Ok(guess) => Ok(guess),
        Err(ArithmeticFault::Passed(_)) => Ok(None),
        Err(ArithmeticFault::Memory) => Err(Memory),
    }
}
