//! A policy near the optimal one.

use crate::field::{Field, solved};
use crate::round::{at, float_at, narrow, within, zeros};
use crate::tests::{activity, is_point};
use basis_factors::Entry;
use basis_guess::{End, FloatProgram, Standing};
use basis_values::{ExactProgram, ExactRow};
use decimals::float_difference;
use exact_steps::{Equations, moved};
use frac128::{Frac, Memory};
use std::alloc::Global;

/// So often a row is moved inward, each time by sixteen times as much.
const TURNS: u32 = 7;

/// So often where the program is enlarged.
const FINE_TURNS: u32 = 4;

/// A column is moved only where it is so far within its bounds.
const INSIDE: f64 = 0.000001;

/// The rows that can't be moved stand at an end.
#[derive(Clone, Copy, PartialEq)]
enum Place {
    Inside,
    AtLow,
    AtHigh,
}

fn is_fixed(low: f64, high: f64) -> bool {
    low == high
}

/// How far a row is moved inward.
fn distance(entries: &[Entry<f64>], low: f64, high: f64, margin: f64) -> f64 {
    if is_fixed(low, high) {
        return 0.0;
    }
    let mut sum = 1.0;
    for entry in entries {
        sum += entry.value.abs();
    }
    let most = (high - low) / 4.0;
    let by = sum * margin;
    if by < most { by } else { most }
}

fn place_at(places: &[Place], number: usize) -> Place {
    if number < places.len() {
        places[number]
    } else {
        Place::Inside
    }
}

/// The program with its rows moved inward, or put to an end.
fn inward(
    alloc: Global,
    floats: &FloatProgram,
    places: &[Place],
    margin: f64,
) -> Result<FloatProgram, Memory> {
    let count = floats.column_count();
    let mut program = FloatProgram::new(alloc);
    for column in 0..count {
        program.push_column(
            floats.low_at(column),
            floats.high_at(column),
            floats.cost_at(column),
        )?;
    }
    for (number, row) in floats.rows.iter().enumerate() {
        let low = floats.low_at(count.saturating_add(number));
        let high = floats.high_at(count.saturating_add(number));
        let by = distance(row, low, high, margin);
        let (low, high) = match place_at(places, number) {
            Place::Inside => (low + by, high - by),
            Place::AtLow => (low, low),
            Place::AtHigh => (high, high),
        };
        program.push_row(Vec::from_slice(alloc, row)?, low, high)?;
    }
    Ok(program)
}

/// The program that asks how far rows can be moved inward: by row a column for each end, which takes back a part of the distance.
fn elastic(alloc: Global, floats: &FloatProgram, margin: f64) -> Result<FloatProgram, Memory> {
    let count = floats.column_count();
    let mut program = FloatProgram::new(alloc);
    for column in 0..count {
        program.push_column(floats.low_at(column), floats.high_at(column), 0.0)?;
    }
    for (number, row) in floats.rows.iter().enumerate() {
        let low = floats.low_at(count.saturating_add(number));
        let high = floats.high_at(count.saturating_add(number));
        let by = distance(row, low, high, margin);
        let up = if low.is_finite() { 1.0 } else { 0.0 };
        let down = if high.is_finite() { 1.0 } else { 0.0 };
        // In units of the distance.
        program.push_column(0.0, if by > 0.0 { up } else { 0.0 }, 1.0)?;
        program.push_column(0.0, if by > 0.0 { down } else { 0.0 }, 1.0)?;
    }
    let mut next = narrow(count);
    for (number, row) in floats.rows.iter().enumerate() {
        let low = floats.low_at(count.saturating_add(number));
        let high = floats.high_at(count.saturating_add(number));
        let by = distance(row, low, high, margin);
        let mut entries = Vec::from_slice(alloc, row)?;
        if by > 0.0 {
            entries.push(Entry {
                at: next,
                value: by,
            })?;
            entries.push(Entry {
                at: next.saturating_add(1),
                value: -by,
            })?;
        }
        next = next.saturating_add(2);
        program.push_row(entries, low + by, high - by)?;
    }
    Ok(program)
}

/// Which rows can't be moved inward; none where that isn't found.
fn places(
    alloc: Global,
    floats: &FloatProgram,
    margin: f64,
    work: &mut u64,
) -> Result<Option<Vec<Place>>, Memory> {
    let program = elastic(alloc, floats, margin)?;
    let mut standings: Vec<Standing> = Vec::new(alloc);
    let ended = solved(alloc, &program, &mut standings, work)?;
    if ended.end != End::Optimal {
        return Ok(None);
    }
    let mut all = Vec::new(alloc);
    let mut next = floats.column_count();
    for _row in 0..floats.row_count() {
        let up = float_at(&ended.point, next);
        let down = float_at(&ended.point, next.saturating_add(1));
        all.push(if up > 0.001 {
            Place::AtLow
        } else if down > 0.001 {
            Place::AtHigh
        } else {
            Place::Inside
        })?;
        next = next.saturating_add(2);
    }
    Ok(Some(all))
}

/// The end that a row is put to, where it is.
fn end_of(row: &ExactRow, place: Place) -> Option<Frac> {
    match place {
        Place::AtLow => row.low,
        Place::AtHigh => row.high,
        Place::Inside => match (row.low, row.high) {
            (Some(low), Some(high)) => { if low == high { Some(low) } else { None } }
            _ => None,
        },
    }
}

/// Which columns may be moved: those within their bounds.
fn are_inside(alloc: Global, program: &ExactProgram, point: &[Frac]) -> Result<Vec<bool>, Memory> {
    let mut all = Vec::new(alloc);
    for (place, column) in program.columns().iter().enumerate() {
        let value = at(point, place);
        let above = match column.low {
            Some(low) => float_difference(value, low) > INSIDE,
            None => true,
        };
        let below = match column.high {
            Some(high) => float_difference(high, value) > INSIDE,
            None => true,
        };
        all.push(above && below)?;
    }
    Ok(all)
}

/// The rows that stand at an end, as equations over the columns that may be moved; none where a sum passes.
fn equations(
    alloc: Global,
    program: &ExactProgram,
    places: &[Place],
    point: &[Frac],
) -> Result<Option<Equations>, Memory> {
    let inside = are_inside(alloc, program, point)?;
    let mut all = Equations {
        rows: Vec::new(alloc),
        rests: Vec::new(alloc),
    };
    for (number, row) in program.rows().iter().enumerate() {
        if let Some(end) = end_of(row, place_at(places, number)) {
            let Some(sum) = activity(row, point) else {
                return Ok(None);
            };
            let Ok(rest) = end.sub(sum) else {
                return Ok(None);
            };
            let mut entries = Vec::new(alloc);
            for entry in &row.entries {
                let place = entry.at as usize;
                if place < inside.len() && inside[place] && !entry.value.is_zero() {
                    entries.push(Entry {
                        at: entry.at,
                        value: entry.value,
                    })?;
                }
            }
            all.rows.push(entries)?;
            all.rests.push(rest)?;
        }
    }
    Ok(Some(all))
}

/// The point of floats with few places.
fn rounded_point(
    alloc: Global,
    program: &ExactProgram,
    field: &Field,
    values: &[f64],
) -> Result<Vec<Frac>, Memory> {
    let mut point = zeros(alloc, 0)?;
    for (place, column) in program.columns().iter().enumerate() {
        let value = field.number(place, float_at(values, place));
        point.push(within(column.low, column.high, value))?;
    }
    Ok(point)
}

/// The point of floats, rounded, with equal ends met exactly; none where it misses a row or a bound.
fn met(
    alloc: Global,
    program: &ExactProgram,
    field: &Field,
    places: &[Place],
    values: &[f64],
    work: &mut u64,
) -> Result<Option<Vec<Frac>>, Memory> {
    let mut point = rounded_point(alloc, program, field, values)?;
    let Some(equations) = equations(alloc, program, places, &point)? else {
        return Ok(None);
    };
    let Some(moves) = equations.moves(alloc, program.column_count(), work)? else {
        return Ok(None);
    };
    if moved(&mut point, &moves) && is_point(program, &point) {
        Ok(Some(point))
    } else {
        Ok(None)
    }
}

/// The point where the rows are moved inward by this margin; none where it misses a row or a bound, and a wider margin may do.
fn point_at(
    alloc: Global,
    program: &ExactProgram,
    field: &Field,
    margin: f64,
    standings: &mut Vec<Standing>,
    work: &mut u64,
) -> Result<Option<Vec<Frac>>, Memory> {
    let mut put: Vec<Place> = Vec::new(alloc);
    let first = inward(alloc, &field.floats, &put, margin)?;
    let mut ended = solved(alloc, &first, standings, work)?;
    if ended.end != End::Optimal {
        match places(alloc, &field.floats, margin, work)? {
            Some(found) => put = found,
            None => return Ok(None),
        }
        let second = inward(alloc, &field.floats, &put, margin)?;
        ended = solved(alloc, &second, standings, work)?;
    }
    if ended.end != End::Optimal {
        return Ok(None);
    }
    met(alloc, program, field, &put, &ended.point, work)
}

/// The point by one margin after the other, a few at most.
fn by_margins(
    alloc: Global,
    program: &ExactProgram,
    field: &Field,
    turns: u32,
    standings: &mut Vec<Standing>,
    work: &mut u64,
) -> Result<Option<Vec<Frac>>, Memory> {
    let mut margin = field.margin();
    for _turn in 0..turns {
        if *work == 0 {
            return Ok(None);
        }
        if let Some(point) = point_at(alloc, program, field, margin, standings, work)? {
            return Ok(Some(point));
        }
        margin *= 16.0;
    }
    Ok(None)
}

/// A policy near the optimal one; none where none is found within the work that is left. `standings` become those of the optimal basis
/// of floats. What floats find is looked at enlarged, so that the margin may be small; where that doesn't do, as it is.
pub fn near_point(
    alloc: Global,
    program: &ExactProgram,
    standings: &mut Vec<Standing>,
    work: &mut u64,
) -> Result<Option<Vec<Frac>>, Memory> {
    let whole = Field::whole(alloc, program)?;
    let first = solved(alloc, &whole.floats, standings, work)?;
    let mut start = Vec::from_slice(alloc, standings)?;
    if first.end == End::Optimal {
        let point = rounded_point(alloc, program, &whole, &first.point)?;
        let enlarged = Field::around(alloc, program, point)?;
        if let Some(found) = by_margins(alloc, program, &enlarged, FINE_TURNS, &mut start, work)? {
            return Ok(Some(found));
        }
    }
    by_margins(alloc, program, &whole, TURNS, &mut start, work)
}
