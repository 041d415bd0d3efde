//! The parts of a step of the dual simplex method.

use bounded_basis::{
    Basis, Spot, Standing, Vector, add_value, number, set_number, set_price, set_standing,
};
use std::alloc::AllocError;

/// The least weight of an edge.
const LEAST_WEIGHT: f64 = 1e-4;

/// Takes a multiple of a column of the tableau off the values of the basic columns.
pub(crate) fn move_basic(spots: &mut [Spot], head: &[u32], length: f64, column: &Vector) {
    for place in &column.places {
        let position = *place as usize;
        if position < head.len() {
            let by = -(length * column.at(position));
            add_value(spots, head[position] as usize, by);
        }
    }
}

/// Brings columns to their other bounds; `change` is what that makes of the basic ones. False where there are none.
pub(crate) fn flip(
    basis: &mut Basis,
    flips: &[u32],
    change: &mut Vector,
) -> Result<bool, AllocError> {
    if flips.is_empty() {
        return Ok(false);
    }
    for column in flips {
        flip_one(basis, *column as usize)?;
    }
    basis.forward(change)?;
    move_basic(&mut basis.spots, &basis.head, 1.0, change);
    Ok(true)
}

fn flip_one(basis: &mut Basis, column: usize) -> Result<(), AllocError> {
    let spot = basis.spot(column);
    let (standing, to) = match spot.standing {
        Standing::Low => (Standing::High, spot.high),
        _ => (Standing::Low, spot.low),
    };
    set_standing(&mut basis.spots, column, standing, to);
    basis.scatter(column, to - spot.value)
}

/// The step of the reduced costs: those of the touched columns less multiples of the row.
fn move_price(spots: &mut [Spot], column: usize, by: f64) {
    if column < spots.len() && !spots[column].is_basic() {
        spots[column].price -= by;
    }
}

fn move_prices(basis: &mut Basis, length: f64) {
    for column in &basis.touched {
        let column = *column as usize;
        let by = length * number(&basis.alpha, column);
        move_price(&mut basis.spots, column, by);
    }
}

/// A wrong reduced cost of the entering column is taken for 0.
fn mend_entering(spots: &mut [Spot], enter: usize) {
    if enter < spots.len() && !spots[enter].is_right() {
        spots[enter].shift_cost();
    }
}

/// The row that leaves: its position, its column, and on which side it is beyond its bounds. Flips may have brought
/// it to its bound, so the side is told.
#[derive(Clone, Copy)]
pub(crate) struct Leaving {
    pub position: usize,
    pub out: usize,
    pub is_below: bool,
}

/// The step of the reduced costs and of the values.
pub(crate) fn step(basis: &mut Basis, leaving: Leaving, enter: usize, column: &Vector) {
    mend_entering(&mut basis.spots, enter);
    let length = basis.spot(enter).price / basis.alpha_at(enter);
    if length != 0.0 {
        move_prices(basis, length);
    }
    set_price(&mut basis.spots, enter, 0.0);
    set_price(&mut basis.spots, leaving.out, -length);
    step_values(basis, leaving, enter, column);
}

fn step_values(basis: &mut Basis, leaving: Leaving, enter: usize, column: &Vector) {
    let spot = basis.spot(leaving.out);
    let (standing, bound) = if leaving.is_below {
        (Standing::Low, spot.low)
    } else {
        (Standing::High, spot.high)
    };
    let length = (spot.value - bound) / column.at(leaving.position);
    move_basic(&mut basis.spots, &basis.head, length, column);
    add_value(&mut basis.spots, enter, length);
    set_standing(&mut basis.spots, leaving.out, standing, bound);
}

/// A weight that isn't too small.
#[inline(always)]
fn at_least(weight: f64) -> f64 {
    if weight > LEAST_WEIGHT {
        weight
    } else {
        LEAST_WEIGHT
    }
}

/// The weights behind the exchange at a position; `tau` is the inverse times the leaving row of the inverse.
pub(crate) fn reweigh(weights: &mut [f64], position: usize, column: &Vector, tau: &Vector) {
    let pivot = column.at(position);
    let weight = at_least(number(weights, position));
    for place in &column.places {
        let place = *place as usize;
        if place < weights.len() {
            let ratio = column.at(place) / pivot;
            let sum = weights[place] - 2.0 * ratio * tau.at(place) + ratio * ratio * weight;
            weights[place] = at_least(sum);
        }
    }
    set_number(weights, position, at_least(weight / (pivot * pivot)));
}

/// How far the basic columns at these positions are beyond their bounds.
pub(crate) fn exceed(excesses: &mut [f64], basis: &Basis, positions: &[u32]) {
    for position in positions {
        let position = *position as usize;
        set_number(excesses, position, basis.basic(position).excess());
    }
}
