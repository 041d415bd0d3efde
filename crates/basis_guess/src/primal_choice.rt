//! What enters and what leaves in the primal simplex method: Devex weights, and Harris's ratio test (P. M. J. Harris,
//! Pivot selection methods of the Devex LP code, 1973).

use crate::dual_choice::PIVOT;
use bounded_basis::{Basis, Spot, TOLERANCE, Vector};

/// The column with the greatest square of the reduced cost for its weight; the first one with a wrong sign where the
/// steps have gained nothing for long.
pub(crate) fn entering(
    spots: &[Spot],
    weights: &[f64],
    tolerance: f64,
    is_stalled: bool,
) -> Option<usize> {
    let mut best = None;
    let mut most = 0.0;
    for (column, (spot, weight)) in spots.iter().zip(weights.iter()).enumerate() {
        if spot.is_wrong(tolerance) {
            if is_stalled {
                return Some(column);
            }
            let merit = spot.price * spot.price / *weight;
            if merit > most {
                most = merit;
                best = Some(column);
            }
        }
    }
    best
}

/// What bounds the step of the entering column.
#[derive(Clone, Copy)]
pub(crate) enum Leave {
    /// The basic column at this position, at this length.
    Position(usize, f64),
    /// Its own other bound, at this length.
    Flip(f64),
    /// Nothing.
    Never,
}

/// How far a basic column may move until its bound, and how fast it does.
#[derive(Clone, Copy)]
struct Room {
    length: f64,
    speed: f64,
}

/// The room of the basic column at a position; none where it doesn't move.
#[inline(always)]
fn room_of(basis: &Basis, up: f64, column: &Vector, position: usize) -> Option<Room> {
    let speed = up * column.at(position);
    if !(speed.abs() >= PIVOT) {
        return None;
    }
    let spot = basis.basic(position);
    let length = if speed > 0.0 {
        spot.value - spot.low
    } else {
        spot.high - spot.value
    };
    Some(Room {
        length: if length > 0.0 { length } else { 0.0 },
        speed: speed.abs(),
    })
}

/// The longest step that no basic column passes its bound by more than the tolerance.
fn longest(basis: &Basis, up: f64, column: &Vector) -> f64 {
    let mut limit = f64::INFINITY;
    for place in &column.places {
        if let Some(room) = room_of(basis, up, column, *place as usize) {
            let ratio = (room.length + TOLERANCE) / room.speed;
            if ratio < limit {
                limit = ratio;
            }
        }
    }
    limit
}

/// Of those that the step brings to their bounds the one that moves fastest.
fn fastest(basis: &Basis, up: f64, column: &Vector, limit: f64) -> Leave {
    let mut best = Leave::Never;
    let mut most = 0.0;
    for place in &column.places {
        let position = *place as usize;
        if let Some(room) = room_of(basis, up, column, position) {
            if room.length <= limit * room.speed && room.speed > most {
                most = room.speed;
                best = Leave::Position(position, room.length / room.speed);
            }
        }
    }
    best
}

/// What leaves where a column enters, up or down.
pub(crate) fn leaving(basis: &Basis, enter: usize, up: f64, column: &Vector) -> Leave {
    let limit = longest(basis, up, column);
    let spot = basis.spot(enter);
    let range = spot.high - spot.low;
    if range <= limit && range.is_finite() {
        Leave::Flip(range)
    } else if limit.is_finite() {
        fastest(basis, up, column, limit)
    } else {
        Leave::Never
    }
}
