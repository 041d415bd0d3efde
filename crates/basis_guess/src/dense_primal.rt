//! The primal simplex method on a dense tableau.

use crate::dense::Dense;
use crate::solver::End;
use bounded_basis::{Standing, TOLERANCE};

/// Behind so many steps the first column with a wrong reduced cost enters.
const MANY: usize = 100;

/// The place whose reduced cost is wrong by most, or the first such place.
fn entering(dense: &Dense, tolerance: f64, is_first: bool) -> Option<usize> {
    let mut best = None;
    let mut most = 0.0;
    for place in 0..dense.place_count() {
        let spot = dense.resting(place);
        if spot.is_wrong(tolerance) && spot.price.abs() > most {
            if is_first {
                return Some(place);
            }
            most = spot.price.abs();
            best = Some(place);
        }
    }
    best
}

/// How far the basic one of a line may move at this speed until its bound.
#[inline(always)]
fn room(dense: &Dense, line: usize, speed: f64) -> f64 {
    let spot = dense.basic(line);
    let length = if speed > 0.0 {
        spot.high - spot.value
    } else {
        spot.value - spot.low
    };
    if length > 0.0 { length } else { 0.0 }
}

/// The longest step that no basic one passes its bound by more than the tolerance.
fn longest(dense: &Dense, place: usize, up: f64) -> f64 {
    let mut limit = f64::INFINITY;
    for line in 0..dense.line_count() {
        let speed = dense.number(line, place) * up;
        if Dense::is_pivot(speed) {
            let ratio = (room(dense, line, speed) + TOLERANCE) / speed.abs();
            if ratio < limit {
                limit = ratio;
            }
        }
    }
    limit
}

/// Of those that the step brings to their bounds the line that moves fastest.
fn leaving(dense: &Dense, place: usize, up: f64, limit: f64) -> Option<usize> {
    let mut best = None;
    let mut most = 0.0;
    for line in 0..dense.line_count() {
        let speed = dense.number(line, place) * up;
        if Dense::is_pivot(speed) {
            let size = speed.abs();
            if room(dense, line, speed) <= limit * size && size > most {
                most = size;
                best = Some(line);
            }
        }
    }
    best
}

/// A column enters, up or down, and goes to its other bound or takes the place of another one.
fn enter(dense: &mut Dense, place: usize) -> Option<End> {
    let spot = dense.resting(place);
    let up = if spot.price < 0.0 { 1.0 } else { -1.0 };
    let limit = longest(dense, place, up);
    let range = spot.high - spot.low;
    if range.is_finite() && range <= limit {
        dense.flip(place);
        return None;
    }
    if !limit.is_finite() {
        return Some(End::Unbounded);
    }
    let Some(line) = leaving(dense, place, up, limit) else {
        return Some(End::Lost);
    };
    let standing = if dense.number(line, place) * up > 0.0 {
        Standing::High
    } else {
        Standing::Low
    };
    dense.enter(line, place, standing);
    None
}

/// Lowers the cost as far as it goes.
pub(crate) fn primal(dense: &mut Dense, tolerance: f64, turns: usize) -> End {
    for turn in 0..turns {
        dense.find_values();
        let Some(place) = entering(dense, tolerance, turn > MANY) else {
            return End::Optimal;
        };
        if let Some(end) = enter(dense, place) {
            return end;
        }
    }
    End::Lost
}
