//! The dual simplex method on a dense tableau.

use crate::dense::Dense;
use crate::solver::End;
use bounded_basis::{Spot, Standing, narrow};

/// How far reduced costs may pass 0.
const HARRIS: f64 = 1e-9;

/// The reduced cost that a step brings towards 0, where a resting column's number in the line has this sign; none where it may not enter.
#[inline(always)]
fn approaching(spot: &Spot, number: f64) -> Option<f64> {
    if !Dense::is_pivot(number) || spot.is_fixed() {
        return None;
    }
    let price = match spot.standing {
        Standing::Low if number > 0.0 => spot.price,
        Standing::High if number < 0.0 => -spot.price,
        Standing::Free => 0.0,
        _ => {
            return None;
        }
    };
    Some(if price > 0.0 { price } else { 0.0 })
}

/// The longest step that no reduced cost passes 0 by more than the tolerance.
fn longest(dense: &Dense, line: usize, sign: f64) -> f64 {
    let mut limit = f64::INFINITY;
    for place in 0..dense.place_count() {
        let number = dense.number(line, place) * sign;
        if let Some(price) = approaching(&dense.resting(place), number) {
            let ratio = (price + HARRIS) / number.abs();
            if ratio < limit {
                limit = ratio;
            }
        }
    }
    limit
}

/// Of those that the step reaches the place with the largest number.
fn entering(dense: &Dense, line: usize, sign: f64) -> Option<usize> {
    let limit = longest(dense, line, sign);
    let mut best = None;
    let mut most = 0.0;
    for place in 0..dense.place_count() {
        let number = dense.number(line, place) * sign;
        if let Some(price) = approaching(&dense.resting(place), number) {
            let size = number.abs();
            if price <= limit * size && size > most {
                most = size;
                best = Some(place);
            }
        }
    }
    best
}

/// One step, or the end.
fn turn(dense: &mut Dense) -> Option<End> {
    dense.find_values();
    let Some(line) = dense.leaving() else {
        return Some(End::Optimal);
    };
    let is_below = dense.basic(line).excess() < 0.0;
    let out = dense.at(line);
    let sign = if is_below { 1.0 } else { -1.0 };
    let Some(place) = entering(dense, line, sign) else {
        return Some(End::Infeasible {
            column: narrow(out),
            is_below,
        });
    };
    let standing = if is_below {
        Standing::Low
    } else {
        Standing::High
    };
    dense.enter(line, place, standing);
    None
}

/// Brings all basic columns within their bounds.
pub(crate) fn dual(dense: &mut Dense, turns: usize) -> End {
    for _turn in 0..turns {
        if let Some(end) = turn(dense) {
            return end;
        }
    }
    End::Lost
}
