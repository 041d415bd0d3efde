//! The parts of a step of the primal simplex method.

use crate::dual_steps::move_basic;
use bounded_basis::{
    Basis, Spot, Standing, Vector, add_value, number, set_number, set_price, set_standing,
};

/// Weights above this begin anew from 1.
const MOST_WEIGHT: f64 = 1e7;

/// The entering column goes to its other bound.
pub(crate) fn flip(basis: &mut Basis, enter: usize, up: f64, range: f64, column: &Vector) {
    move_basic(&mut basis.spots, &basis.head, up * range, column);
    let spot = basis.spot(enter);
    if up > 0.0 {
        set_standing(&mut basis.spots, enter, Standing::High, spot.high);
    } else {
        set_standing(&mut basis.spots, enter, Standing::Low, spot.low);
    }
}

/// The step of the values: the column at a position goes to its bound.
pub(crate) fn step(
    basis: &mut Basis,
    enter: usize,
    position: usize,
    by: f64,
    goes_down: bool,
    column: &Vector,
) {
    if by != 0.0 {
        move_basic(&mut basis.spots, &basis.head, by, column);
    }
    add_value(&mut basis.spots, enter, by);
    let out = basis.at(position);
    let spot = basis.spot(out);
    if goes_down {
        set_standing(&mut basis.spots, out, Standing::Low, spot.low);
    } else {
        set_standing(&mut basis.spots, out, Standing::High, spot.high);
    }
}

/// The pivot of an exchange and what it makes of reduced costs and weights.
#[derive(Clone, Copy)]
struct Exchange {
    enter: usize,
    pivot: f64,
    length: f64,
    weight: f64,
}

/// The reduced cost and the weight of a column behind an exchange; gives the weight.
#[inline(always)]
fn reprice_one(
    spots: &mut [Spot],
    weights: &mut [f64],
    exchange: Exchange,
    column: usize,
    alpha: f64,
) -> f64 {
    if column >= spots.len() || column >= weights.len() {
        return 0.0;
    }
    if spots[column].is_basic() || column == exchange.enter {
        return 0.0;
    }
    spots[column].price -= exchange.length * alpha;
    let ratio = alpha / exchange.pivot;
    let weight = ratio * ratio * exchange.weight;
    if weight > weights[column] {
        weights[column] = weight;
    }
    weights[column]
}

/// The touched columns; gives their greatest weight.
fn reprice_touched(basis: &mut Basis, weights: &mut [f64], exchange: Exchange) -> f64 {
    let mut most = 0.0;
    for column in &basis.touched {
        let column = *column as usize;
        let alpha = number(&basis.alpha, column);
        let weight = reprice_one(&mut basis.spots, weights, exchange, column, alpha);
        if weight > most {
            most = weight;
        }
    }
    most
}

/// The reduced costs and the Devex weights, when a column enters and another one has left the basis.
pub(crate) fn reprice(basis: &mut Basis, enter: usize, out: usize, weights: &mut [f64]) {
    let pivot = basis.alpha_at(enter);
    let length = basis.spot(enter).price / pivot;
    let weight = number(weights, enter);
    let exchange = Exchange {
        enter,
        pivot,
        length,
        weight,
    };
    let most = reprice_touched(basis, weights, exchange);
    set_price(&mut basis.spots, enter, 0.0);
    set_price(&mut basis.spots, out, -length);
    let own = weight / (pivot * pivot);
    set_number(weights, out, if own > 1.0 { own } else { 1.0 });
    if most > MOST_WEIGHT {
        begin_anew(weights);
    }
}

fn begin_anew(weights: &mut [f64]) {
    for weight in weights.iter_mut() {
        *weight = 1.0;
    }
}
