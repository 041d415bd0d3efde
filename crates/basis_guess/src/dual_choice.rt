//! What leaves and what enters in the dual simplex method.
//!
//! The leaving row is chosen by steepest edge (J. J. Forrest and D. Goldfarb, Steepest-edge simplex algorithms for
//! linear programming, 1992). The entering column is chosen by Harris's ratio test (P. M. J. Harris, Pivot selection
//! methods of the Devex LP code, 1973): of all columns whose reduced costs reach 0 within a tolerance the one with
//! the largest pivot. Where it may, the step goes on past columns between two finite bounds, which flip to their other
//! bounds (I. Maros, A generalized dual phase-2 simplex algorithm, 2003; A. Koberstein, The dual simplex method,
//! techniques for a fast and stable implementation, 2005).

use bounded_basis::{Basis, Spot, Standing};
use std::alloc::AllocError;

/// The least pivot.
pub(crate) const PIVOT: f64 = 1e-9;

/// How far reduced costs may pass 0.
const HARRIS: f64 = 1e-9;

/// A slope that is used up but for this is used up.
const ROUNDING: f64 = 1e-9;

/// A column that may enter: its reduced cost, its number in the row and how far its bounds are apart.
#[derive(Clone, Copy)]
pub(crate) struct Offer {
    column: u32,
    price: f64,
    size: f64,
    range: f64,
}

/// The position with the greatest square of the excess for its weight.
pub(crate) fn leaving(excesses: &[f64], weights: &[f64]) -> Option<usize> {
    let mut best = None;
    let mut most = 0.0;
    for (position, (excess, weight)) in excesses.iter().zip(weights.iter()).enumerate() {
        if *excess != 0.0 {
            let merit = *excess * *excess / *weight;
            if merit > most {
                most = merit;
                best = Some(position);
            }
        }
    }
    best
}

/// The reduced cost that a step brings towards 0, where a column's number in the row has this sign.
#[inline(always)]
fn approaching(spot: &Spot, alpha: f64) -> Option<f64> {
    match spot.standing {
        Standing::Low if alpha < 0.0 => Some(spot.price),
        Standing::High if alpha > 0.0 => Some(-spot.price),
        Standing::Free => Some(0.0),
        _ => None,
    }
}

/// What a column offers in the row, which counts with this sign.
#[inline(always)]
fn offer_of(basis: &Basis, column: u32, sign: f64) -> Option<Offer> {
    let spot = basis.spot(column as usize);
    let alpha = basis.alpha_at(column as usize) * sign;
    let size = alpha.abs();
    if !(size >= PIVOT) || spot.is_fixed() {
        return None;
    }
    let price = approaching(&spot, alpha)?;
    Some(Offer {
        column,
        price: if price > 0.0 { price } else { 0.0 },
        size,
        range: spot.high - spot.low,
    })
}

/// All columns that may enter.
fn gather(basis: &Basis, sign: f64, offers: &mut Vec<Offer>) -> Result<(), AllocError> {
    offers.clear();
    for column in &basis.touched {
        if let Some(offer) = offer_of(basis, *column, sign) {
            offers.push(offer)?;
        }
    }
    Ok(())
}

/// The longest step that no reduced cost passes 0 by more than the tolerance.
fn longest(offers: &[Offer]) -> f64 {
    let mut limit = f64::INFINITY;
    for offer in offers {
        let ratio = (offer.price + HARRIS) / offer.size;
        if ratio < limit {
            limit = ratio;
        }
    }
    limit
}

/// A group of columns: what their flips take off the slope, and the one with the largest number.
#[derive(Clone, Copy)]
struct Group {
    gain: f64,
    size: f64,
    column: Option<u32>,
}

/// The columns that a step of this length reaches.
fn reached(offers: &[Offer], limit: f64) -> Group {
    let mut group = Group {
        gain: 0.0,
        size: 0.0,
        column: None,
    };
    for offer in offers {
        if offer.price <= limit * offer.size {
            group.gain += offer.size * offer.range;
            if offer.size > group.size {
                group.size = offer.size;
                group.column = Some(offer.column);
            }
        }
    }
    group
}

/// Moves the columns that the step reaches to those that flip.
fn pass(offers: &mut Vec<Offer>, limit: f64, flips: &mut Vec<u32>) -> Result<(), AllocError> {
    let mut kept = 0;
    for place in 0..offers.len() {
        if place < offers.len() && kept < offers.len() {
            let offer = offers[place];
            if offer.price <= limit * offer.size {
                flips.push(offer.column)?;
            } else {
                offers[kept] = offer;
                kept += 1;
            }
        }
    }
    offers.truncate(kept);
    Ok(())
}

/// The entering column for a row with this excess; `flips` are the columns that flip before it. None where the row
/// can't be brought to its bound.
pub(crate) fn entering(
    basis: &Basis,
    excess: f64,
    offers: &mut Vec<Offer>,
    flips: &mut Vec<u32>,
) -> Result<Option<u32>, AllocError> {
    flips.clear();
    gather(basis, if excess < 0.0 { 1.0 } else { -1.0 }, offers)?;
    let mut slope = excess.abs();
    for _group in 0..offers.len() {
        let limit = longest(offers);
        let group = reached(offers, limit);
        // A flip that brings the row to its bound but for a rounding error is as good as a pivot.
        let gain = group.gain + ROUNDING * (1.0 + excess.abs());
        if group.column.is_none() || gain >= slope {
            return Ok(group.column);
        }
        slope -= group.gain;
        pass(offers, limit, flips)?;
    }
    Ok(None)
}
