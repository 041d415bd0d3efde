//! The values and the reduced costs of a basis.

use crate::basis::Basis;
use crate::program::FloatProgram;
use crate::spots::{Spot, spot_at};
use crate::turned::Turned;
use crate::vectors::{Vector, number, set_number};
use basis_factors::Entry;
use std::alloc::{AllocError, Global};

/// A cost less the products of entries with multipliers.
fn less_products(cost: f64, entries: &[Entry<f64>], multipliers: &[f64]) -> f64 {
    let mut sum = cost;
    for entry in entries {
        sum -= entry.value * number(multipliers, entry.at as usize);
    }
    sum
}

/// Gives the columns at these positions their values.
fn set_values(spots: &mut [Spot], head: &[u32], values: &[f64]) {
    for (column, value) in head.iter().zip(values.iter()) {
        let column = *column as usize;
        if column < spots.len() {
            spots[column].value = *value;
        }
    }
}

/// The costs of the columns at these positions.
fn set_costs(costs: &mut [f64], head: &[u32], spots: &[Spot]) {
    for (position, column) in head.iter().enumerate() {
        set_number(costs, position, spot_at(spots, *column as usize).cost);
    }
}

/// The reduced cost of a column.
fn price_of(
    turned: &Turned,
    columns: usize,
    column: usize,
    spot: &Spot,
    multipliers: &[f64],
) -> f64 {
    if spot.is_basic() {
        0.0
    } else if column < columns {
        less_products(spot.cost, turned.column(column), multipliers)
    } else {
        spot.cost + number(multipliers, column - columns)
    }
}

/// The reduced costs of all columns.
fn set_prices(turned: &Turned, columns: usize, spots: &mut [Spot], multipliers: &[f64]) {
    for (column, spot) in spots.iter_mut().enumerate() {
        let price = price_of(turned, columns, column, spot, multipliers);
        spot.price = price;
    }
}

impl Basis {
    fn spend_on_all(&mut self) {
        let rows = self.head.len().saturating_mul(2);
        let all = self.columns.saturating_add(self.entries);
        self.spend(all.saturating_add(rows));
    }

    /// Puts the columns that aren't basic to their bounds and finds the values of the others.
    pub fn find_values(&mut self, alloc: Global) -> Result<(), AllocError> {
        self.spend_on_all();
        self.rest_all();
        self.scatter_all()?;
        let mut solution = Vector::new(alloc, self.head.len())?;
        self.forward(&mut solution)?;
        set_values(&mut self.spots, &self.head, &solution.values);
        Ok(())
    }

    fn rest_all(&mut self) {
        for spot in self.spots.iter_mut() {
            if !spot.is_basic() {
                spot.value = spot.resting_value();
            }
        }
    }

    fn scatter_all(&mut self) -> Result<(), AllocError> {
        for column in 0..self.spots.len() {
            let spot = self.spot(column);
            if !spot.is_basic() && spot.value != 0.0 {
                self.scatter(column, -spot.value)?;
            }
        }
        Ok(())
    }

    /// Finds the reduced costs of all columns.
    pub fn find_prices(&mut self, alloc: Global) -> Result<(), AllocError> {
        self.spend_on_all();
        set_costs(&mut self.costs, &self.head, &self.spots);
        self.wanted.clear();
        let mut multipliers = Vector::new(alloc, self.head.len())?;
        self.inverse
            .backward(&mut self.costs, &mut self.wanted, &mut multipliers)?;
        let prices = &multipliers.values;
        set_prices(&self.turned, self.columns, &mut self.spots, prices);
        Ok(())
    }

    /// Takes back all shifts of costs.
    pub fn restore_costs(&mut self, program: &FloatProgram) {
        for (column, spot) in self.spots.iter_mut().enumerate() {
            spot.cost = program.cost_at(column);
        }
    }
}
