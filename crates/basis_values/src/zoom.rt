//! The program around a solution that is known exactly, enlarged until the solution's faults are of size 1: what is left
//! to the bounds, and reduced costs.

use crate::exact_program::{ExactProgram, ExactRow};
use crate::kernel::at;
use crate::solution::Solution;
use crate::sums::{activity, reduced_costs};
use basis_factors::Entry;
use basis_guess::FloatProgram;
use decimals::{float, float_difference};
use frac128::{Frac, Memory};
use std::alloc::Global;

/// Costs beyond so many faults count no more: a tolerance that grows with the greatest cost would hide the fault.
const FAR: f64 = 10000.0;

/// The bounds of a column or a row's activity less its value, and its cost.
#[derive(Clone, Copy)]
struct Near {
    low: f64,
    high: f64,
    cost: f64,
}

/// The product of a row and a point in floats.
fn float_activity(row: &ExactRow, point: &[Frac]) -> f64 {
    let mut sum = 0.0;
    for entry in &row.entries {
        sum += float(entry.value) * float(at(point, entry.at));
    }
    sum
}

impl Near {
    fn of_column(low: Option<Frac>, high: Option<Frac>, value: Frac, price: Option<Frac>) -> Near {
        let low = match low {
            Some(low) => float_difference(low, value),
            None => f64::NEG_INFINITY,
        };
        let high = match high {
            Some(high) => float_difference(high, value),
            None => f64::INFINITY,
        };
        let cost = match price {
            Some(price) => float(price),
            None => 0.0,
        };
        Near { low, high, cost }
    }

    fn of_row(row: &ExactRow, point: &[Frac], multiplier: Frac) -> Near {
        let near = match activity(row, point) {
            Some(sum) => Near::of_column(row.low, row.high, sum, Some(multiplier)),
            None => Near::of_wide_row(row, float_activity(row, point), multiplier),
        };
        Near {
            low: near.low * row.factor,
            high: near.high * row.factor,
            cost: near.cost / row.factor,
        }
    }

    /// As above, where the activity passes 128 bits.
    fn of_wide_row(row: &ExactRow, sum: f64, multiplier: Frac) -> Near {
        let low = match row.low {
            Some(low) => float(low) - sum,
            None => f64::NEG_INFINITY,
        };
        let high = match row.high {
            Some(high) => float(high) - sum,
            None => f64::INFINITY,
        };
        Near {
            low,
            high,
            cost: float(multiplier),
        }
    }

    /// By how much the value is beyond its bounds.
    fn beyond(&self) -> f64 {
        if self.low > 0.0 {
            self.low
        } else if self.high < 0.0 {
            -self.high
        } else {
            0.0
        }
    }

    /// The size of a cost that moves the value off its place.
    fn wrong_cost(&self) -> f64 {
        if self.cost > 0.0 && self.low < 0.0 {
            self.cost
        } else if self.cost < 0.0 && self.high > 0.0 {
            -self.cost
        } else {
            0.0
        }
    }
}

/// What is near a solution: of the columns, and then of the rows.
fn surroundings(
    alloc: Global,
    program: &ExactProgram,
    solution: &Solution,
) -> Result<Vec<Near>, Memory> {
    let prices = reduced_costs(alloc, program, &solution.multipliers, program.is_priced())?;
    let mut all = Vec::new(alloc);
    for ((column, value), price) in program
        .columns()
        .iter()
        .zip(solution.point.iter())
        .zip(prices.iter())
    {
        all.push(Near::of_column(column.low, column.high, *value, *price))?;
    }
    let mut number: u32 = 0;
    for row in program.rows() {
        let multiplier = at(&solution.multipliers, number);
        all.push(Near::of_row(row, &solution.point, multiplier))?;
        number = number.wrapping_add(1);
    }
    Ok(all)
}

/// Enlarges the bounds.
fn enlarge_bounds(all: &mut [Near]) {
    let mut fault = 0.0;
    for one in all.iter() {
        let beyond = one.beyond();
        if beyond > fault {
            fault = beyond;
        }
    }
    if fault > 0.0 {
        for one in all.iter_mut() {
            one.low /= fault;
            one.high /= fault;
        }
    }
}

/// A cost that is at most `FAR` in size.
fn capped(cost: f64) -> f64 {
    if cost > FAR {
        FAR
    } else if cost < -FAR {
        -FAR
    } else {
        cost
    }
}

/// Enlarges the costs.
fn enlarge_costs(all: &mut [Near]) {
    let mut most = 0.0;
    for one in all.iter() {
        let wrong = one.wrong_cost();
        if wrong > most {
            most = wrong;
        }
    }
    if most > 0.0 {
        for one in all.iter_mut() {
            one.cost = capped(one.cost / most);
        }
    }
}

/// A list of entries again.
fn copied(alloc: Global, entries: &[Entry<f64>]) -> Result<Vec<Entry<f64>>, Memory> {
    Ok(Vec::from_slice(alloc, entries)?)
}

/// The program with other bounds and costs.
fn rebuilt(alloc: Global, floats: &FloatProgram, all: &[Near]) -> Result<FloatProgram, Memory> {
    let count = floats.column_count();
    let mut program = FloatProgram::new(alloc);
    for one in all.iter().take(count) {
        program.push_column(one.low, one.high, one.cost)?;
    }
    for (row, one) in floats.rows.iter().zip(all.iter().skip(count)) {
        program.push_row(copied(alloc, row)?, one.low, one.high)?;
    }
    for one in all.iter().skip(count) {
        program.cost.push(one.cost)?;
    }
    Ok(program)
}

/// The program in which the solution is 0 and its faults are of size 1.
pub(crate) fn zoomed(
    alloc: Global,
    program: &ExactProgram,
    solution: &Solution,
) -> Result<FloatProgram, Memory> {
    let mut all = surroundings(alloc, program, solution)?;
    enlarge_bounds(&mut all);
    enlarge_costs(&mut all);
    rebuilt(alloc, program.floats(), &all)
}
