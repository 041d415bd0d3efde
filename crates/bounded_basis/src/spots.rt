//! What is known of a column beside a basis.

use crate::program::{FloatProgram, Standing, rest_between};

/// How far a column may be beyond its bounds, and a reduced cost beyond 0 for each unit of the greatest cost.
pub const TOLERANCE: f64 = 1e-9;

/// The bounds, the cost, the value and the reduced cost of a column or of a row's activity.
#[derive(Clone, Copy)]
pub struct Spot {
    pub low: f64,
    pub high: f64,
    /// The cost, perhaps shifted.
    pub cost: f64,
    pub value: f64,
    /// The reduced cost.
    pub price: f64,
    pub standing: Standing,
}

/// A column that isn't there: fixed at 0.
pub const NOWHERE: Spot = Spot {
    low: 0.0,
    high: 0.0,
    cost: 0.0,
    value: 0.0,
    price: 0.0,
    standing: Standing::Low,
};

/// What is known of a column at first; a standing at an infinite bound is mended.
pub fn spot_of(program: &FloatProgram, column: usize, standing: Standing) -> Spot {
    let (low, high) = (program.low_at(column), program.high_at(column));
    Spot {
        low,
        high,
        cost: program.cost_at(column),
        value: 0.0,
        price: 0.0,
        standing: fitting(low, high, standing),
    }
}

/// The standing, or where the column rests if it has no such bound.
fn fitting(low: f64, high: f64, standing: Standing) -> Standing {
    match standing {
        Standing::Basic => Standing::Basic,
        Standing::Low if low.is_finite() => Standing::Low,
        Standing::High if high.is_finite() => Standing::High,
        _ => rest_between(low, high),
    }
}

/// The column at a place.
#[inline(always)]
pub fn spot_at(spots: &[Spot], column: usize) -> Spot {
    if column < spots.len() {
        spots[column]
    } else {
        NOWHERE
    }
}

/// Adds to the value of a column.
#[inline(always)]
pub fn add_value(spots: &mut [Spot], column: usize, by: f64) {
    if column < spots.len() {
        spots[column].value += by;
    }
}

/// Sets the standing and the value of a column.
pub fn set_standing(spots: &mut [Spot], column: usize, standing: Standing, value: f64) {
    if column < spots.len() {
        spots[column].standing = standing;
        spots[column].value = value;
    }
}

/// Sets the reduced cost of a column.
pub fn set_price(spots: &mut [Spot], column: usize, price: f64) {
    if column < spots.len() {
        spots[column].price = price;
    }
}

impl Spot {
    /// Whether both bounds are equal.
    #[inline(always)]
    pub fn is_fixed(&self) -> bool {
        self.low == self.high
    }

    /// Whether it isn't basic.
    #[inline(always)]
    pub fn is_basic(&self) -> bool {
        match self.standing {
            Standing::Basic => true,
            _ => false,
        }
    }

    /// Where it stands if it isn't basic.
    pub fn rest(&self) -> Standing {
        rest_between(self.low, self.high)
    }

    /// The number at which it stands if it isn't basic.
    pub fn resting_value(&self) -> f64 {
        match self.standing {
            Standing::Low => self.low,
            Standing::High => self.high,
            _ => 0.0,
        }
    }

    /// By how much it is below its low bound (below 0) or above its high one (above 0), beyond the tolerance.
    #[inline(always)]
    pub fn excess(&self) -> f64 {
        if self.value < self.low {
            let under = self.low - self.value;
            if under > TOLERANCE * (1.0 + self.low.abs()) {
                return -under;
            }
        }
        if self.value > self.high {
            let over = self.value - self.high;
            if over > TOLERANCE * (1.0 + self.high.abs()) {
                return over;
            }
        }
        0.0
    }

    /// Whether it isn't basic and its reduced cost has the wrong sign.
    #[inline(always)]
    pub fn is_wrong(&self, tolerance: f64) -> bool {
        let is_wrong = match self.standing {
            Standing::Basic => false,
            Standing::Low => self.price < -tolerance,
            Standing::High => self.price > tolerance,
            Standing::Free => self.price < -tolerance || self.price > tolerance,
        };
        is_wrong && !self.is_fixed()
    }

    /// Whether its reduced cost has no wrong sign at all.
    pub fn is_right(&self) -> bool {
        match self.standing {
            Standing::Low => self.price >= 0.0,
            Standing::High => self.price <= 0.0,
            _ => self.price == 0.0,
        }
    }

    /// Makes a wrong reduced cost a good one: by its other bound, or by another cost.
    pub fn mend_price(&mut self) {
        if self.low.is_finite() && self.high.is_finite() {
            self.standing = if self.price < 0.0 {
                Standing::High
            } else {
                Standing::Low
            };
        } else {
            self.shift_cost();
        }
    }

    /// Shifts the cost until the reduced cost is 0.
    pub fn shift_cost(&mut self) {
        self.cost -= self.price;
        self.price = 0.0;
    }
}
