//! A column that takes the place of another one, and costs that are shifted.

use crate::basis::Basis;
use crate::program::{Standing, narrow};
use crate::spots::set_standing;
use crate::vectors::Vector;
use std::alloc::AllocError;

impl Basis {
    /// A column, which is given as one of the tableau, becomes basic at a position.
    pub fn exchange(
        &mut self,
        position: usize,
        enter: usize,
        column: &Vector,
    ) -> Result<(), AllocError> {
        self.inverse.push(narrow(position), column)?;
        if position < self.head.len() {
            self.head[position] = narrow(enter);
        }
        let value = self.spot(enter).value;
        set_standing(&mut self.spots, enter, Standing::Basic, value);
        Ok(())
    }

    /// Makes all reduced costs good: by flips to other bounds, or by shifts of costs.
    pub fn shift_costs(&mut self, tolerance: f64) {
        for spot in self.spots.iter_mut() {
            if spot.is_wrong(tolerance) {
                spot.mend_price();
            }
        }
    }
}
