//! A linear program over bounded columns in floating point, and a basis of it with all that is known beside it: factors
//! and etas, values, reduced costs, rows and columns of the tableau. No more is promised of the numbers than that they
//! come without a fault.
#![tactic(auto)]

mod basis;
mod exchange;
mod factoring;
mod inverse;
mod pricing;
mod program;
mod spots;
mod tableau;
mod turned;
mod vectors;

pub use basis::Basis;
pub use program::{FloatProgram, Standing, narrow};
pub use spots::{Spot, TOLERANCE, add_value, set_price, set_standing};
pub use turned::Turned;
pub use vectors::{Vector, constant, number, set_number};
