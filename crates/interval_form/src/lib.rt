//! Programs whose rows lie in intervals and whose columns lie in bounds, as rows of three kinds over new
//! columns that are at least 0.
#![tactic(auto)]

mod laws;
mod own;
mod part;
mod place;
mod rows;

pub use laws::{plain_ends_mean, rows_mean};
pub use own::{behind_own, limit_count, own_duals, split, sum};
pub use part::{
    Part, Vector, behind, part_at, part_of, parts, push_spread, shift, spread_form, value,
};
pub use place::{place_of, push_own, right_side, spread_own};
pub use rows::{own_limits, push_bounds};
