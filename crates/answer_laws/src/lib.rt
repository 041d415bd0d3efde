//! What the answer of the solve of a node says of the program, and what an offer leaves of pools. No code that runs.
#![tactic(auto)]

mod laws;

pub use laws::{
    bounds_hold_at_points, grounds_are_made, never_loose, offers_hold, points_meet,
    values_are_costs, values_cover_pools,
};
