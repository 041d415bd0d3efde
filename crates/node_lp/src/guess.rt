//! What a quick solve of a node's program says, of which nothing is believed before it is tested.

use crate::found::Multipliers;
use frac128::{Form, Frac};

/// What a quick solve says of a node's program.
#[derive(Drop)]
pub enum Guess {
    /// There is a point, and the multipliers show that none is cheaper.
    Point {
        /// The values of the own columns that aren't 0.
        point: Form,
        /// What each child costs, where they are priced.
        costs: Vec<Frac>,
        /// What shows that no point is cheaper; not looked at where the children aren't priced.
        multipliers: Multipliers,
    },
    /// The multipliers show that there is no point.
    NoPoint(Multipliers),
}
