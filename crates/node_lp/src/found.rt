//! What the simplex method finds at a node.

use frac128::{Form, Frac, Passed};
use std::marker::Model;

/// Multipliers of a node's rows, and weights of the cuts about its children. Contracts see them as lists.
#[derive(Drop)]
pub struct Multipliers {
    /// By the number of the row.
    pub rows: Form,
    /// One for each cut that the node's program takes, child by child.
    pub weights: Vec<Frac>,
}

impl Model for Multipliers {
    ghost use Rattle.node_lp.specs.Weighed.{Weighed};

    ghost Value = { Weighed };

    ghost use Rattle.node_lp.specs.WeighedView.{weighed};

    ghost view = { weighed };
}

/// What is found at a node.
#[derive(Drop)]
pub enum Found {
    /// The values of the own columns, what they cost with the children's costs, and the multipliers that show that
    /// nothing is cheaper.
    Point(Form, Frac, Multipliers),
    /// Multipliers that show that there is no point.
    NoPoint(Multipliers),
    /// There is no least cost.
    Loose,
    /// The path has more pivots than were allowed.
    PivotsEnded,
    /// The first operation that passes 128 bits.
    Passed(Passed),
}
