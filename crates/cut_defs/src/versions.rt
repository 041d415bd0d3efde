// Versions of a node's data.
use crate::kinds::{Bank, Part};
use frac128::Frac;

/// The version of a part of a node's data that a cut was made from.
#[derive(Clone, Copy, Debug)]
pub struct Stamp {
    /// The node's number.
    pub node: u32,
    /// `Rows` or `Costs`.
    pub part: Part,
    /// How many edits had touched the part.
    pub version: u32,
}

/// An edit that touches a part of a node's data.
#[derive(Clone, Copy, Debug)]
pub struct Touch {
    /// The node's number.
    pub node: u32,
    /// The part of its data, or the node itself.
    pub part: Part,
    /// The part's version after the edit; 1 where the part is `Gone`.
    pub version: u32,
}

/// A row of a node whose ends rise by a number where the node's rows get this version.
#[derive(Clone, Copy, Debug)]
pub struct Shift {
    /// The node's number.
    pub node: u32,
    /// The row's number in the program.
    pub row: u32,
    /// What is added to each finite end of the row; below 0 the ends fall.
    pub by: Frac,
    /// The version of the node's rows after the edit, above 0.
    pub version: u32,
}

/// A pool that is to be swept for a touch, with the shift by which its cuts may be repaired.
#[derive(Clone, Copy, Debug)]
pub struct Due {
    /// The programs that the pool's cuts speak of.
    pub bank: Bank,
    /// The node of the pool.
    pub pool: u32,
    /// What was touched.
    pub touch: Touch,
    /// `None` where the edit moved no row's interval.
    pub shift: Option<Shift>,
}
