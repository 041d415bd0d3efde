//! What a report claims, and what a check of it comes to.

/// What a report claims, in the order in which it is tested.
#[derive(Clone, Copy, Debug, Drop, PartialEq, Eq)]
pub enum Claim {
    /// The counts are the program's; each list and each value stands there exactly where its finding and its ends ask
    /// for it; each list fits the program.
    Shape,
    /// The policy is feasible.
    Policy,
    /// The policy costs at most the upper end.
    Cost,
    /// Each end and bound that the dual uses is finite.
    Dual,
    /// The dual is worth at least the lower end.
    Lower,
    /// An optimal report has both ends, and they are equal; an unbounded one has its upper end.
    Ends,
    /// Each end and bound that the ray uses where all costs are 0 is finite.
    Ray,
    /// The ray is worth its value where all costs are 0, and that is above 0.
    Value,
    /// The direction is one.
    Direction,
    /// The direction costs its slope.
    Slope,
}

/// What a check of a report comes to.
#[derive(Clone, Copy, Debug, Drop, PartialEq, Eq)]
pub enum Verdict {
    /// Every claim holds.
    Holds,
    /// This is the first claim that fails.
    Fails(Claim),
}
