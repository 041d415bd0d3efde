//! The operations in which walks end.
ghost use Rattle.overflow_laws.specs.Ends.{WalksEndPassing};
ghost use Rattle.overflow_laws.specs.Points.{PointsJoin};

/// Where a solve, an offer or a sum ends in an operation, that operation passes 128 bits.
pub fn walks_end_passing()
    ensures { WalksEndPassing }
{}

/// A point that the solve of a node finds can be kept beside the values of the columns before it.
pub fn points_join()
    ensures { PointsJoin }
{}
