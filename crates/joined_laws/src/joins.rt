//! What the points of all nodes are together.
ghost use Rattle.joined_laws.specs.Joins.{PoliciesJoin, ValuesCover, JoinedCosts};

/// The points of all nodes are feasible together, where each meets its rows and bounds at the values of the nodes above it.
pub fn policies_join()
    ensures { PoliciesJoin }
{}

/// Where the number of each node covers its own cost and by their shares the numbers of its children, they cost together at most the
/// root's number.
pub fn values_cover()
    ensures { ValuesCover }
{}

/// What they cost together, node by node, is what the program costs at them.
pub fn joined_points_cost()
    ensures { JoinedCosts }
{}
