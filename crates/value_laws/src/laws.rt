//! Knowing costs nothing, and fixing saves nothing.
ghost use Rattle.value_laws.specs.Knowing.{FeasiblePointsServe, ExpectedEndsAreLower};
ghost use Rattle.value_laws.specs.Fixing.{FeasiblePointsStartWithin, FixedPointsAreFeasible, FixingKeepsLowerEnds};

/// Who knows which scenario comes can do there what any feasible point does, at its cost there. So no feasible point costs less than the
/// mean of numbers that the scenarios, each by itself, can't be served for less than.
pub fn knowing_costs_nothing()
    ensures serves { FeasiblePointsServe }
    ensures expected { ExpectedEndsAreLower }
{}

/// Where the first period is fixed at values that are feasible for a program with the same columns, as that of the means, each feasible
/// point is feasible without that too, at the same cost. So fixing doesn't make anything cheaper.
pub fn fixing_saves_nothing()
    ensures starts { FeasiblePointsStartWithin }
    ensures feasible { FixedPointsAreFeasible }
    ensures ends { FixingKeepsLowerEnds }
{}
