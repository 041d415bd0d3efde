// What holds of every program: weak duality, and what certificates show.
ghost use Rattle.scen_defs.specs.Cover.{CoverLaws};
ghost use Rattle.scen_defs.specs.Laws.{WeakDuality, InfeasibilityShown, UnboundednessShown};
ghost use Rattle.scen_defs.specs.Laws.{ProgramsAreTrees, RecessionsAreTrees, RecessionMakesGood};
ghost use Rattle.scen_model.specs.Laws.{CostLaw, DualLaws, FeasibleLaws, DirectionLaws};

/// A small program on a tree, worked out: it is a program, its policy costs 5 and its dual is worth 5.
pub fn the_cover_is_worked_out()
    ensures { CoverLaws }
{}

/// The value of good multipliers is at most the cost of a feasible point.
pub fn weak_duality_holds()
    ensures { WeakDuality }
{}

/// Multipliers that are good with all costs 0, and are then worth more than 0, exclude every feasible point.
pub fn infeasibility_is_shown()
    ensures { InfeasibilityShown }
{}

/// With a feasible point and a direction the cost has no lower limit.
pub fn unboundedness_is_shown()
    ensures { UnboundednessShown }
{}

/// What a program keeps makes a tree, with node 0 as its root.
pub fn programs_are_trees()
    ensures { ProgramsAreTrees }
{}

/// The recession form of a tree is a tree.
pub fn recessions_are_trees()
    ensures { RecessionsAreTrees }
{}

/// Multipliers that are good on the recession form, and worth at least 0 there, are good.
pub fn recession_makes_good()
    ensures { RecessionMakesGood }
{}

/// Where the walk over the cost comes to its end, its value is the cost.
pub fn costs_are_exact()
    ensures { CostLaw }
{}

/// Where the walk over the value of multipliers comes to its end, they are good and it is their value;
/// where an end decides, they are not good.
pub fn duals_are_exact()
    ensures { DualLaws }
{}

/// Where the walk over bounds and rows comes to its end, the point is feasible; where a test decides, it
/// is not.
pub fn tests_are_exact()
    ensures { FeasibleLaws }
{}

/// Where the walk over a direction comes to its end, it is one; where a test decides, it is not.
pub fn directions_are_exact()
    ensures { DirectionLaws }
{}
