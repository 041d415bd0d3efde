//! What answers of solves and offers to pools show.
ghost use Rattle.answer_laws.specs.Offers.{OffersHold};
ghost use Rattle.answer_laws.specs.Points.{PointsMeet};
ghost use Rattle.answer_laws.specs.Costs.{ValuesAreCosts, ValuesCoverPools};
ghost use Rattle.answer_laws.specs.Bounds.{BoundsHoldAtPoints, NeverLoose};
ghost use Rattle.answer_laws.specs.Grounds.{GroundsAreMade};

/// The point of an answer meets the rows and bounds of its node beside the trial.
pub fn points_meet()
    ensures { PointsMeet }
{}

/// Its value is what the point costs there, and with their shares costs of the children, which their cuts don't exceed.
pub fn values_are_costs()
    ensures { ValuesAreCosts }
{}

/// Nor do the cuts of the pools of which they were read.
pub fn values_cover_pools()
    ensures { ValuesCoverPools }
{}

/// Behind an offer the pool holds as much as was offered, and nothing is lost.
pub fn offers_hold()
    ensures { OffersHold }
{}

/// No point of a node's program costs less than a Bound cut at the trial that is made of the task's cuts.
pub fn bounds_hold_at_points()
    ensures { BoundsHoldAtPoints }
{}

/// So it is never told to have no least cost.
pub fn never_loose()
    ensures { NeverLoose }
{}

/// A ground cut is such a cut where its task has the cuts that it is made of.
pub fn grounds_are_made()
    ensures { GroundsAreMade }
{}
