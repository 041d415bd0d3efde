//! What is so is shown.
ghost use Rattle.claim_laws.specs.Laws.{RecessionPointsAreDirections, ClaimsAreTold};

/// A point of the recession whose cost is below 0 is a direction.
pub fn recession_points_are_directions()
    ensures { RecessionPointsAreDirections }
{}

/// The report of any claim, holding or not, tells what is claimed: in its finding and in its lists.
pub fn claims_are_told()
    ensures { ClaimsAreTold }
{}
