// What the costs of the program are.
ghost use Rattle.tail_risk.specs.Risk.{RiskIsAttained, RiskIsLeast};

/// The least cost of the program that `tail_program` makes is the least of the mean cost weighted by `1 - weight` and the conditional
/// value at risk weighted by `weight`: a feasible point and a number are attained at their risk, and nothing costs less than its risk.
pub fn tail_costs_are_risks()
    ensures attained { RiskIsAttained }
    ensures least { RiskIsLeast }
{}
