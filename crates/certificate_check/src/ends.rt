//! The ends of a report.
ghost use Rattle.std.specs.Prelude.{◌≡◌};
ghost use Rattle.certificate_check.specs.Verdicts.{ends_meet, has_ends};

use frac128::Frac;
use scen_defs::Finding;

/// Whether both ends are there, and equal.
fn ends_meet(lower: Option<Frac>, upper: Option<Frac>) -> bool
    ensures { result ≡ ends_meet lower upper }
{
    match (lower, upper) {
        (Some(lower), Some(upper)) => lower == upper,
        _ => false,
    }
}

/// Whether an optimal report has equal ends, and an unbounded one its upper end.
pub(crate) fn has_ends(finding: Finding, lower: Option<Frac>, upper: Option<Frac>) -> bool
    ensures { result ≡ has_ends finding lower upper }
{
    match finding {
        Finding::Optimal => ends_meet(lower, upper),
        Finding::Unbounded => upper.is_some(),
        Finding::Infeasible => true,
        Finding::OpenSolves(_) => true,
        Finding::OpenPivots(_) => true,
        Finding::OpenPassed(_, _) => true,
    }
}
