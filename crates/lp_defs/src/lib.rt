//! Linear programs in standard form, the path of the simplex method on them, and what is true of it.
#![tactic(auto)]

ghost use Rattle.lp_defs.specs.Certificates.{PivotsAreBounded, SolutionsAreCertified, UnitColumnsAreFeasible};
ghost use Rattle.lp_defs.specs.Meaning.{CertificatesHold};
ghost use Rattle.lp_defs.specs.Merges.{MergesAgree};
ghost use Rattle.lp_defs.specs.Trace.{NoBasisTwice, NoBasisTwiceOnPath};

/// An optimum has a point and duals of equal value, an infeasible program multipliers that show it, an
/// unbounded one a point and a ray.
pub fn solutions_are_certified()
    ensures { SolutionsAreCertified }
{}

/// No point costs less than an optimal one, an infeasible program has no point, and along a ray each step
/// leads to a point at a lower cost.
pub fn certificates_hold()
    ensures { CertificatesHold }
{}

/// A program whose rows end in unit columns has a point.
pub fn unit_columns_are_feasible()
    ensures { UnitColumnsAreFeasible }
{}

/// Pivots by Bland's rule never lead to the same basic columns again.
pub fn no_basis_twice()
    ensures { NoBasisTwice }
{}

/// Nor does a path.
pub fn no_basis_twice_on_path()
    ensures { NoBasisTwiceOnPath }
{}

/// So a path has at most twice as many pivots as there are sets of columns, and one more for each row.
pub fn pivots_are_bounded()
    ensures { PivotsAreBounded }
{}

/// A row less a multiple of another is the row plus that multiple with the other sign.
pub fn merges_agree()
    ensures { MergesAgree }
{}
