//! The report that a basis shows.
ghost use Rattle.std.specs.Prelude.{IfOk, IfSome};
ghost use Rattle.scen_defs.specs.Program.{content};
ghost use Rattle.smps_session.specs.Based.{TellsBasis};

use crate::told::{Told, printed};
use crate::whole::closed_report;
use basis_file::GivenBasis;
use frac128::Memory;
use pass_core::Budget;
use scen_defs::Program;
use std::alloc::Global;
use whole_guess::given_claim;

/// Tells the report of a program whose basis is given, where the exact values of that pass the test of the whole program. No node is
/// solved.
pub fn told_of_basis(
    alloc: Global,
    program: &Program,
    given: &GivenBasis,
    solves: u64,
    pivots: u64,
) -> Result<Option<Told>, Memory>
    ensures { IfOk result (λ found.
        IfSome found (TellsBasis (record { solves = solves; pivots = pivots }) (content program.now))) }
{
    let budget = Budget { solves, pivots };
    let Some(claim) = given_claim(alloc, program, given)? else {
        return Ok(None);
    };
    let Some(report) = closed_report(alloc, program, 1, claim, budget)? else {
        return Ok(None);
    };
    let told = printed(alloc, program, &report, false)?;
    Ok(Some(told))
}
