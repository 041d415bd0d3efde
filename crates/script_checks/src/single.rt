//! The check of one report.
ghost use Rattle.std.specs.Prelude.{◌≡◌, IfOk};
ghost use Rattle.scen_defs.specs.Program.{content};
ghost use Rattle.scen_defs.specs.declared.report.Place.{Place as PlaceOf};
ghost use Rattle.script_checks.specs.Checked.{holds, IsCheck};

use certificate_check::{Verdict, check};
use frac128::{Memory, Passed};
use scen_defs::{Halt, Program, Report};
use std::alloc::Global;

/// What the check of a report came to.
#[derive(Clone, Copy, Debug, Drop)]
pub struct Checked {
    /// The number of the report.
    pub number: u32,
    /// The verdict; or the operation that passed 128 bits before one.
    pub outcome: Result<Verdict, Passed>,
}

impl Checked {
    /// Whether all claims of the report hold.
    pub fn holds(&self) -> bool
        ensures { result ≡ holds self.now.outcome }
    {
        match self.outcome {
            Ok(Verdict::Holds) => true,
            Ok(Verdict::Fails(_)) | Err(_) => false,
        }
    }
}

/// The operation in which a check ended.
fn operation(halt: Halt) -> Result<Passed, Memory>
    ensures { IfOk result (λ passed. (place : PlaceOf) × (halt ≡ Halt.Passed place passed)) }
{
    match halt {
        Halt::Passed(_place, passed) => Ok(passed),
        Halt::Memory => Err(Memory),
    }
}

/// What the check of a report against a program comes to: a verdict, or the operation that passed 128 bits before one.
pub(crate) fn outcome_of(
    alloc: Global,
    program: &Program,
    report: &Report,
) -> Result<Result<Verdict, Passed>, Memory>
    ensures { IfOk result (λ outcome. IsCheck (content program.now) report.now (record { number = report.now.number; outcome = outcome })) }
{
    match check(alloc, program, report) {
        Ok(verdict) => Ok(Ok(verdict)),
        Err(halt) => Ok(Err(operation(halt)?)),
    }
}

/// The check of a report against a program.
pub fn check_single(alloc: Global, program: &Program, report: &Report) -> Result<Checked, Memory>
    ensures { IfOk result (IsCheck (content program.now) report.now) }
{
    let outcome = outcome_of(alloc, program, report)?;
    Ok(Checked {
        number: report.number,
        outcome,
    })
}
