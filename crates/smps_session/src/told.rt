//! A report as it is told.
ghost use Rattle.std.specs.Prelude.{◌≡◌, ◌+◌, ℕ, IfOk, OnOk};
ghost use Rattle.scen_defs.specs.Fits.{ListsHaveNames};
ghost use Rattle.scen_defs.specs.Program.{content, Program as ProgramOf};
ghost use Rattle.report_text.specs.Text.{report_text};
ghost use Rattle.nested_method.specs.Stands.{HasFewNodes, StandsOn, StandsCleared};
ghost use Rattle.smps_session.specs.Comes.{IsUnderWay};
ghost use Rattle.smps_session.specs.Told.{IsTold};

use crate::running::reported;
use crate::shorter::answer;
use crate::whole::StatedLimits;
use frac128::{Frac, Memory};
use nested_method::Method;
use pass_core::Budget;
use report_text::print_report;
use run_watch::Watch;
use scen_defs::{Finding, Program, Report};
use std::alloc::Global;
use whole_guess::WholeHint;

/// What is told of a report.
#[derive(Drop)]
pub struct Told {
    /// Its text, all of it.
    pub text: Vec<u8>,
    pub finding: Finding,
    /// The ends of the least cost that it states.
    pub lower: Option<Frac>,
    pub upper: Option<Frac>,
    /// Whether it tells a claim about the whole program, after the method had stopped.
    pub by_whole: bool,
}

/// What is told of a report.
pub(crate) fn printed(
    alloc: Global,
    program: &Program,
    report: &Report,
    by_whole: bool,
) -> Result<Told, Memory>
    requires { ListsHaveNames program.now report.now }
    ensures text { IfOk result (λ told. told.text.items ≡ report_text program.now report.now) }
    ensures finding { IfOk result (λ told. told.finding ≡ report.now.finding) }
    ensures by_whole { IfOk result (λ told. told.by_whole ≡ by_whole) }
{
    let mut text = Vec::new(alloc);
    print_report(alloc, program, report, &mut text)?;
    Ok(Told {
        text,
        finding: report.finding,
        lower: report.lower,
        upper: report.upper,
        by_whole,
    })
}

/// Tells what the method finds of the program, where nothing is left to find, or what the whole program shows where the method had stopped.
/// The method goes on as it is without that.
pub(crate) fn told_one<W: Watch>(
    alloc: Global,
    program: &Program,
    method: &mut Method,
    number: u32,
    budget: Budget,
    stated: StatedLimits,
    hint: &mut WholeHint,
    watch: &mut W,
) -> Result<Told, Memory>
    requires stands { StandsOn (content program.now) budget method.old }
    requires cleared { HasFewNodes (content program.now) → StandsCleared method.old }
    ensures told { (start : ProgramOf) (came : ℕ) → let p = content program.now in IsUnderWay budget start came p method.old
        → IfOk result (λ told. IsTold budget stated start came number p method.old told method.new) }
    ensures stands { OnOk result (StandsOn (content program.now) budget method.new) }
    ensures cleared { HasFewNodes (content program.now) → OnOk result (StandsCleared method.new) }
    ensures way { (start : ProgramOf) (came : ℕ) → let p = content program.now in IsUnderWay budget start came p method.old
        → OnOk result (IsUnderWay budget start (came + 1) p method.new) }
{
    let own = reported(alloc, program, method, number, budget, watch)?;
    let answered = answer(alloc, program, own, budget, stated, hint, watch)?;
    printed(alloc, program, &answered.report, answered.by_whole)
}
