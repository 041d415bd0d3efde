//! An answer after the method has stopped: the report of a claim about the whole program, in place of the method's own one.
ghost use Rattle.std.specs.Prelude.{◌≡◌, true, IfOk, IfSome};
ghost use Rattle.scen_defs.specs.Fits.{ListsHaveNames};
ghost use Rattle.scen_defs.specs.Program.{content, view_of};
ghost use Rattle.report_defs.specs.Truth.{IsTrue, HasCounts};
ghost use Rattle.proved_report.specs.Reports.{EqualIsOptimal};
ghost use Rattle.smps_session.specs.Lists.{ListsAreOf};
ghost use Rattle.smps_session.specs.Reasons.{told_reasons};
ghost use Rattle.smps_session.specs.Whole.{asks_whole, isnt_open, TellsWhole, IsOwnOrWhole};
ghost use Rattle.smps_session.specs.Whole.{IsTestedFor, AnswersWhole};

use crate::nearer::nearer;
use frac128::Memory;
use pass_core::Budget;
use proved_report::{Claim, Open, report};
use run_watch::Watch;
use scen_defs::{Finding, Place, Program, Report};
use std::alloc::Global;
use whole_guess::{WholeHint, guessed_claim};

/// Which numbers of a budget the words state. Where a number that they don't state ends the method, the whole program is tried.
#[derive(Clone, Copy, Debug)]
pub struct StatedLimits {
    pub solves: bool,
    pub pivots: bool,
}

/// A report, and how it was found.
#[derive(Drop)]
pub struct Answered {
    pub report: Report,
    /// Whether it tells a claim about the whole program, after the method had stopped.
    pub by_whole: bool,
}

/// Whether the whole program is tried where the method finds so much.
fn asks_whole(finding: Finding, stated: StatedLimits) -> bool
    ensures { result ≡ asks_whole stated finding }
{
    match finding {
        Finding::Optimal | Finding::Infeasible | Finding::Unbounded => false,
        Finding::OpenSolves(_) => !stated.solves,
        Finding::OpenPivots(_) => !stated.pivots,
        Finding::OpenPassed(_, _) => true,
    }
}

pub(crate) fn isnt_open(finding: Finding) -> bool
    ensures { result ≡ isnt_open finding }
{
    match finding {
        Finding::Optimal | Finding::Infeasible | Finding::Unbounded => true,
        Finding::OpenSolves(_) | Finding::OpenPivots(_) | Finding::OpenPassed(_, _) => false,
    }
}

/// The report of a claim about the whole program, where its test doesn't leave it open.
pub(crate) fn closed_report(
    alloc: Global,
    program: &Program,
    number: u32,
    claim: Claim,
    budget: Budget,
) -> Result<Option<Report>, Memory>
    ensures number { IfOk result (λ found. IfSome found (λ report. report.number ≡ number)) }
    ensures counts { IfOk result (λ found. IfSome found (HasCounts (view_of (content program.now)))) }
    ensures names { IfOk result (λ found. IfSome found (ListsHaveNames program.now)) }
    ensures lists { IfOk result (λ found. IfSome found (ListsAreOf (content program.now))) }
    ensures truth { let p = content program.now in
        IfOk result (λ found. IfSome found (IsTrue (view_of p) (told_reasons program.now budget))) }
    ensures equal { IfOk result (λ found. IfSome found EqualIsOptimal) }
    ensures whole { IfOk result (λ found. IfSome found (TellsWhole program.now)) }
{
    let why = Open::Solves(budget.solves);
    let tested = report(
        alloc,
        program,
        number,
        claim,
        Place::Ground,
        why,
        budget.solves,
    )?;
    if isnt_open(tested.finding) {
        Ok(Some(tested))
    } else {
        Ok(None)
    }
}

/// The report of a claim about the whole program, whatever it finds.
pub(crate) fn tested_for(
    alloc: Global,
    program: &Program,
    own: &Report,
    claim: Claim,
    solves: u64,
) -> Result<Report, Memory>
    ensures { IfOk result (IsTestedFor program.now solves own.now) }
{
    report(
        alloc,
        program,
        own.number,
        claim,
        Place::Ground,
        Open::Solves(solves),
        solves,
    )
}

/// The report of a claim that is guessed, where one is.
fn guessed(
    alloc: Global,
    program: &Program,
    own: &Report,
    solves: u64,
    hint: &mut WholeHint,
) -> Result<Option<Report>, Memory>
    ensures { IfOk result (λ found. IfSome found (IsTestedFor program.now solves own.now)) }
{
    match guessed_claim(alloc, program, hint)? {
        Some(claim) => Ok(Some(tested_for(alloc, program, own, claim, solves)?)),
        None => Ok(None),
    }
}

/// Whether there is a report that isn't open.
fn is_closed(found: &Option<Report>) -> bool
    ensures { result ≡ true → IfSome found.now (λ report. isnt_open report.finding ≡ true) }
{
    match found {
        Some(report) => isnt_open(report.finding),
        None => false,
    }
}

/// The report of a claim about the whole program: one that isn't open, or else one whose ends are nearer to each other than the own ones.
/// Such ends are looked for where the budget has solves: without any, the method is still to come.
fn whole(
    alloc: Global,
    program: &Program,
    own: &Report,
    budget: Budget,
    hint: &mut WholeHint,
) -> Result<Option<Report>, Memory>
    requires { IsTrue (view_of (content program.now)) (told_reasons program.now budget) own.now }
    ensures { IfOk result (λ found. IfSome found (AnswersWhole program.now budget own.now)) }
{
    let guess = guessed(alloc, program, own, budget.solves, hint)?;
    if is_closed(&guess) {
        return Ok(guess);
    }
    if budget.solves == 0 {
        return Ok(None);
    }
    nearer(alloc, program, own, &guess, budget)
}

/// The method's own report of the program, or that of a claim about the whole program, where the own one is left open since an operation
/// passed, or since solves or pivots have ended whose number the words don't state. A claim whose test leaves its report open changes
/// nothing, unless its ends are nearer to each other.
pub(crate) fn own_or_whole<W: Watch>(
    alloc: Global,
    program: &Program,
    own: Report,
    budget: Budget,
    stated: StatedLimits,
    hint: &mut WholeHint,
    watch: &mut W,
) -> Result<Answered, Memory>
    requires counts { HasCounts (view_of (content program.now)) own }
    requires names { ListsHaveNames program.now own }
    requires lists { ListsAreOf (content program.now) own }
    requires truth { IsTrue (view_of (content program.now)) (told_reasons program.now budget) own }
    requires equal { EqualIsOptimal own }
    ensures number { IfOk result (λ answered. answered.report.number ≡ own.number) }
    ensures counts { IfOk result (λ answered. HasCounts (view_of (content program.now)) answered.report) }
    ensures names { IfOk result (λ answered. ListsHaveNames program.now answered.report) }
    ensures lists { IfOk result (λ answered. ListsAreOf (content program.now) answered.report) }
    ensures truth { let p = content program.now in
        IfOk result (λ answered. IsTrue (view_of p) (told_reasons program.now budget) answered.report) }
    ensures equal { IfOk result (λ answered. EqualIsOptimal answered.report) }
    ensures whole { IfOk result (λ answered. IsOwnOrWhole answered.by_whole stated program.now own answered.report) }
{
    if !asks_whole(own.finding, stated) {
        return Ok(Answered {
            report: own,
            by_whole: false,
        });
    }
    watch.see_whole();
    match whole(alloc, program, &own, budget, hint)? {
        Some(report) => Ok(Answered {
            report,
            by_whole: true,
        }),
        None => Ok(Answered {
            report: own,
            by_whole: false,
        }),
    }
}
