//! A report of INFEASIBLE by fewer lines.
ghost use Rattle.std.specs.Prelude.{◌≡◌, ◌⊎◌, true, IfOk, IfSome};
ghost use Rattle.scen_defs.specs.Fits.{ListsHaveNames};
ghost use Rattle.scen_defs.specs.Program.{content, view_of};
ghost use Rattle.report_defs.specs.Findings.{has_ray, IsInfeasible};
ghost use Rattle.report_defs.specs.Truth.{IsTrue, HasCounts};
ghost use Rattle.proved_report.specs.Reports.{EqualIsOptimal};
ghost use Rattle.smps_session.specs.Lists.{ListsAreOf};
ghost use Rattle.smps_session.specs.Reasons.{told_reasons};
ghost use Rattle.smps_session.specs.Shorter.{line_count, IsShorter, HasShorterRay, IsPrinted};

use crate::whole::{Answered, StatedLimits, own_or_whole};
use frac128::Memory;
use pass_core::Budget;
use proved_report::{Claim, Open, report};
use run_watch::Watch;
use scen_defs::{Finding, Place, Program, Report};
use std::alloc::Global;
use whole_guess::{WholeHint, shorter_ray};

fn has_ray(finding: Finding) -> bool
    ensures { result ≡ has_ray finding }
{
    matches!(finding, Finding::Infeasible)
}

/// How many lines the ray of a report has.
fn line_count(report: &Report) -> usize
    ensures { result ≡ line_count report.now.ray }
{
    match &report.ray {
        Some(ray) => ray.items().len(),
        None => 0,
    }
}

/// Whether two reports are INFEASIBLE, the second one by fewer lines.
fn is_shorter(found: &Report, tested: &Report) -> bool
    ensures { result ≡ true → IsShorter found.now tested.now }
{
    if has_ray(found.finding) && has_ray(tested.finding) {
        line_count(tested) < line_count(found)
    } else {
        false
    }
}

/// The report of a ray with fewer lines, where one is guessed that stands its test.
fn shorter(alloc: Global, program: &Program, found: &Report) -> Result<Option<Report>, Memory>
    ensures names { IfOk result (λ tested. IfSome tested (ListsHaveNames program.now)) }
    ensures lists { IfOk result (λ tested. IfSome tested (ListsAreOf (content program.now))) }
    ensures truth { IfOk result (λ tested. IfSome tested (IsInfeasible (view_of (content program.now)))) }
    ensures shorter { IfOk result (λ tested. IfSome tested (IsShorter found.now)) }
{
    let Some(longer) = &found.ray else {
        return Ok(None);
    };
    let Some(ray) = shorter_ray(alloc, program, longer)? else {
        return Ok(None);
    };
    let claim = Claim::Nowhere { ray };
    let tested = report(
        alloc,
        program,
        found.number,
        claim,
        Place::Dual,
        Open::Solves(0),
        0,
    )?;
    if is_shorter(found, &tested) {
        Ok(Some(tested))
    } else {
        Ok(None)
    }
}

/// A report with the ray of another one.
fn with_ray(found: Report, tested: Report) -> Report
    ensures { result ≡ record found { extra = tested.extra; ray = tested.ray } }
{
    Report {
        extra: tested.extra,
        ray: tested.ray,
        ..found
    }
}

/// The report that was found, with a shorter ray where there is one.
fn shortened(
    alloc: Global,
    program: &Program,
    found: Report,
    budget: Budget,
) -> Result<Report, Memory>
    requires names { ListsHaveNames program.now found }
    requires lists { ListsAreOf (content program.now) found }
    requires truth { IsTrue (view_of (content program.now)) (told_reasons program.now budget) found }
    ensures names { IfOk result (ListsHaveNames program.now) }
    ensures lists { IfOk result (ListsAreOf (content program.now)) }
    ensures truth { IfOk result (IsTrue (view_of (content program.now)) (told_reasons program.now budget)) }
    ensures ray { IfOk result (λ report. (report ≡ found) ⊎ HasShorterRay found report) }
{
    match shorter(alloc, program, &found)? {
        Some(tested) => Ok(with_ray(found, tested)),
        None => Ok(found),
    }
}

/// The method's own report of the program, or one of the whole program (see `own_or_whole`), and where it is INFEASIBLE with as few lines
/// as are found.
pub(crate) fn answer<W: Watch>(
    alloc: Global,
    program: &Program,
    own: Report,
    budget: Budget,
    stated: StatedLimits,
    hint: &mut WholeHint,
    watch: &mut W,
) -> Result<Answered, Memory>
    requires counts { HasCounts (view_of (content program.now)) own }
    requires names { ListsHaveNames program.now own }
    requires lists { ListsAreOf (content program.now) own }
    requires truth { IsTrue (view_of (content program.now)) (told_reasons program.now budget) own }
    requires equal { EqualIsOptimal own }
    ensures number { IfOk result (λ answered. answered.report.number ≡ own.number) }
    ensures counts { IfOk result (λ answered. HasCounts (view_of (content program.now)) answered.report) }
    ensures names { IfOk result (λ answered. ListsHaveNames program.now answered.report) }
    ensures lists { IfOk result (λ answered. ListsAreOf (content program.now) answered.report) }
    ensures truth { let p = content program.now in
        IfOk result (λ answered. IsTrue (view_of p) (told_reasons program.now budget) answered.report) }
    ensures equal { IfOk result (λ answered. EqualIsOptimal answered.report) }
    ensures printed { IfOk result (λ answered. IsPrinted answered.by_whole stated program.now own answered.report) }
{
    let answered = own_or_whole(alloc, program, own, budget, stated, hint, watch)?;
    let report = shortened(alloc, program, answered.report, budget)?;
    Ok(Answered {
        report,
        by_whole: answered.by_whole,
    })
}
