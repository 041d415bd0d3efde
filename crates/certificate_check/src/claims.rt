//! The check of a report.
ghost use Rattle.std.specs.Prelude.{◌≡◌, IsTrue, IfOk, Ok};
ghost use Rattle.scen_model.specs.Answers.{Answers, HaltOf};
ghost use Rattle.report_defs.specs.Seen.{seen};
ghost use Rattle.certificate_check.specs.Verdicts.{late_verdict, end_verdict, bound_verdict, list_verdict, verdict_of};
ghost use Rattle.certificate_check.specs.Shown.{IsShown, IfHolds, JudgedBy};

use crate::ends::has_ends;
use crate::lists::{direction_verdict, dual_verdict, policy_verdict, ray_verdict};
use crate::rounding::{is_lower_shown, is_upper_shown};
use crate::shape::has_shape;
use crate::verdict::{Claim, Verdict};
use scen_defs::{Halt, Program, Report};
use std::alloc::Global;

/// Checks what a report claims of its program, claim by claim in their order.
///
/// The first claim that fails is told. An operation of the check that passes 128 bits before one fails ends it, with
/// place `Check`, unless sums that are rounded where they don't fit show that all claims hold.
pub fn check(alloc: Global, program: &Program, report: &Report) -> Result<Verdict, Halt>
    ensures exact { JudgedBy (verdict_of program.now report.now) result }
    ensures shown { IfHolds result (IsShown (seen program.now) report.now) }
{
    match verdict(alloc, program, report) {
        Ok(verdict) => Ok(verdict),
        Err(halt) => rounded(alloc, program, report, halt),
    }
}

/// The verdict where the exact one ends early: that all claims hold, where rounded sums show that.
fn rounded(alloc: Global, program: &Program, report: &Report, halt: Halt) -> Result<Verdict, Halt>
    requires halt { HaltOf (verdict_of program.now report.now) halt }
    ensures exact { JudgedBy (verdict_of program.now report.now) result }
    ensures shown { IfHolds result (IsShown (seen program.now) report.now) }
{
    match halt {
        Halt::Memory => Err(Halt::Memory),
        Halt::Passed(place, passed) => match is_shown(alloc, program, report) {
            Ok(true) => Ok(Verdict::Holds),
            Ok(false) => Err(Halt::Passed(place, passed)),
            Err(_) => Err(Halt::Memory),
        },
    }
}

/// Whether all claims are shown, by rounded sums where exact ones don't fit.
fn is_shown(alloc: Global, program: &Program, report: &Report) -> Result<bool, Halt>
    ensures { IfOk result (λ yes. IsTrue yes → IsShown (seen program.now) report.now) }
{
    if !has_shape(program, report) {
        return Ok(false);
    }
    if !has_ends(report.finding, report.lower, report.upper) {
        return Ok(false);
    }
    if !is_upper_shown(alloc, program, &report.policy, report.upper)? {
        return Ok(false);
    }
    if !is_lower_shown(alloc, program, &report.dual, report.lower)? {
        return Ok(false);
    }
    is_late_held(alloc, program, report)
}

/// Whether the claims of the ray and of the direction hold.
fn is_late_held(alloc: Global, program: &Program, report: &Report) -> Result<bool, Halt>
    ensures { IfOk result (λ yes. IsTrue yes → late_verdict program.now report.now ≡ Ok Verdict.Holds) }
{
    match late_verdict(alloc, program, report)? {
        Verdict::Holds => Ok(true),
        Verdict::Fails(_) => Ok(false),
    }
}

/// The verdict on all claims.
fn verdict(alloc: Global, program: &Program, report: &Report) -> Result<Verdict, Halt>
    ensures { Answers (verdict_of program.now report.now) result }
{
    if has_shape(program, report) {
        list_verdict(alloc, program, report)
    } else {
        Ok(Verdict::Fails(Claim::Shape))
    }
}

/// The claims behind `Shape`.
fn list_verdict(alloc: Global, program: &Program, report: &Report) -> Result<Verdict, Halt>
    ensures { Answers (list_verdict program.now report.now) result }
{
    match policy_verdict(alloc, program, &report.policy, report.upper)? {
        Verdict::Holds => bound_verdict(alloc, program, report),
        Verdict::Fails(claim) => Ok(Verdict::Fails(claim)),
    }
}

/// The claims behind those of the policy.
fn bound_verdict(alloc: Global, program: &Program, report: &Report) -> Result<Verdict, Halt>
    ensures { Answers (bound_verdict program.now report.now) result }
{
    match dual_verdict(alloc, program, &report.dual, report.lower)? {
        Verdict::Holds => end_verdict(alloc, program, report),
        Verdict::Fails(claim) => Ok(Verdict::Fails(claim)),
    }
}

/// `Ends`, and the claims behind it.
fn end_verdict(alloc: Global, program: &Program, report: &Report) -> Result<Verdict, Halt>
    ensures { Answers (end_verdict program.now report.now) result }
{
    if has_ends(report.finding, report.lower, report.upper) {
        late_verdict(alloc, program, report)
    } else {
        Ok(Verdict::Fails(Claim::Ends))
    }
}

/// The claims of the ray and of the direction.
fn late_verdict(alloc: Global, program: &Program, report: &Report) -> Result<Verdict, Halt>
    ensures { Answers (late_verdict program.now report.now) result }
{
    match ray_verdict(alloc, program, &report.ray, report.extra)? {
        Verdict::Holds => direction_verdict(alloc, program, &report.direction, report.extra),
        Verdict::Fails(claim) => Ok(Verdict::Fails(claim)),
    }
}
