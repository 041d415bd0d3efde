//! The report of a program on a tree.
ghost use Rattle.std.specs.Prelude.{◌≡◌, ◌+◌, ℕ, IfOk, OnOk};
ghost use Rattle.scen_defs.specs.Fits.{ListsHaveNames};
ghost use Rattle.scen_defs.specs.Program.{content, view_of, Program as ProgramOf};
ghost use Rattle.report_defs.specs.Truth.{IsTrue, HasCounts};
ghost use Rattle.proved_report.specs.Reports.{EqualIsOptimal};
ghost use Rattle.nested_method.specs.Stands.{HasFewNodes, StandsOn, StandsCleared};
ghost use Rattle.smps_session.specs.Lists.{ListsAreOf};
ghost use Rattle.smps_session.specs.Reasons.{told_reasons};
ghost use Rattle.smps_session.specs.Comes.{is_unfinished, ShowsFound, ComesOf, ComesOfAll, IsUnderWay};

use crate::shorter::answer;
use crate::whole::{Answered, StatedLimits};
use frac128::Memory;
use nested_method::Method;
use pass_core::Budget;
use proved_report::report;
use run_watch::Watch;
use scen_defs::{Finding, Program, Report};
use std::alloc::Global;
use whole_guess::WholeHint;

/// Solves a program on a tree by the nested method, with so many solves of nodes at most and so many pivots in each, and
/// tests what was found before it is told: see `proved_report::report`.
///
/// `OpenSolves` tells the solves that were allowed, which were made, `OpenPivots` that the pivots of a solve ended, with the number
/// of that solve, from 1, `OpenPassed` an operation that passes 128 bits and where it stands. Where the method leaves the report open
/// for an operation, or for solves or pivots whose number isn't stated, the whole program is tried at once: a claim about it that
/// stands its test is reported in place of the method's own report, which stays where none does.
pub fn session<W: Watch>(
    alloc: Global,
    program: &Program,
    solves: u64,
    pivots: u64,
    stated: StatedLimits,
    watch: &mut W,
) -> Result<Answered, Memory>
    ensures number { IfOk result (λ answered. answered.report.number ≡ 1) }
    ensures counts { IfOk result (λ answered. HasCounts (view_of (content program.now)) answered.report) }
    ensures names { IfOk result (λ answered. ListsHaveNames program.now answered.report) }
    ensures lists { IfOk result (λ answered. ListsAreOf (content program.now) answered.report) }
    ensures truth { let reasons = told_reasons program.now (record { solves = solves; pivots = pivots }) in
        IfOk result (λ answered. IsTrue (view_of (content program.now)) reasons answered.report) }
    ensures equal { IfOk result (λ answered. EqualIsOptimal answered.report) }
    ensures comes { let p = content program.now in HasFewNodes p → IfOk result (λ answered.
        ComesOfAll (record { solves = solves; pivots = pivots }) stated program.now answered.report) }
{
    let budget = Budget { solves, pivots };
    let mut method = Method::begin(alloc, program, budget)?;
    let own = reported(alloc, program, &mut method, 1, budget, watch)?;
    let mut hint = WholeHint::empty(alloc);
    answer(alloc, program, own, budget, stated, &mut hint, watch)
}

/// The report of what the method finds of the program, where nothing is left to find. Where it is left open though no operation passed, no
/// pivots ended and solves are left, which never comes of a correct method, the program is begun anew.
pub(crate) fn reported<W: Watch>(
    alloc: Global,
    program: &Program,
    method: &mut Method,
    number: u32,
    budget: Budget,
    watch: &mut W,
) -> Result<Report, Memory>
    ensures number { IfOk result (λ report. report.number ≡ number) }
    ensures counts { IfOk result (HasCounts (view_of (content program.now))) }
    ensures names { IfOk result (ListsHaveNames program.now) }
    ensures lists { IfOk result (ListsAreOf (content program.now)) }
    ensures truth { let p = content program.now in StandsOn p budget method.old
        → IfOk result (IsTrue (view_of p) (told_reasons program.now budget)) }
    ensures equal { IfOk result EqualIsOptimal }
    ensures stands { let p = content program.now in StandsOn p budget method.old → OnOk result (StandsOn p budget method.new) }
    ensures comes { (start : ProgramOf) (came : ℕ) → let p = content program.now in HasFewNodes p
        → StandsOn p budget method.old → StandsCleared method.old → IsUnderWay budget start came p method.old
        → IfOk result (λ report. ComesOf budget start came program.now method.old report method.new) }
    ensures cleared { let p = content program.now in HasFewNodes p → StandsOn p budget method.old → StandsCleared method.old
        → OnOk result (StandsCleared method.new) }
    ensures way { (start : ProgramOf) (came : ℕ) → let p = content program.now in HasFewNodes p
        → StandsOn p budget method.old → IsUnderWay budget start came p method.old
        → OnOk result (IsUnderWay budget start (came + 1) p method.new) }
{
    let mut report = found(alloc, program, method, number, budget, watch)?;
    for _ in 0..budget.solves {
        if !is_unfinished(&report, method) {
            break;
        }
        method.start_over(alloc, program)?;
        report = found(alloc, program, method, number, budget, watch)?;
    }
    method.close();
    Ok(report)
}

/// Whether a report is left open though solves are left, and neither an operation passed nor pivots ended.
fn is_unfinished(report: &Report, method: &Method) -> bool
    ensures { result ≡ is_unfinished report.now.finding method.now }
{
    match report.finding {
        Finding::OpenSolves(_) => !method.is_spent(),
        _ => false,
    }
}

/// The report of what the method finds of the program.
fn found<W: Watch>(
    alloc: Global,
    program: &Program,
    method: &mut Method,
    number: u32,
    budget: Budget,
    watch: &mut W,
) -> Result<Report, Memory>
    ensures number { IfOk result (λ report. report.number ≡ number) }
    ensures counts { IfOk result (HasCounts (view_of (content program.now))) }
    ensures names { IfOk result (ListsHaveNames program.now) }
    ensures lists { IfOk result (ListsAreOf (content program.now)) }
    ensures truth { let p = content program.now in StandsOn p budget method.old
        → IfOk result (IsTrue (view_of p) (told_reasons program.now budget)) }
    ensures equal { IfOk result EqualIsOptimal }
    ensures stands { let p = content program.now in StandsOn p budget method.old → OnOk result (StandsOn p budget method.new) }
    ensures shows { (start : ProgramOf) (came : ℕ) → let p = content program.now in HasFewNodes p
        → StandsOn p budget method.old → IfOk result (ShowsFound budget start came program.now method.old method.new) }
{
    let found = method.find(alloc, program, watch)?;
    report(
        alloc,
        program,
        number,
        found.claim,
        found.place,
        found.why,
        budget.solves,
    )
}
