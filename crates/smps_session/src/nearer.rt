//! A report with ends that are nearer to each other than those of the method's own one.
ghost use Rattle.std.specs.Prelude.{◌≡◌, true, false, IfOk, IfSome};
ghost use Rattle.scen_defs.specs.Program.{content, view_of};
ghost use Rattle.report_defs.specs.Truth.{IsTrue};
ghost use Rattle.smps_session.specs.Reasons.{told_reasons};
ghost use Rattle.smps_session.specs.Whole.{isnt_open, keeps_lower, keeps_upper, KeepsEnds, AnswersWhole};

use crate::whole::{isnt_open, tested_for};
use frac128::{Frac, Memory};
use pass_core::Budget;
use proved_report::{Claim, Open, report};
use scen_defs::{Finding, Place, Program, Report, Values};
use std::alloc::Global;
use whole_guess::near_claim;

/// Whether a lower end that is there is kept, or a higher one takes its place.
fn keeps_lower(own: Option<Frac>, found: Option<Frac>) -> bool
    ensures { result ≡ keeps_lower own found }
{
    match (own, found) {
        (None, _) => true,
        (Some(_), None) => false,
        (Some(own), Some(found)) => own <= found,
    }
}

/// Whether an upper end that is there is kept, or a lower one takes its place.
fn keeps_upper(own: Option<Frac>, found: Option<Frac>) -> bool
    ensures { result ≡ keeps_upper own found }
{
    match (own, found) {
        (None, _) => true,
        (Some(_), None) => false,
        (Some(own), Some(found)) => found <= own,
    }
}

/// Whether a report keeps the ends of another one, and one of its ends is nearer.
fn tells_more(own: &Report, found: &Report) -> bool
    ensures { result ≡ true → KeepsEnds own.now found.now }
{
    if keeps_lower(own.lower, found.lower) && keeps_upper(own.upper, found.upper) {
        !(keeps_lower(found.lower, own.lower) && keeps_upper(found.upper, own.upper))
    } else {
        false
    }
}

/// The nearest ends that are known, with their lists.
#[derive(Drop)]
struct Nearest {
    lower: Option<Frac>,
    dual: Option<Values>,
    upper: Option<Frac>,
    policy: Option<Values>,
}

impl Nearest {
    fn new() -> Nearest {
        Nearest {
            lower: None,
            dual: None,
            upper: None,
            policy: None,
        }
    }

    /// Takes the ends of a report where they are nearer.
    fn take(&mut self, alloc: Global, report: &Report) -> Result<(), Memory> {
        if let Some(dual) = &report.dual {
            if !keeps_lower(report.lower, self.lower) {
                self.dual = Some(dual.copy(alloc)?);
                self.lower = report.lower;
            }
        }
        if let Some(policy) = &report.policy {
            if !keeps_upper(report.upper, self.upper) {
                self.policy = Some(policy.copy(alloc)?);
                self.upper = report.upper;
            }
        }
        Ok(())
    }

    fn has_both(&self) -> bool {
        self.lower.is_some() && self.upper.is_some()
    }

    fn claim(self) -> Claim {
        Claim::Ends {
            policy: self.policy,
            dual: self.dual,
        }
    }
}

/// The ends of a claim near the optimum, where there is one.
fn take_near(alloc: Global, program: &Program, nearest: &mut Nearest) -> Result<(), Memory> {
    let Some(claim) = near_claim(alloc, program)? else {
        return Ok(());
    };
    let near = report(alloc, program, 0, claim, Place::Cost(0), Open::Solves(0), 0)?;
    nearest.take(alloc, &near)
}

/// The claim of the nearest ends that are known: of the guess, of a policy and multipliers near the optimal ones where the guess doesn't
/// have both, and of the own report.
fn nearest_claim(
    alloc: Global,
    program: &Program,
    own: &Report,
    guess: &Option<Report>,
) -> Result<Claim, Memory> {
    let mut nearest = Nearest::new();
    if let Some(guess) = guess {
        nearest.take(alloc, guess)?;
    }
    if !nearest.has_both() {
        take_near(alloc, program, &mut nearest)?;
    }
    nearest.take(alloc, own)?;
    Ok(nearest.claim())
}

/// A report with another finding.
fn with_finding(report: Report, finding: Finding) -> Report
    ensures { result ≡ record report { finding = finding } }
{
    Report { finding, ..report }
}

/// Whether the own report is open, and an end of the other one is nearer.
fn is_nearer(own: &Report, tested: &Report) -> bool
    ensures left_open { result ≡ true → isnt_open own.now.finding ≡ false }
    ensures keeps { result ≡ true → KeepsEnds own.now tested.now }
{
    if isnt_open(own.finding) {
        false
    } else {
        tells_more(own, tested)
    }
}

/// The report of the nearest ends that are known: where they are equal it isn't open, and where they are nearer to each other than those of
/// the own report it is open for the own reason.
pub(crate) fn nearer(
    alloc: Global,
    program: &Program,
    own: &Report,
    guess: &Option<Report>,
    budget: Budget,
) -> Result<Option<Report>, Memory>
    requires { IsTrue (view_of (content program.now)) (told_reasons program.now budget) own.now }
    ensures { IfOk result (λ found. IfSome found (AnswersWhole program.now budget own.now)) }
{
    let claim = nearest_claim(alloc, program, own, guess)?;
    let tested = tested_for(alloc, program, own, claim, budget.solves)?;
    if isnt_open(tested.finding) {
        Ok(Some(tested))
    } else if is_nearer(own, &tested) {
        Ok(Some(with_finding(tested, own.finding)))
    } else {
        Ok(None)
    }
}
