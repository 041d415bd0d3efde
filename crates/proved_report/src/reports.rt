//! The report of what a method claims.
ghost use Rattle.std.specs.Prelude.{◌≡◌, IfOk};
ghost use Rattle.rationals.specs.Choices.{pick};
ghost use Rattle.scen_defs.specs.Fits.{ListsHaveNames};
ghost use Rattle.report_defs.specs.Truth.{IsTrue, HasCounts};
ghost use Rattle.proved_report.specs.Open.{given};
ghost use Rattle.report_defs.specs.Seen.{seen};
ghost use Rattle.proved_report.specs.Reports.{ends_finding, upper_report, lower_report, ends_report, ray_report};
ghost use Rattle.proved_report.specs.Reports.{direction_report, falling_report, IsClaimed, EqualIsOptimal, IsFilled, IsBlank};

use crate::claim::Claim;
use crate::counts::{live_nodes, scenario_count};
use crate::open::{Open, open_finding};
use crate::tested::{
    Tested, some_dual_end, some_policy_end, test_direction, test_policy, test_ray,
};
use frac128::{Frac, Memory};
use scen_defs::{Finding, Place, Program, Report, Values};
use std::alloc::Global;

/// The report of what a method claims of a program, whose lists are tested.
///
/// A policy is printed with its cost as the upper end where it fits the program and is feasible; a dual with its
/// value as the lower end where it fits and is good. `Optimal` is told where both are there and equal; `Infeasible`
/// where a ray fits, is good with all costs 0 and worth more than 0; `Unbounded` where a policy is shown and a
/// direction fits and is one. A list that doesn't show what is claimed, or whose test has an operation that passes
/// 128 bits, is left out; but where an operation passes in the test of the policy or the dual of ends, and sums that are
/// rounded outward where they don't fit still show an end, the list is printed with that. The finding is open then: the
/// first such operation is told, of a policy or a direction at `place`, of a dual or a ray at `Dual`, a policy's before
/// the other list's; without one it is as `why` says. An operation that is told passes: it is done again. Where the one
/// in `why` doesn't, which never comes of a correct method, `OpenSolves` tells `solves`.
pub fn report(
    alloc: Global,
    program: &Program,
    number: u32,
    claim: Claim,
    place: Place,
    why: Open,
    solves: u64,
) -> Result<Report, Memory>
    ensures number { IfOk result (λ report. report.number ≡ number) }
    ensures counts { IfOk result (HasCounts (seen program.now)) }
    ensures names { IfOk result (ListsHaveNames program.now) }
    ensures truth { IfOk result (IsTrue (seen program.now) (given why solves)) }
    ensures exact { IfOk result (IsClaimed program.now number place why solves claim) }
    ensures equal { IfOk result EqualIsOptimal }
{
    match claim {
        Claim::Ends { policy, dual } => ends(
            alloc, program, number, policy, dual, place, why, solves,
        ),
        Claim::Nowhere { ray } => nowhere(alloc, program, number, ray, why, solves),
        Claim::Endless { policy, direction } => {
            endless(
                alloc, program, number, policy, direction, place, why, solves,
            )
        }
    }
}

/// The report of a policy and a dual.
fn ends(
    alloc: Global,
    program: &Program,
    number: u32,
    policy: Option<Values>,
    dual: Option<Values>,
    place: Place,
    why: Open,
    solves: u64,
) -> Result<Report, Memory>
    ensures filled { IfOk result (IsFilled program.now number) }
    ensures exact { IfOk result (IsClaimed program.now number place why solves (Claim.Ends policy dual)) }
{
    let upper = some_policy_end(alloc, program, policy)?;
    let lower = some_dual_end(alloc, program, dual)?;
    let left = upper.or_before(place, lower.or_before(Place::Dual, why));
    let blank = blank(program, number, open_finding(left, solves));
    Ok(with_ends(blank, upper.printed, lower.printed))
}

/// The report of a ray.
fn nowhere(
    alloc: Global,
    program: &Program,
    number: u32,
    ray: Values,
    why: Open,
    solves: u64,
) -> Result<Report, Memory>
    ensures filled { IfOk result (IsFilled program.now number) }
    ensures exact { IfOk result (IsClaimed program.now number Place.Dual why solves (Claim.Nowhere ray)) }
{
    let ray = test_ray(alloc, program, ray)?;
    let left = ray.or_before(Place::Dual, why);
    let blank = blank(program, number, open_finding(left, solves));
    Ok(with_ray(blank, ray))
}

/// The report of a policy and a direction.
fn endless(
    alloc: Global,
    program: &Program,
    number: u32,
    policy: Values,
    direction: Values,
    place: Place,
    why: Open,
    solves: u64,
) -> Result<Report, Memory>
    ensures filled { IfOk result (IsFilled program.now number) }
    ensures exact { IfOk result (IsClaimed program.now number place why solves (Claim.Endless policy direction)) }
{
    let upper = test_policy(alloc, program, policy)?;
    let slope = test_direction(alloc, program, direction)?;
    let left = upper.or_before(place, slope.or_before(place, why));
    let blank = blank(program, number, open_finding(left, solves));
    Ok(with_slope(blank, upper, slope))
}

/// The finding of ends: equal ones are optimal.
fn ends_finding(lower: Option<Frac>, upper: Option<Frac>, finding: Finding) -> Finding
    ensures { result ≡ ends_finding lower upper finding }
{
    match (lower, upper) {
        (Some(lower), Some(upper)) => pick_optimal(lower == upper, finding),
        _ => finding,
    }
}

fn pick_optimal(is_equal: bool, finding: Finding) -> Finding
    ensures { result ≡ pick is_equal Finding.Optimal finding }
{
    if is_equal { Finding::Optimal } else { finding }
}

/// The report with the ends that were shown.
fn with_ends(blank: Report, upper: Tested, lower: Tested) -> Report
    ensures { result ≡ ends_report blank upper lower }
{
    let finding = ends_finding(lower.number(), upper.number(), blank.finding);
    let report = Report { finding, ..blank };
    with_lower(with_upper(report, upper), lower)
}

/// The report with a policy, where that shows its cost.
fn with_upper(report: Report, upper: Tested) -> Report
    ensures { result ≡ upper_report report upper }
{
    match upper {
        Tested::Shows(cost, policy) => Report {
            upper: Some(cost),
            policy: Some(policy),
            ..report
        },
        _ => report,
    }
}

/// The report with a dual, where that shows its value.
fn with_lower(report: Report, lower: Tested) -> Report
    ensures { result ≡ lower_report report lower }
{
    match lower {
        Tested::Shows(value, dual) => Report {
            lower: Some(value),
            dual: Some(dual),
            ..report
        },
        _ => report,
    }
}

/// The report with a ray, where that shows its number.
fn with_ray(blank: Report, ray: Tested) -> Report
    ensures { result ≡ ray_report blank ray }
{
    match ray {
        Tested::Shows(number, values) => Report {
            finding: Finding::Infeasible,
            extra: Some(number),
            ray: Some(values),
            ..blank
        },
        _ => blank,
    }
}

/// The report with a policy and a direction, or with a policy alone.
fn with_slope(blank: Report, upper: Tested, slope: Tested) -> Report
    ensures { result ≡ falling_report blank upper slope }
{
    if upper.number().is_some() {
        with_direction(with_upper(blank, upper), slope)
    } else {
        blank
    }
}

/// The report with a direction, where that shows its cost.
fn with_direction(report: Report, slope: Tested) -> Report
    ensures { result ≡ direction_report report slope }
{
    match slope {
        Tested::Shows(cost, direction) => Report {
            finding: Finding::Unbounded,
            extra: Some(cost),
            direction: Some(direction),
            ..report
        },
        _ => report,
    }
}

/// A report without ends and lists.
fn blank(program: &Program, number: u32, finding: Finding) -> Report
    ensures { IsBlank program.now number finding result }
{
    Report {
        number,
        nodes: live_nodes(&program.nodes),
        scenarios: scenario_count(&program.scenarios),
        finding,
        lower: None,
        upper: None,
        extra: None,
        policy: None,
        direction: None,
        dual: None,
        ray: None,
    }
}
