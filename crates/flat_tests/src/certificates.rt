//! What reports carry, tried by the flat calls on programs of one period, worked by hand.
//!
//! How the numbers come, where they aren't plain:
//!
//! - a product mix: LIM1 times -3 is A's cost and below B's, and A = 4 costs -3 times 4.
//! - an infeasible core: NEED wants 5, and X is at most 3.
//! - a free column: X + 3 (2 - X) falls up to X = 2, where Y is 0.
//! - an upper bound alone: X is 3/2 at a cost of -2; held by the row it is -10 at a cost of 2.
//! - two bounds: X stands at 3 and Y at -2, their sum of 1 is above 0, and the cost is -3 - 4.
//! - a fixed column: X is 4, which leaves 6 for Y.
//! - ranges: A lies between 2 and 5, B between 5 and 8, C between 5 and 7, D between 3 and 5. The costs
//!   1, -1, 1 and -1 give 2 - 8 + 5 - 5, and -1, 1, -1 and 1 give -5 + 5 - 7 + 3.
//! - right-hand sides below 0: X and Y are at least 3 together, Z is X + 1, W at least -4. The cost is
//!   2 X + 5 Y + X + 1 + 3 W, least at X = 3 and W = -4: 9 + 1 - 12.
//! - a redundant equation: 3 of X, which costs less than Y.
//! - an empty column: X is 2 and Y at its bound, 3.
//! - a row without entries that nothing meets: 0 is to be at least 2.
//! - equations that exclude each other: X comes in by ONE at 1, and TWO is left with 3 - 2.
//! - without end behind phase one: X = 2 and Y = 1 cost -2 + 1/2; both grow alike, at -1 + 1/2.
//! - without end in a free column: X comes in at 4, then Y by its bound at 2, which makes X 6; X falls.
//! - without end below an upper bound: X falls from its bound, 2, at the cost of 3.
//! - Beale's program: X1 = 3/4, X4 = 1 and X6 = 1, so -3/4 - 1/2; the multipliers of R2 and R3 are -3/2
//!   and -5/4, worth -5/4.
use crate::tests::program;
use frac128::{Frac, parse};
use proved_report::{Claim, Open, report};
use run_watch::Unwatched;
use scen_model::{
    Finding, Halt, Place, Program, Report, Values, cost, dual_value, feasible, fits, is_direction,
    zero_value,
};
use smps_session::{StatedLimits, session};
use std::alloc::Global;
use std::process::Abort;
use std::test::Fail;
use std::thread::Threads;

/// Core files with a `#` between them. In front of each stands what is found: OPTIMAL with its cost,
/// INFEASIBLE with the value of the ray, UNBOUNDED with the cost of the policy and that of the direction.
const CORES: &str = "\
OPTIMAL -12
* a product mix
ROWS
 N COST
 L LIM1
 L LIM2
COLUMNS
 A COST -3 LIM1 1
 A LIM2 1
 B COST -2 LIM1 1
 B LIM2 3
RHS
 RHS LIM1 4 LIM2 6
ENDATA
#UNBOUNDED 0 -1
* without end
ROWS
 N COST
 L LIM
COLUMNS
 A COST -1 LIM -1
ENDATA
#OPTIMAL 0
* an objective alone
ROWS
 N COST
COLUMNS
 X COST 1
ENDATA
#UNBOUNDED 0 -1
* an objective alone, without end
ROWS
 N COST
COLUMNS
 X COST -1
ENDATA
#INFEASIBLE 2
* an infeasible core
ROWS
 N COST
 G NEED
COLUMNS
 X COST 1 NEED 1
RHS
 RHS NEED 5
BOUNDS
 UP BND X 3
ENDATA
#OPTIMAL 2
* a free column and an equation
ROWS
 N COST
 E SUM
 G LOW
COLUMNS
 X COST 1 SUM 1
 X LOW 1
 Y COST 3 SUM 1
RHS
 RHS SUM 2 LOW -5
BOUNDS
 FR BND X
 UP BND Y 4
ENDATA
#OPTIMAL -3
* an upper bound alone
ROWS
 N COST
 G NEED
COLUMNS
 X COST -2 NEED 1
RHS
 RHS NEED -10
BOUNDS
 MI BND X
 UP BND X 3/2
ENDATA
#OPTIMAL -20
* an upper bound alone, held by the row
ROWS
 N COST
 G NEED
COLUMNS
 X COST 2 NEED 1
RHS
 RHS NEED -10
BOUNDS
 MI BND X
 UP BND X 3/2
ENDATA
#OPTIMAL -7
* two bounds
ROWS
 N COST
 G SUM
COLUMNS
 X COST -1 SUM 1
 Y COST 2 SUM 1
BOUNDS
 LO BND X 1
 UP BND X 3
 LO BND Y -2
 UP BND Y 5
ENDATA
#OPTIMAL -10
* a fixed column
ROWS
 N COST
 L LIM
COLUMNS
 X COST -1 LIM 1
 Y COST -1 LIM 1
RHS
 RHS LIM 10
BOUNDS
 FX BND X 4
ENDATA
#OPTIMAL -6
* ranges on each kind of row
ROWS
 N COST
 L ATMOST
 G ATLEAST
 E UPWARD
 E DOWN
COLUMNS
 A COST 1 ATMOST 1
 B COST -1 ATLEAST 1
 C COST 1 UPWARD 1
 D COST -1 DOWN 1
RHS
 RHS ATMOST 5 ATLEAST 5
 RHS UPWARD 5 DOWN 5
RANGES
 RNG ATMOST -3 ATLEAST 3
 RNG UPWARD 2 DOWN -2
ENDATA
#OPTIMAL -4
* the other ends of the ranges
ROWS
 N COST
 L ATMOST
 G ATLEAST
 E UPWARD
 E DOWN
COLUMNS
 A COST -1 ATMOST 1
 B COST 1 ATLEAST 1
 C COST -1 UPWARD 1
 D COST 1 DOWN 1
RHS
 RHS ATMOST 5 ATLEAST 5
 RHS UPWARD 5 DOWN 5
RANGES
 RNG ATMOST -3 ATLEAST 3
 RNG UPWARD 2 DOWN -2
ENDATA
#OPTIMAL -2
* right-hand sides below 0
ROWS
 N COST
 L CAP
 E DIFF
 G LOW
COLUMNS
 X COST 2 CAP -1
 X DIFF 1
 Y COST 5 CAP -1
 Z COST 1 DIFF -1
 W COST 3 LOW 1
RHS
 RHS CAP -3 DIFF -1
 RHS LOW -4
BOUNDS
 FR BND W
ENDATA
#OPTIMAL 3
* a redundant equation
ROWS
 N COST
 E ONE
 E TWICE
COLUMNS
 X COST 1 ONE 1
 X TWICE 2
 Y COST 2 ONE 1
 Y TWICE 2
RHS
 RHS ONE 3 TWICE 6
ENDATA
#OPTIMAL 5
* an empty column
ROWS
 N COST
 G NEED
COLUMNS
 X COST 1 NEED 1
 Y COST 1
RHS
 RHS NEED 2
BOUNDS
 LO BND Y 3
ENDATA
#OPTIMAL 2
* a row without entries
ROWS
 N COST
 G NEED
 L NONE
COLUMNS
 X COST 1 NEED 1
RHS
 RHS NEED 2
ENDATA
#INFEASIBLE 2
* a row without entries that nothing meets
ROWS
 N COST
 G NONE
COLUMNS
 X COST 1
RHS
 RHS NONE 2
ENDATA
#INFEASIBLE 1
* equations that exclude each other
ROWS
 N COST
 E ONE
 E TWO
COLUMNS
 X COST 1 ONE 1
 X TWO 2
 Y ONE 1 TWO 2
RHS
 RHS ONE 1 TWO 3
ENDATA
#UNBOUNDED -3/2 -1/2
* without end behind phase one
ROWS
 N COST
 G NEED
 E SAME
COLUMNS
 X COST -1 NEED 1
 X SAME 1
 Y COST 1/2 SAME -1
RHS
 RHS NEED 2 SAME 1
ENDATA
#UNBOUNDED 8 -1
* without end in a free column
ROWS
 N COST
 L LIM
COLUMNS
 X COST 1 LIM 1
 Y COST 1 LIM -1
RHS
 RHS LIM 4
BOUNDS
 FR BND X
 UP BND Y 2
ENDATA
#UNBOUNDED 6 -3
* without end below an upper bound
ROWS
 N COST
 L LIM
COLUMNS
 X COST 3 LIM 1
RHS
 RHS LIM 4
BOUNDS
 MI BND X
 UP BND X 2
ENDATA
#OPTIMAL -5/4
NAME BEALE
ROWS
 N COST
 E R1
 E R2
 E R3
COLUMNS
 X1 R1 1
 X2 R2 1
 X3 R3 1
 X4 COST -3/4 R1 1/4
 X4 R2 1/2
 X5 COST 20 R1 -8
 X5 R2 -12
 X6 COST -1/2 R1 -1
 X6 R2 -1/2 R3 1
 X7 COST 6 R1 9
 X7 R2 3
RHS
 RHS R3 1
ENDATA
";

/// So many solves, and so many pivots in each, are allowed.
const BUDGET: u64 = 1000;

/// Both are stated: where they end, the report is the method's own.
const STATED: StatedLimits = StatedLimits {
    solves: true,
    pivots: true,
};

/// Whether the policy is feasible and costs this number.
fn is_policy(alloc: Global, program: &Program, policy: &Values, costs: Frac) -> Result<bool, Halt> {
    let meets = feasible(alloc, program, policy)?;
    let found = cost(alloc, program, policy)?;
    Ok(fits(program, policy, false) && meets && found == costs)
}

/// Whether the policy is feasible and costs this number, and the multipliers are good and worth it.
fn are_best(
    alloc: Global,
    program: &Program,
    policy: &Values,
    dual: &Values,
    best: Frac,
) -> Result<bool, Halt> {
    let is_met = is_policy(alloc, program, policy, best)?;
    let worth = dual_value(alloc, program, dual)?;
    Ok(is_met && fits(program, dual, true) && worth == Some(best))
}

/// Whether the ray shows by this number, which is above 0, that nothing is feasible.
fn shows_nothing(
    alloc: Global,
    program: &Program,
    ray: &Values,
    value: Frac,
) -> Result<bool, Halt> {
    let worth = zero_value(alloc, program, ray)?;
    Ok(fits(program, ray, true) && worth == Some(value) && value.sign() > 0)
}

/// Whether the direction is one and costs this number, which is below 0.
fn falls(alloc: Global, program: &Program, direction: &Values, slope: Frac) -> Result<bool, Halt> {
    let goes_on = is_direction(alloc, program, direction)?;
    let moves = cost(alloc, program, direction)?;
    Ok(fits(program, direction, false) && goes_on && moves == slope && slope.sign() < 0)
}

/// Whether a report is OPTIMAL with this cost, and shows it.
fn is_optimal(
    alloc: Global,
    program: &Program,
    report: &Report,
    numbers: &str,
) -> Result<bool, Fail> {
    let best = parse(numbers.as_bytes())?;
    if report.lower != Some(best) || report.upper != Some(best) {
        return Ok(false);
    }
    match (&report.policy, &report.dual) {
        (Some(policy), Some(dual)) => Ok(are_best(alloc, program, policy, dual, best)?),
        _ => Ok(false),
    }
}

/// Whether a report is INFEASIBLE with a ray of this value, and shows it.
fn is_infeasible(
    alloc: Global,
    program: &Program,
    report: &Report,
    numbers: &str,
) -> Result<bool, Fail> {
    let value = parse(numbers.as_bytes())?;
    match &report.ray {
        Some(ray) => {
            let shown = shows_nothing(alloc, program, ray, value)?;
            Ok(shown && report.extra == Some(value))
        }
        None => Ok(false),
    }
}

/// The cost of a policy and that of a direction.
fn two_numbers(numbers: &str) -> Result<(Frac, Frac), Fail> {
    let (upper, slope) = numbers.split_once(' ').ok_or("one number")?;
    let upper = parse(upper.as_bytes())?;
    let slope = parse(slope.as_bytes())?;
    Ok((upper, slope))
}

/// Whether a report is UNBOUNDED with a policy and a direction of these costs, and shows it.
fn is_unbounded(
    alloc: Global,
    program: &Program,
    report: &Report,
    numbers: &str,
) -> Result<bool, Fail> {
    let (upper, slope) = two_numbers(numbers)?;
    if report.upper != Some(upper) || report.extra != Some(slope) {
        return Ok(false);
    }
    match (&report.policy, &report.direction) {
        (Some(policy), Some(direction)) => {
            let is_met = is_policy(alloc, program, policy, upper)?;
            Ok(is_met && falls(alloc, program, direction, slope)?)
        }
        _ => Ok(false),
    }
}

/// Whether a report is so, and the flat calls show it.
fn is_shown(
    alloc: Global,
    program: &Program,
    report: &Report,
    expected: &str,
) -> Result<bool, Fail> {
    let (word, numbers) = expected.split_once(' ').ok_or("no numbers")?;
    match (report.finding, word) {
        (Finding::Optimal, "OPTIMAL") => is_optimal(alloc, program, report, numbers),
        (Finding::Infeasible, "INFEASIBLE") => is_infeasible(alloc, program, report, numbers),
        (Finding::Unbounded, "UNBOUNDED") => is_unbounded(alloc, program, report, numbers),
        _ => Ok(false),
    }
}

/// That nothing is feasible, by a report's ray.
fn nowhere(ray: Option<Values>) -> Result<Claim, Fail> {
    let ray = ray.ok_or("no ray")?;
    Ok(Claim::Nowhere { ray })
}

/// That the cost falls without end, by a report's policy and direction.
fn endless(policy: Option<Values>, direction: Option<Values>) -> Result<Claim, Fail> {
    match (policy, direction) {
        (Some(policy), Some(direction)) => Ok(Claim::Endless { policy, direction }),
        (None, _) => Err(Fail::from("no policy")),
        _ => Err(Fail::from("no direction")),
    }
}

/// What a report's lists claim.
fn claim_of(report: Report) -> Result<Claim, Fail> {
    match report.finding {
        Finding::Infeasible => nowhere(report.ray),
        Finding::Unbounded => endless(report.policy, report.direction),
        _ => Ok(Claim::Ends {
            policy: report.policy,
            dual: report.dual,
        }),
    }
}

/// Whether the report of another's lists alone is so, and the flat calls show it.
fn is_again_so(
    alloc: Global,
    program: &Program,
    first: Report,
    expected: &str,
) -> Result<bool, Fail> {
    let claim = claim_of(first)?;
    let again = report(alloc, program, 2, claim, Place::Cost(1), Open::Solves(1), 1)?;
    is_shown(alloc, program, &again, expected)
}

/// The report of a program.
fn first_report(
    rt: &(impl Threads + Sync),
    alloc: Global,
    program: &Program,
) -> Result<Report, Fail> {
    let answered = session(
        alloc,
        program,
        BUDGET,
        BUDGET,
        STATED,
        &mut Unwatched::new(rt),
    )?;
    Ok(answered.report)
}

/// Whether a program's report is so, and the flat calls show it; and the same of the report of its lists alone.
fn is_solved_so(
    rt: &(impl Threads + Sync),
    alloc: Global,
    program: &Program,
    expected: &str,
) -> Result<bool, Fail> {
    let first = first_report(rt, alloc, program)?;
    let is_first = is_shown(alloc, program, &first, expected)?;
    let is_again = is_again_so(alloc, program, first, expected)?;
    Ok(is_first && is_again)
}

/// Whether the program of a core file is solved so.
fn agrees(
    rt: &(impl Threads + Sync),
    alloc: Global,
    text: &str,
    expected: &str,
) -> Result<bool, Fail> {
    let program = program(alloc, text)?;
    is_solved_so(rt, alloc, &program, expected)
}

/// A core file that isn't solved so ends the test, by what is expected and by its text.
fn expect_core(rt: &impl Abort, is_so: bool, expected: &str, text: &str) {
    assert!(rt; is_so, "{expected} {text}");
}

/// A row of `CORES` holds.
fn is_core_row(rt: &(impl Abort + Threads + Sync), alloc: Global, row: &str) -> Result<(), Fail> {
    let (expected, text) = row.split_once('\n').ok_or("no core file")?;
    expect_core(rt, agrees(rt, alloc, text, expected)?, expected, text);
    Ok(())
}

#[test]
fn reports_are_shown_by_the_flat_calls(rt: HostRuntime) -> Result<(), Fail> {
    for row in CORES.split('#') {
        is_core_row(&rt, rt.alloc(), row)?;
    }
    Ok(())
}
