//! Ends that rounded sums show, where exact ones don't fit.
ghost use Rattle.std.specs.Prelude.{◌≡◌, IsTrue, IfOk};
ghost use Rattle.rationals.specs.Rational.{at_most};
ghost use Rattle.report_defs.specs.Seen.{seen};
ghost use Rattle.report_defs.specs.Shows.{Together, ShowsLower, ShowsUpper};

use crate::lists::{dual_verdict, policy_verdict};
use crate::verdict::Verdict;
use frac128::Frac;
use rounded_ends::{Side, cost_beside, is_feasible, worth_beside};
use scen_defs::{Halt, Program, Values};
use std::alloc::Global;

fn is_at_most(a: Frac, b: Frac) -> bool
    ensures { result ≡ at_most a b }
{
    a <= b
}

/// Whether rounding shows that a policy is feasible and costs at most this number.
fn costs_at_most(
    alloc: Global,
    program: &Program,
    policy: &Values,
    upper: Frac,
) -> Result<bool, Halt>
    ensures { IfOk result (λ yes. IsTrue yes → ShowsUpper (seen program.now) upper policy.now) }
{
    if !is_feasible(program, policy) {
        return Ok(false);
    }
    match cost_beside(alloc, Side::Above, program, policy) {
        Ok(Some(cost)) => Ok(is_at_most(cost, upper)),
        Ok(None) => Ok(false),
        Err(_) => Err(Halt::Memory),
    }
}

/// Whether rounding shows that a dual is good and worth at least this number.
fn is_worth_at_least(
    alloc: Global,
    program: &Program,
    dual: &Values,
    lower: Frac,
) -> Result<bool, Halt>
    ensures { IfOk result (λ yes. IsTrue yes → ShowsLower (seen program.now) lower dual.now) }
{
    match worth_beside(alloc, Side::Below, program, dual) {
        Ok(Some(worth)) => Ok(is_at_most(lower, worth)),
        Ok(None) => Ok(false),
        Err(_) => Err(Halt::Memory),
    }
}

/// Whether the upper end is shown, exactly or by rounding.
pub(crate) fn is_upper_shown(
    alloc: Global,
    program: &Program,
    policy: &Option<Values>,
    upper: Option<Frac>,
) -> Result<bool, Halt>
    ensures { IfOk result (λ yes. IsTrue yes → Together (ShowsUpper (seen program.now)) upper policy.now) }
{
    match (policy, upper) {
        (Some(values), Some(number)) => match policy_verdict(alloc, program, policy, upper) {
            Ok(Verdict::Holds) => Ok(true),
            Ok(Verdict::Fails(_)) => Ok(false),
            Err(_) => costs_at_most(alloc, program, values, number),
        },
        (None, None) => Ok(true),
        _ => Ok(false),
    }
}

/// Whether the lower end is shown, exactly or by rounding.
pub(crate) fn is_lower_shown(
    alloc: Global,
    program: &Program,
    dual: &Option<Values>,
    lower: Option<Frac>,
) -> Result<bool, Halt>
    ensures { IfOk result (λ yes. IsTrue yes → Together (ShowsLower (seen program.now)) lower dual.now) }
{
    match (dual, lower) {
        (Some(values), Some(number)) => match dual_verdict(alloc, program, dual, lower) {
            Ok(Verdict::Holds) => Ok(true),
            Ok(Verdict::Fails(_)) => Ok(false),
            Err(_) => is_worth_at_least(alloc, program, values, number),
        },
        (None, None) => Ok(true),
        _ => Ok(false),
    }
}
