//! The claims of the lists of a report. Those of a list that isn't there hold.
ghost use Rattle.std.specs.Prelude.{◌≡◌, ◌&&◌, not};
ghost use Rattle.rationals.specs.Order.{same};
ghost use Rattle.rationals.specs.Rational.{at_most, zero_ℚ};
ghost use Rattle.scen_defs.specs.Values.{at};
ghost use Rattle.scen_defs.specs.Flat.{without_costs};
ghost use Rattle.scen_model.specs.Answers.{Answers};
ghost use Rattle.scen_model.specs.Walks.{cost_walk, feasible_walk, direction_walk, dual_walk};
ghost use Rattle.report_defs.specs.Seen.{seen};
ghost use Rattle.certificate_check.specs.Verdicts.{decided, and_then, tested, summed, at_most_summed, policy_verdict, worth_verdict};
ghost use Rattle.certificate_check.specs.Verdicts.{dual_verdict, above_verdict, ray_verdict, direction_verdict};

use crate::verdict::{Claim, Verdict};
use frac128::Frac;
use scen_defs::{Halt, Program, Values};
use scen_model::{cost, dual_value, feasible, is_direction, zero_value};
use std::alloc::Global;

/// A claim that holds or fails.
pub(crate) fn decided(claim: Claim, holds: bool) -> Verdict
    ensures { Ok result ≡ decided claim holds }
{
    if holds {
        Verdict::Holds
    } else {
        Verdict::Fails(claim)
    }
}

/// Whether a list costs this number.
fn test_cost(
    alloc: Global,
    program: &Program,
    values: &Values,
    claim: Claim,
    number: Frac,
) -> Result<Verdict, Halt>
    ensures { Answers (summed claim number (cost_walk (seen program.now) (at values.now))) result }
{
    let cost = cost(alloc, program, values)?;
    Ok(decided(claim, cost == number))
}

/// Whether a list costs at most this number.
fn test_most(
    alloc: Global,
    program: &Program,
    values: &Values,
    claim: Claim,
    number: Frac,
) -> Result<Verdict, Halt>
    ensures { Answers (at_most_summed claim number (cost_walk (seen program.now) (at values.now))) result }
{
    let cost = cost(alloc, program, values)?;
    Ok(decided(claim, is_at_most(cost, number)))
}

/// `Policy`, then `Cost`.
fn test_policy(
    alloc: Global,
    program: &Program,
    policy: &Values,
    upper: Frac,
) -> Result<Verdict, Halt>
    ensures { Answers (policy_verdict program.now (Some policy.now) (Some upper)) result }
{
    if feasible(alloc, program, policy)? {
        test_most(alloc, program, policy, Claim::Cost, upper)
    } else {
        Ok(Verdict::Fails(Claim::Policy))
    }
}

/// `Direction`, then `Slope`.
fn test_direction(
    alloc: Global,
    program: &Program,
    direction: &Values,
    slope: Frac,
) -> Result<Verdict, Halt>
    ensures { Answers (direction_verdict program.now (Some direction.now) (Some slope)) result }
{
    if is_direction(alloc, program, direction)? {
        test_cost(alloc, program, direction, Claim::Slope, slope)
    } else {
        Ok(Verdict::Fails(Claim::Direction))
    }
}

/// `Dual`, then `Lower`.
fn test_dual(alloc: Global, program: &Program, dual: &Values, lower: Frac) -> Result<Verdict, Halt>
    ensures { Answers (worth_verdict lower (dual_walk (seen program.now) (at dual.now))) result }
{
    match dual_value(alloc, program, dual)? {
        Some(worth) => Ok(decided(Claim::Lower, is_at_most(lower, worth))),
        None => Ok(Verdict::Fails(Claim::Dual)),
    }
}

fn is_at_most(a: Frac, b: Frac) -> bool
    ensures { result ≡ at_most a b }
{
    a <= b
}

fn is_at_most_zero(number: Frac) -> bool
    ensures { result ≡ at_most number zero_ℚ }
{
    number <= Frac::zero()
}

/// Whether a ray is worth its value, and that is above 0.
fn is_worth(worth: Frac, number: Frac) -> bool
    ensures { result ≡ (same worth number && not (at_most number zero_ℚ)) }
{
    worth == number && !is_at_most_zero(number)
}

/// `Ray`, then `Value`.
fn test_ray(alloc: Global, program: &Program, ray: &Values, number: Frac) -> Result<Verdict, Halt>
    ensures { Answers (above_verdict number (dual_walk (without_costs (seen program.now)) (at ray.now))) result }
{
    match zero_value(alloc, program, ray)? {
        Some(worth) => Ok(decided(Claim::Value, is_worth(worth, number))),
        None => Ok(Verdict::Fails(Claim::Ray)),
    }
}

/// The claims of the policy and the upper end.
pub(crate) fn policy_verdict(
    alloc: Global,
    program: &Program,
    policy: &Option<Values>,
    upper: Option<Frac>,
) -> Result<Verdict, Halt>
    ensures { Answers (policy_verdict program.now policy.now upper) result }
{
    match (policy, upper) {
        (Some(policy), Some(upper)) => test_policy(alloc, program, policy, upper),
        _ => Ok(Verdict::Holds),
    }
}

/// The claims of the dual and the lower end.
pub(crate) fn dual_verdict(
    alloc: Global,
    program: &Program,
    dual: &Option<Values>,
    lower: Option<Frac>,
) -> Result<Verdict, Halt>
    ensures { Answers (dual_verdict program.now dual.now lower) result }
{
    match (dual, lower) {
        (Some(dual), Some(lower)) => test_dual(alloc, program, dual, lower),
        _ => Ok(Verdict::Holds),
    }
}

/// The claims of the ray and its value.
pub(crate) fn ray_verdict(
    alloc: Global,
    program: &Program,
    ray: &Option<Values>,
    number: Option<Frac>,
) -> Result<Verdict, Halt>
    ensures { Answers (ray_verdict program.now ray.now number) result }
{
    match (ray, number) {
        (Some(ray), Some(number)) => test_ray(alloc, program, ray, number),
        _ => Ok(Verdict::Holds),
    }
}

/// The claims of the direction and its slope.
pub(crate) fn direction_verdict(
    alloc: Global,
    program: &Program,
    direction: &Option<Values>,
    slope: Option<Frac>,
) -> Result<Verdict, Halt>
    ensures { Answers (direction_verdict program.now direction.now slope) result }
{
    match (direction, slope) {
        (Some(direction), Some(slope)) => test_direction(alloc, program, direction, slope),
        _ => Ok(Verdict::Holds),
    }
}
