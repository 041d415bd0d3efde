//! Tests of the lists that a method claims.
ghost use Rattle.std.specs.Prelude.{◌≡◌, IfOk, IfSome, Some};
ghost use Rattle.rationals.specs.Rational.{at_most, zero_ℚ};
ghost use Rattle.scen_defs.specs.Values.{at};
ghost use Rattle.scen_defs.specs.Flat.{without_costs};
ghost use Rattle.scen_defs.specs.declared.report.Place.{Place as PlaceOf};
ghost use Rattle.scen_model.specs.Walks.{cost_walk, dual_walk, feasible_walk, direction_walk};
ghost use Rattle.report_defs.specs.Seen.{seen};
ghost use Rattle.proved_report.specs.declared.tested.Tested.{Tested as TestedOf};
ghost use Rattle.proved_report.specs.Tested.{where_meets, where_above, by_cost, by_value, policy_test, dual_test};
ghost use Rattle.report_defs.specs.Shows.{ShowsLower, ShowsUpper};
ghost use Rattle.proved_report.specs.Rounded.{rounded_test, exact_end, passed_before, IsEnd};
ghost use Rattle.proved_report.specs.Tested.{direction_test, ray_test, some_policy_test, some_dual_test, Gives, shown_number, or_before};

use crate::open::Open;
use frac128::{Frac, Memory, Passed};
use rounded_ends::{Side, cost_beside, is_feasible, worth_beside};
use scen_defs::{Halt, Place, Program, Values};
use scen_model::{cost, dual_value, feasible, fits, is_direction, zero_value};
use std::alloc::Global;

/// What a test of a list comes to.
#[derive(Drop)]
pub enum Tested {
    /// The list shows this number.
    Shows(Frac, Values),
    /// It doesn't show what is claimed.
    Fails,
    /// This operation of the test passes 128 bits.
    Passes(Passed),
}

/// What is printed of a list that shows an end, and the operation of its test that passes, where one does.
#[derive(Drop)]
pub(crate) struct End {
    /// The test, or the list with a number that is rounded outward where an operation of the test passes.
    pub(crate) printed: Tested,
    pub(crate) passed: Option<Passed>,
}

/// Keeps a list with the number that was computed for it.
fn kept(values: Values, computed: Result<Option<Frac>, Halt>) -> Result<Tested, Memory>
    ensures { (tested : TestedOf) → Gives values tested computed → IfOk result (λ t. t ≡ tested) }
{
    match computed {
        Ok(Some(number)) => Ok(Tested::Shows(number, values)),
        Ok(None) => Ok(Tested::Fails),
        Err(halt) => Ok(Tested::Passes(operation(halt)?)),
    }
}

/// The operation in which a computation ended.
fn operation(halt: Halt) -> Result<Passed, Memory>
    ensures { IfOk result (λ passed. (place : PlaceOf) × (halt ≡ Halt.Passed place passed)) }
{
    match halt {
        Halt::Passed(_place, passed) => Ok(passed),
        Halt::Memory => Err(Memory),
    }
}

/// The cost of a policy that fits and is feasible.
fn upper_end(alloc: Global, program: &Program, policy: &Values) -> Result<Option<Frac>, Halt>
    ensures { Gives policy.now (policy_test program.now policy.now) result }
{
    if fits(program, policy, false) {
        feasible_cost(alloc, program, policy)
    } else {
        Ok(None)
    }
}

/// The cost of a policy that is feasible.
fn feasible_cost(alloc: Global, program: &Program, policy: &Values) -> Result<Option<Frac>, Halt>
    ensures { let x = at policy.now in
        Gives policy.now (where_meets (feasible_walk (seen program.now) x) (by_cost policy.now (cost_walk (seen program.now) x))) result }
{
    if feasible(alloc, program, policy)? {
        let upper = cost(alloc, program, policy)?;
        Ok(Some(upper))
    } else {
        Ok(None)
    }
}

/// The value of a dual that fits and is good.
fn lower_end(alloc: Global, program: &Program, dual: &Values) -> Result<Option<Frac>, Halt>
    ensures { Gives dual.now (dual_test program.now dual.now) result }
{
    if fits(program, dual, true) {
        dual_value(alloc, program, dual)
    } else {
        Ok(None)
    }
}

/// The cost of a direction that fits and is one.
fn slope(alloc: Global, program: &Program, direction: &Values) -> Result<Option<Frac>, Halt>
    ensures { Gives direction.now (direction_test program.now direction.now) result }
{
    if fits(program, direction, false) {
        falling_cost(alloc, program, direction)
    } else {
        Ok(None)
    }
}

/// The cost of a direction that is one.
fn falling_cost(alloc: Global, program: &Program, direction: &Values) -> Result<Option<Frac>, Halt>
    ensures { let d = at direction.now in
        let cost = by_cost direction.now (cost_walk (seen program.now) d) in
        Gives direction.now (where_meets (direction_walk (seen program.now) d) cost) result }
{
    if is_direction(alloc, program, direction)? {
        let slope = cost(alloc, program, direction)?;
        Ok(Some(slope))
    } else {
        Ok(None)
    }
}

/// The value of a ray that fits and shows that no policy is feasible.
fn ray_value(alloc: Global, program: &Program, ray: &Values) -> Result<Option<Frac>, Halt>
    ensures { Gives ray.now (ray_test program.now ray.now) result }
{
    if fits(program, ray, true) {
        value_above_zero(alloc, program, ray)
    } else {
        Ok(None)
    }
}

/// The value of a ray where that is above 0.
fn value_above_zero(alloc: Global, program: &Program, ray: &Values) -> Result<Option<Frac>, Halt>
    ensures { Gives ray.now (where_above (by_value ray.now (dual_walk (without_costs (seen program.now)) (at ray.now)))) result }
{
    match zero_value(alloc, program, ray)? {
        None => Ok(None),
        Some(number) => {
            if is_at_most_zero(number) {
                Ok(None)
            } else {
                Ok(Some(number))
            }
        }
    }
}

fn is_at_most_zero(number: Frac) -> bool
    ensures { result ≡ at_most number zero_ℚ }
{
    number <= Frac::zero()
}

/// Tests a policy.
pub(crate) fn test_policy(
    alloc: Global,
    program: &Program,
    policy: Values,
) -> Result<Tested, Memory>
    ensures { IfOk result (λ tested. tested ≡ policy_test program.now policy) }
{
    let computed = upper_end(alloc, program, &policy);
    kept(policy, computed)
}

/// A number that is at least what a policy costs, which is feasible.
fn rounded_upper(alloc: Global, program: &Program, policy: &Values) -> Result<Option<Frac>, Memory>
    ensures { IfOk result (λ found. IfSome found (λ number. ShowsUpper (seen program.now) number policy.now)) }
{
    if is_feasible(program, policy) {
        cost_beside(alloc, Side::Above, program, policy)
    } else {
        Ok(None)
    }
}

/// A number that is at most what a dual is worth, which is good.
fn rounded_lower(alloc: Global, program: &Program, dual: &Values) -> Result<Option<Frac>, Memory>
    ensures { IfOk result (λ found. IfSome found (λ number. ShowsLower (seen program.now) number dual.now)) }
{
    worth_beside(alloc, Side::Below, program, dual)
}

/// What is printed of a list in whose test an operation passes: the rounded number, where there is one.
fn rounded(values: Values, number: Option<Frac>, passed: Passed) -> Tested
    ensures { result ≡ rounded_test values number passed }
{
    match number {
        Some(number) => Tested::Shows(number, values),
        None => Tested::Passes(passed),
    }
}

/// An end as its test says.
fn exact_end(values: Values, computed: Option<Frac>) -> End
    ensures { result ≡ exact_end values computed }
{
    let printed = match computed {
        Some(number) => Tested::Shows(number, values),
        None => Tested::Fails,
    };
    End {
        printed,
        passed: None,
    }
}

/// The upper end of a policy.
fn policy_end(alloc: Global, program: &Program, policy: Values) -> Result<End, Memory>
    ensures { IfOk result (IsEnd (ShowsUpper (seen program.now)) (Some policy) (policy_test program.now policy)) }
{
    match upper_end(alloc, program, &policy) {
        Ok(computed) => Ok(exact_end(policy, computed)),
        Err(halt) => {
            let passed = operation(halt)?;
            let number = rounded_upper(alloc, program, &policy)?;
            Ok(End {
                printed: rounded(policy, number, passed),
                passed: Some(passed),
            })
        }
    }
}

/// The lower end of a dual.
fn dual_end(alloc: Global, program: &Program, dual: Values) -> Result<End, Memory>
    ensures { IfOk result (IsEnd (ShowsLower (seen program.now)) (Some dual) (dual_test program.now dual)) }
{
    match lower_end(alloc, program, &dual) {
        Ok(computed) => Ok(exact_end(dual, computed)),
        Err(halt) => {
            let passed = operation(halt)?;
            let number = rounded_lower(alloc, program, &dual)?;
            Ok(End {
                printed: rounded(dual, number, passed),
                passed: Some(passed),
            })
        }
    }
}

/// The upper end of a policy that may be wanting.
pub(crate) fn some_policy_end(
    alloc: Global,
    program: &Program,
    policy: Option<Values>,
) -> Result<End, Memory>
    ensures { IfOk result (IsEnd (ShowsUpper (seen program.now)) policy (some_policy_test program.now policy)) }
{
    match policy {
        Some(values) => policy_end(alloc, program, values),
        None => Ok(End {
            printed: Tested::Fails,
            passed: None,
        }),
    }
}

/// The lower end of a dual that may be wanting.
pub(crate) fn some_dual_end(
    alloc: Global,
    program: &Program,
    dual: Option<Values>,
) -> Result<End, Memory>
    ensures { IfOk result (IsEnd (ShowsLower (seen program.now)) dual (some_dual_test program.now dual)) }
{
    match dual {
        Some(values) => dual_end(alloc, program, values),
        None => Ok(End {
            printed: Tested::Fails,
            passed: None,
        }),
    }
}

impl End {
    /// Why a report is left open where this test comes first: because of an operation of the test that passes, told
    /// at this place, else as before.
    pub(crate) fn or_before(&self, place: Place, why: Open) -> Open
        ensures { result ≡ passed_before self.now.passed place why }
    {
        match self.passed {
            Some(passed) => Open::Passed(place, passed),
            None => why,
        }
    }
}

/// Tests a direction.
pub(crate) fn test_direction(
    alloc: Global,
    program: &Program,
    direction: Values,
) -> Result<Tested, Memory>
    ensures { IfOk result (λ tested. tested ≡ direction_test program.now direction) }
{
    let computed = slope(alloc, program, &direction);
    kept(direction, computed)
}

/// Tests a ray.
pub(crate) fn test_ray(alloc: Global, program: &Program, ray: Values) -> Result<Tested, Memory>
    ensures { IfOk result (λ tested. tested ≡ ray_test program.now ray) }
{
    let computed = ray_value(alloc, program, &ray);
    kept(ray, computed)
}

impl Tested {
    /// Why a report is left open where this test comes first: because of an operation of the test that passes, told
    /// at this place, else as before.
    pub(crate) fn or_before(&self, place: Place, why: Open) -> Open
        ensures { result ≡ or_before self.now place why }
    {
        match self {
            Tested::Passes(passed) => Open::Passed(place, *passed),
            Tested::Shows(_, _) => why,
            Tested::Fails => why,
        }
    }

    /// The number that is shown.
    pub(crate) fn number(&self) -> Option<Frac>
        ensures { result ≡ shown_number self.now }
    {
        match self {
            Tested::Shows(number, _) => Some(*number),
            Tested::Fails => None,
            Tested::Passes(_) => None,
        }
    }
}
