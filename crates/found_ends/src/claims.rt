//! What is claimed of a program where nothing is left to find.
ghost use Rattle.std.specs.Prelude.{◌≡◌, List, Result, Some, IfOk, option_copied};
ghost use Rattle.rationals.specs.Passes.{Operation};
ghost use Rattle.frac128.specs.Faults.{FaultOf};
ghost use Rattle.scen_defs.specs.Values.{At};
ghost use Rattle.found_ends.specs.Claims.{found_or, multipliers_of, policy_of, cut_of, ends_of, IsReason};
ghost use Rattle.found_ends.specs.Claims.{by_ray, by_direction, by_ends, closed_by};

use crate::ends::{Bounded, Ends, Priced};
use crate::settled::Settled;
use cut_proof::SharedCut;
use dual_assemble::assemble;
use frac128::{ArithmeticFault, Memory, Passed};
use proved_report::{Claim, Open};
use scen_defs::{Place, Values};
use std::alloc::Global;

/// What is claimed of the program, and why the report is open where that doesn't settle it.
#[derive(Drop)]
pub struct Closed {
    pub claim: Claim,
    pub why: Open,
}

/// The multipliers of a cut, or the operation in which their assembly ends.
#[derive(Drop)]
enum Multipliers {
    Found(Option<Values>),
    Not(Passed),
}

/// What is claimed by the ends that are known, with the lists that show it. `why` is why the report is open, if it is; where the assembly
/// of the multipliers passes 128 bits, its operation is told instead.
pub fn claimed(
    alloc: Global,
    case: Option<Settled>,
    ends: &Ends,
    why: Open,
) -> Result<Closed, Memory>
    ensures claim { IfOk result (λ closed. closed ≡ closed_by case ends.now why) }
    ensures why { IfOk result (λ closed. IsReason ends.now why closed.why) }
{
    let closed = closed_by(alloc, case, ends, why)?;
    Ok(closed)
}

/// What is claimed in a case.
fn closed_by(alloc: Global, case: Option<Settled>, ends: &Ends, why: Open) -> Result<Closed, Memory>
    ensures { IfOk result (λ closed. closed ≡ closed_by case ends.now why) }
{
    match case {
        Some(Settled::Infeasible) => nowhere(alloc, ends, why),
        Some(Settled::Unbounded) => endless(alloc, ends, why),
        Some(Settled::Optimal | Settled::Stopped | Settled::Spent) | None => {
            between(alloc, ends, why)
        }
    }
}

/// The multipliers of a cut, where there is one.
fn multipliers_of(alloc: Global, cut: Option<&SharedCut>) -> Result<Multipliers, Memory>
    ensures { IfOk result (λ m. m ≡ multipliers_of (option_copied cut.entry)) }
{
    match cut {
        Some(cut) => assembled(alloc, cut),
        None => Ok(Multipliers::Found(None)),
    }
}

/// The multipliers of a cut, or the operation in which their assembly ends.
fn assembled(alloc: Global, cut: &SharedCut) -> Result<Multipliers, Memory>
    ensures { IfOk result (λ m. m ≡ multipliers_of (Some cut.now)) }
{
    match assemble(alloc, cut.cut()) {
        Ok(values) => Ok(Multipliers::Found(Some(values))),
        Err(fault) => unassembled(fault),
    }
}

/// What is found where the assembly of multipliers ends in a fault.
fn unassembled(fault: ArithmeticFault) -> Result<Multipliers, Memory>
    ensures { (walk : Result (List At) Operation) → FaultOf walk fault → IfOk result (λ m. m ≡ found_or walk) }
{
    match fault {
        ArithmeticFault::Passed(passed) => Ok(Multipliers::Not(passed)),
        ArithmeticFault::Memory => Err(Memory),
    }
}

/// A claim of these ends.
fn ends_of(policy: Option<Values>, dual: Option<Values>, why: Open) -> Closed
    ensures { result ≡ ends_of policy dual why }
{
    Closed {
        claim: Claim::Ends { policy, dual },
        why,
    }
}

/// What shows that no point is feasible.
fn nowhere(alloc: Global, ends: &Ends, why: Open) -> Result<Closed, Memory>
    ensures { IfOk result (λ closed. closed ≡ by_ray (multipliers_of ends.now.nowhere) why) }
{
    let multipliers = multipliers_of(alloc, ends.nowhere.as_ref())?;
    Ok(by_ray(multipliers, why))
}

/// The claim of multipliers that show that no point is feasible, where they were found.
fn by_ray(multipliers: Multipliers, why: Open) -> Closed
    ensures { result ≡ by_ray multipliers why }
{
    match multipliers {
        Multipliers::Found(ray) => by_some_ray(ray, why),
        Multipliers::Not(passed) => without_dual(None, passed),
    }
}

/// The same where no operation passed.
fn by_some_ray(ray: Option<Values>, why: Open) -> Closed
    ensures { result ≡ by_ray (Multipliers.Found ray) why }
{
    match ray {
        Some(ray) => Closed {
            claim: Claim::Nowhere { ray },
            why,
        },
        None => ends_of(None, None, why),
    }
}

/// The claim without multipliers, whose assembly ends in an operation: that is told.
fn without_dual(policy: Option<Values>, passed: Passed) -> Closed
    ensures { result ≡ ends_of policy None (Open.Passed Place.Dual passed) }
{
    ends_of(policy, None, Open::Passed(Place::Dual, passed))
}

/// What shows that the cost falls for ever.
fn endless(alloc: Global, ends: &Ends, why: Open) -> Result<Closed, Memory>
    ensures { IfOk result (λ closed. closed ≡ by_direction (policy_of ends.now.upper) (policy_of ends.now.direction) why) }
{
    let policy = policy_of(alloc, &ends.upper)?;
    let direction = policy_of(alloc, &ends.direction)?;
    Ok(by_direction(policy, direction, why))
}

/// The claim of a policy and a direction, or of a policy alone.
fn by_direction(policy: Option<Values>, direction: Option<Values>, why: Open) -> Closed
    ensures { result ≡ by_direction policy direction why }
{
    match (policy, direction) {
        (Some(policy), Some(direction)) => Closed {
            claim: Claim::Endless { policy, direction },
            why,
        },
        (policy, None) => ends_of(policy, None, why),
        (None, Some(_direction)) => ends_of(None, None, why),
    }
}

/// What shows the ends that are known.
fn between(alloc: Global, ends: &Ends, why: Open) -> Result<Closed, Memory>
    ensures { IfOk result (λ closed. closed ≡ by_ends (policy_of ends.now.upper) (multipliers_of (cut_of ends.now.lower)) why) }
{
    let policy = policy_of(alloc, &ends.upper)?;
    let multipliers = multipliers_of(alloc, cut_of(&ends.lower))?;
    Ok(by_ends(policy, multipliers, why))
}

/// The claim of a policy and of multipliers, where they were found.
fn by_ends(policy: Option<Values>, multipliers: Multipliers, why: Open) -> Closed
    ensures { result ≡ by_ends policy multipliers why }
{
    match multipliers {
        Multipliers::Found(dual) => ends_of(policy, dual, why),
        Multipliers::Not(passed) => without_dual(policy, passed),
    }
}

fn policy_of(alloc: Global, found: &Option<Priced>) -> Result<Option<Values>, Memory>
    ensures { IfOk result (λ policy. policy ≡ policy_of found.now) }
{
    match found {
        Some(found) => Ok(Some(found.policy.copy(alloc)?)),
        None => Ok(None),
    }
}

fn cut_of(found: &Option<Bounded>) -> Option<&SharedCut>
    ensures { option_copied result ≡ cut_of found.now }
{
    match found {
        Some(found) => Some(&found.cut),
        None => None,
    }
}
