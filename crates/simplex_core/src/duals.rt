//! The duals at the end of each phase.
ghost use Rattle.std.specs.Prelude.{◌≡◌, ◌+◌, ◌<◌, ◌^◌, [], IfOk, MatchResult, Ok};
ghost use Rattle.frac128.specs.Faults.{FaultOf};
ghost use Rattle.lp_defs.specs.Phases.{first_duals, unit_duals};

use crate::entries::Entries;
use frac128::{ArithmeticFault, Frac, Memory};
use std::alloc::Global;

/// The duals of phase one: 1 less the reduced cost, for `count` columns from `first` on.
pub fn first_duals(
    alloc: Global,
    objective: &Entries,
    first: u64,
    count: u64,
) -> Result<Vec<Frac>, ArithmeticFault>
    requires { first + count < 2 ^ 64 }
    ensures { MatchResult result (λ duals. first_duals first count objective.now [] ≡ Ok duals.items)
        (FaultOf (first_duals first count objective.now [])) }
{
    let mut duals = Vec::new(alloc);
    for column in first..first + count {
        let dual = Frac::one().sub(objective.value_at(column))?;
        duals.push(dual)?;
    }
    Ok(duals)
}

/// The duals of phase two: the negative reduced costs of `count` columns from `first` on.
pub fn unit_duals(
    alloc: Global,
    objective: &Entries,
    first: u64,
    count: u64,
) -> Result<Vec<Frac>, Memory>
    requires { first + count < 2 ^ 64 }
    ensures { IfOk result (λ duals. duals.items ≡ unit_duals first count objective.now) }
{
    let mut duals = Vec::new(alloc);
    for column in first..first + count {
        duals.push(objective.value_at(column).neg())?;
    }
    Ok(duals)
}
