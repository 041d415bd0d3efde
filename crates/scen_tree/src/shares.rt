//! The totals of nodes, and their shares in those of their parents.
ghost use Rattle.std.specs.Prelude.{◌≡◌, ◌<◌, ◌^◌, MatchResult, [], Ok, get_or, length};
ghost use Rattle.rationals.specs.Rational.{zero_ℚ};
ghost use Rattle.rationals.specs.Passes.{div_walk};
ghost use Rattle.scen_defs.specs.Program.{scenarios_content};
ghost use Rattle.frac128.specs.Faults.{FaultOf};
ghost use Rattle.scen_tree.specs.Chances.{share_walk, shares_from, gathered_from, chances_walk, chances_of};

use crate::position::Position;
use crate::totals::totals;
use frac128::{ArithmeticFault, Frac, Passed};
use scen_defs::Scenario;
use std::alloc::Global;

/// What the scenarios say of each node, by its number.
#[derive(Drop)]
pub struct Chances {
    /// The probability of all scenarios through the node.
    pub totals: Vec<Frac>,
    /// The total divided by the parent's total, 1 at the root.
    pub shares: Vec<Frac>,
}

/// The number in that place, 0 past the last one.
pub(crate) fn number_at(numbers: &[Frac], place: u32) -> Frac
    ensures { result ≡ get_or numbers.now place zero_ℚ }
{
    let place = place as usize;
    if place < numbers.len() {
        numbers[place]
    } else {
        Frac::zero()
    }
}

/// One number divided by another, and 0 where that is 0.
fn quotient(number: Frac, by: Frac) -> Result<Frac, Passed>
    ensures { result ≡ div_walk number by }
{
    if by.is_zero() {
        Ok(Frac::zero())
    } else {
        number.div(by)
    }
}

/// The share of a node with that total.
fn share(totals: &[Frac], total: Frac, position: Position) -> Result<Frac, Passed>
    ensures { result ≡ share_walk totals.now total position }
{
    match position {
        Position::Dropped => Ok(Frac::zero()),
        Position::Root => Ok(Frac::one()),
        Position::Below(parent) => quotient(total, number_at(totals, parent)),
    }
}

/// The shares of the nodes; or, by node, the first quotient that passes.
fn shares(
    alloc: Global,
    totals: &[Frac],
    positions: &[Position],
) -> Result<Vec<Frac>, ArithmeticFault>
    requires { length positions.now < 2 ^ 32 }
    ensures { MatchResult result (λ shares. gathered_from [] (shares_from totals.now 0 positions.now) ≡ Ok shares.items)
        (FaultOf (gathered_from [] (shares_from totals.now 0 positions.now))) }
{
    let mut shares = Vec::with_capacity(alloc, positions.len())?;
    for (node, position) in positions.iter().enumerate() {
        let total = number_at(totals, node as u32);
        let share = share(totals, total, *position)?;
        shares.push(share)?;
    }
    Ok(shares)
}

/// The totals and the shares of nodes that stand so, by number. `Passed` names the first operation that
/// passes: of the totals by node, each by scenario, and then of the shares by node.
pub fn node_chances(
    alloc: Global,
    positions: &[Position],
    scenarios: &[Scenario],
) -> Result<Chances, ArithmeticFault>
    requires { length positions.now < 2 ^ 32 }
    ensures { MatchResult result (λ chances. chances_walk positions.now (scenarios_content scenarios.now) ≡ Ok (chances_of chances))
        (FaultOf (chances_walk positions.now (scenarios_content scenarios.now))) }
{
    let totals = totals(alloc, positions, scenarios)?;
    let shares = shares(alloc, &totals, positions)?;
    Ok(Chances { totals, shares })
}
