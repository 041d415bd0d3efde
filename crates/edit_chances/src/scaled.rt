// Scenarios with other probabilities.
ghost use Rattle.std.specs.Prelude.{◌≡◌, ◌++◌, ◌∷◌, [], IfOk, OnOk, MatchResult, Ok};
ghost use Rattle.rationals.specs.Passes.{div_walk};
ghost use Rattle.scen_defs.specs.Program.{scenario_content, scenarios_content};
ghost use Rattle.frac128.specs.Faults.{FaultOf};
ghost use Rattle.edit_chances.specs.Scaled.{own_part, rescaled_from, scaled_part, scaled_walk, with_chance, with_part};

use frac128::{ArithmeticFault, Frac, Passed};
use scen_defs::Scenario;
use smps_words::Name;
use std::alloc::{AllocError, Global};

/// How probabilities are scaled.
#[derive(Clone, Copy)]
pub(crate) enum Scale {
    /// Each is multiplied by the number.
    Times(Frac),
    /// Each is divided by it.
    Over(Frac),
}

/// One number divided by another, and 0 where that is 0.
pub(crate) fn quotient(number: Frac, by: Frac) -> Result<Frac, Passed>
    ensures { result ≡ div_walk number by }
{
    if by.is_zero() {
        Ok(Frac::zero())
    } else {
        number.div(by)
    }
}

fn scaled(scale: &Scale, probability: Frac) -> Result<Frac, Passed>
    ensures { result ≡ scaled_walk scale.now probability }
{
    match scale {
        Scale::Times(factor) => probability.mul(*factor),
        Scale::Over(rest) => quotient(probability, *rest),
    }
}

/// A copy of a scenario with another probability.
fn with_chance(
    alloc: Global,
    scenario: &Scenario,
    probability: Frac,
) -> Result<Scenario, AllocError>
    ensures { IfOk result (λ copy. scenario_content copy ≡ with_chance (scenario_content scenario.now) probability) }
{
    let name = Name::new(alloc, scenario.name.as_bytes())?;
    let path = Vec::from_slice(alloc, &scenario.path)?;
    Ok(Scenario {
        name,
        probability,
        path,
    })
}

/// Adds the named scenario, where it has a probability.
fn push_own(
    alloc: Global,
    made: &mut Vec<Scenario>,
    scenario: &Scenario,
    own: &Option<Frac>,
) -> Result<(), AllocError>
    ensures { OnOk result (scenarios_content made.new.items
        ≡ scenarios_content made.old.items ++ own_part own.now (scenario_content scenario.now)) }
{
    match own {
        Some(probability) => {
            let copy = with_chance(alloc, scenario, *probability)?;
            made.push(copy)?;
            Ok(())
        }
        None => Ok(()),
    }
}

/// Adds another scenario, whose probability is scaled.
fn push_scaled(
    alloc: Global,
    made: &mut Vec<Scenario>,
    scenario: &Scenario,
    scale: &Scale,
) -> Result<(), ArithmeticFault>
    ensures { MatchResult result (λ _. scaled_part scale.now (scenario_content scenario.now) (scenarios_content made.old.items)
        ≡ Ok (scenarios_content made.new.items))
        (FaultOf (scaled_part scale.now (scenario_content scenario.now) (scenarios_content made.old.items))) }
{
    let probability = scaled(scale, scenario.probability)?;
    let copy = with_chance(alloc, scenario, probability)?;
    made.push(copy)?;
    Ok(())
}

/// Adds a scenario, where no operation passes.
fn push_part(
    alloc: Global,
    made: &mut Vec<Scenario>,
    scenario: &Scenario,
    name: &Name,
    own: &Option<Frac>,
    scale: &Scale,
) -> Result<(), ArithmeticFault>
    ensures { MatchResult result (λ _. with_part name.now own.now scale.now (scenario_content scenario.now)
        (scenarios_content made.old.items) ≡ Ok (scenarios_content made.new.items))
        (FaultOf (with_part name.now own.now scale.now (scenario_content scenario.now) (scenarios_content made.old.items))) }
{
    if *name == scenario.name {
        push_own(alloc, made, scenario, own)?;
        Ok(())
    } else {
        push_scaled(alloc, made, scenario, scale)
    }
}

/// The scenarios, of which the named one has a probability of its own, or goes where there is none, and all others are scaled.
pub(crate) fn rescaled(
    alloc: Global,
    scenarios: &[Scenario],
    name: &Name,
    own: Option<Frac>,
    scale: Scale,
) -> Result<Vec<Scenario>, ArithmeticFault>
    ensures { MatchResult result (λ all. rescaled_from name.now own scale [] (scenarios_content scenarios.now)
        ≡ Ok (scenarios_content all.items))
        (FaultOf (rescaled_from name.now own scale [] (scenarios_content scenarios.now))) }
{
    let mut made = Vec::new(alloc);
    for scenario in scenarios {
        push_part(alloc, &mut made, scenario, name, &own, &scale)?;
    }
    Ok(made)
}
