//! The cases that a scenario has.
ghost use Rattle.std.specs.Prelude.{◌≡◌, map, get_or, length, IfOk, OnOk};
ghost use Rattle.rationals.specs.Rational.{one_ℚ};
ghost use Rattle.stoch_defs.specs.Random.{block_content};
ghost use Rattle.build_defs.specs.Built.{product_from};
ghost use Rattle.build_defs.specs.Scenarios.{stages_from};
ghost use Rattle.time_defs.specs.Periods.{stages};
ghost use Rattle.tree_build.specs.Values.{values_content, with_sets};
ghost use Rattle.tree_build.specs.Choices.{case_at, chances_of, sets_of};

use crate::parts::Values;
use crate::values::set_all;
use crate::wheels::Wheel;
use core_defs::Core;
use frac128::{Frac, Memory, Passed};
use smps_words::Entry;
use std::alloc::Global;
use stoch_defs::Block;
use time_defs::Periods;

/// The probability of a case of a block, 0 where there is none of that number.
fn probability_at(blocks: &[Block], block: usize, case: usize) -> Frac
    ensures { result ≡ (case_at (map block_content blocks.now) block case).probability }
{
    if block < blocks.len() && case < blocks[block].cases.len() {
        blocks[block].cases[case].probability
    } else {
        Frac::zero()
    }
}

/// What a case of a block sets.
fn sets_at(blocks: &[Block], block: usize, case: usize) -> &[(Entry, Frac)]
    ensures { result.now ≡ (case_at (map block_content blocks.now) block case).sets }
{
    if block < blocks.len() && case < blocks[block].cases.len() {
        &blocks[block].cases[case].sets
    } else {
        &[]
    }
}

/// The product of the probabilities of the cases.
pub(crate) fn chance(blocks: &[Block], wheels: &[Wheel], digits: &[usize]) -> Result<Frac, Passed>
    ensures { result ≡ product_from one_ℚ (chances_of (map block_content blocks.now) wheels.now digits.now) }
{
    let mut product = Frac::one();
    for (place, wheel) in wheels.iter().enumerate() {
        if place < digits.len() {
            product = product.mul(probability_at(blocks, wheel.block, digits[place]))?;
        }
    }
    Ok(product)
}

/// Sets what the cases set, at a node of that stage. What a case leaves out is as in the first case of its
/// block.
pub(crate) fn set_choices(
    alloc: Global,
    core: &Core,
    periods: &Periods,
    stage: usize,
    values: &mut Values,
    blocks: &[Block],
    wheels: &[Wheel],
    digits: &[usize],
) -> Result<(), Memory>
    ensures { OnOk result (values_content values.new ≡ with_sets core.now (stages periods.now) stage (values_content values.old)
        (sets_of (map block_content blocks.now) wheels.now digits.now)) }
{
    for (place, wheel) in wheels.iter().enumerate() {
        if place < digits.len() {
            let first = sets_at(blocks, wheel.block, 0);
            set_all(alloc, core, periods, stage, values, first)?;
            let own = sets_at(blocks, wheel.block, digits[place]);
            set_all(alloc, core, periods, stage, values, own)?;
        }
    }
    Ok(())
}
