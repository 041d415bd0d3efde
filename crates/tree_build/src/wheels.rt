//! The cases of blocks that a scenario chooses, like the digits of a number.
ghost use Rattle.std.specs.Prelude.{◌≡◌, ◌<◌, ◌≤◌, ◌++◌, ◌+◌, ◌*◌, ◌^◌, ◌-◌, min, [], map, get_or};
ghost use Rattle.std.specs.Prelude.{length, IfOk, OnOk};
ghost use Rattle.stoch_defs.specs.Random.{block_content};
ghost use Rattle.build_defs.specs.Scenarios.{stages_from};
ghost use Rattle.tree_build.specs.Wheels.{wheels_at, wheels_of, product, sizes_of, digits_of, IsWithin, key_to, key_row};

use crate::numbering::Keys;
use std::alloc::{AllocError, Global};
use stoch_defs::Block;

/// A block, as one of the digits by which scenarios are numbered.
#[derive(Clone, Copy)]
pub struct Wheel {
    /// The number of the block.
    pub block: usize,
    pub stage: usize,
    /// So many cases it has.
    pub size: usize,
}

/// Adds the blocks of a period, in the order of their first appearance.
fn add_wheels(wheels: &mut Vec<Wheel>, blocks: &[Block], stage: usize) -> Result<(), AllocError>
    ensures { OnOk result (wheels.new.items ≡ wheels.old.items ++ wheels_at stage 0 (map block_content blocks.now)) }
{
    for (number, block) in blocks.iter().enumerate() {
        if block.stage as usize == stage {
            wheels.push(Wheel {
                block: number,
                stage,
                size: block.cases.len(),
            })?;
        }
    }
    Ok(())
}

/// The blocks of all periods, of which there are so many.
pub(crate) fn wheels_of(
    alloc: Global,
    blocks: &[Block],
    count: usize,
) -> Result<Vec<Wheel>, AllocError>
    ensures { IfOk result (λ wheels. wheels.items ≡ wheels_of count (map block_content blocks.now)) }
{
    let mut wheels = Vec::new(alloc);
    for stage in 0..count {
        add_wheels(&mut wheels, blocks, stage)?;
    }
    Ok(wheels)
}

/// How many scenarios there are, and `usize::MAX` where there are more.
pub(crate) fn count_of(wheels: &[Wheel]) -> usize
    ensures { result ≡ min (product (sizes_of wheels.now)) (2 ^ 64 - 1) }
{
    let mut count: usize = 1;
    for wheel in wheels {
        count = count.saturating_mul(wheel.size);
    }
    count
}

/// The cases that a scenario has: the first block varies slowest.
pub(crate) fn digits_of(
    alloc: Global,
    wheels: &[Wheel],
    count: usize,
    number: usize,
) -> Result<Vec<usize>, AllocError>
    requires all { count ≡ product (sizes_of wheels.now) }
    requires one { number < count }
    ensures { IfOk result (λ digits. digits.items ≡ digits_of (sizes_of wheels.now) number) }
{
    let mut digits = Vec::new(alloc);
    let mut total = count;
    let mut rest = number;
    for wheel in wheels {
        let behind = total / wheel.size;
        digits.push(rest / behind)?;
        rest %= behind;
        total = behind;
    }
    Ok(digits)
}

/// What tells a node at a stage from others: the cases of all blocks up to that stage, as one number.
fn key_to(wheels: &[Wheel], digits: &[usize], stage: usize) -> u64
    requires within { IsWithin (sizes_of wheels.now) digits.now }
    requires fits { product (sizes_of wheels.now) < 2 ^ 64 }
    ensures { result ≡ key_to stage wheels.now digits.now 0 }
{
    let mut key: u64 = 0;
    for (place, wheel) in wheels.iter().enumerate() {
        if wheel.stage <= stage && place < digits.len() {
            key = key * wheel.size as u64 + digits[place] as u64;
        }
    }
    key
}

/// The keys of a scenario at the stages, of which there are so many.
pub(crate) fn key_row(
    alloc: Global,
    wheels: &[Wheel],
    digits: &[usize],
    count: usize,
) -> Result<Vec<u64>, AllocError>
    requires within { IsWithin (sizes_of wheels.now) digits.now }
    requires fits { product (sizes_of wheels.now) < 2 ^ 64 }
    ensures { IfOk result (λ row. row.items ≡ key_row wheels.now count digits.now) }
{
    let mut row = Vec::new(alloc);
    for stage in 0..count {
        row.push(key_to(wheels, digits, stage))?;
    }
    Ok(row)
}
