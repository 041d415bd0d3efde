//! How the columns and rows of a node's program stood at the end of a solve.

use basis_guess::Standing;
use frac128::Memory;
use std::alloc::Global;

/// How cuts about some children stood, of each child one, which were a row of the program.
#[derive(Clone, Copy)]
pub struct HeldCut {
    /// The place of the first child.
    pub child: u32,
    /// Where the numbers of the cuts stand in a list of numbers, child by child.
    pub from: u32,
    /// How many there are.
    pub count: u32,
    pub standing: Standing,
}

/// Rows of cuts, and the numbers of their cuts.
#[derive(Drop)]
pub struct HeldCuts {
    pub rows: Vec<HeldCut>,
    pub numbers: Vec<u32>,
}

impl HeldCuts {
    /// None.
    pub fn new(alloc: Global) -> HeldCuts {
        HeldCuts {
            rows: Vec::new(alloc),
            numbers: Vec::new(alloc),
        }
    }

    /// The numbers of a row's cuts.
    pub fn numbers_of(&self, held: &HeldCut) -> &[u32] {
        let from = held.from as usize;
        let end = from.saturating_add(held.count as usize);
        if from <= end && end <= self.numbers.len() {
            &self.numbers[from..end]
        } else {
            &[]
        }
    }

    /// Adds a row.
    pub fn push(&mut self, child: u32, numbers: &[u32], standing: Standing) -> Result<(), Memory> {
        match (
            u32::try_from(self.numbers.len()),
            u32::try_from(numbers.len()),
        ) {
            (Ok(from), Ok(count)) => {
                self.numbers.extend_from_slice(numbers)?;
                self.rows.push(HeldCut {
                    child,
                    from,
                    count,
                    standing,
                })?;
                Ok(())
            }
            _ => Ok(()),
        }
    }

    /// Whether it has a row.
    pub fn has(&self, child: u32, numbers: &[u32]) -> bool {
        for held in &self.rows {
            if held.child == child && are_same(self.numbers_of(held), numbers) {
                return true;
            }
        }
        false
    }
}

/// Whether two lists are the same.
fn are_same(one: &[u32], other: &[u32]) -> bool {
    if one.len() != other.len() {
        return false;
    }
    for (a, b) in one.iter().zip(other.iter()) {
        if *a != *b {
            return false;
        }
    }
    true
}

/// How the columns and rows of a node's program stood. Only a guess begins with it, so every hint will do.
#[derive(Drop)]
pub struct Hint {
    /// The own columns.
    pub columns: Vec<Standing>,
    /// The children's costs, where they were priced.
    pub costs: Vec<Standing>,
    /// The own rows.
    pub rows: Vec<Standing>,
    /// The rows of cuts that weren't basic.
    pub cuts: HeldCuts,
}

impl Hint {
    /// No column or row stands anywhere.
    pub fn blank(alloc: Global) -> Hint {
        Hint {
            columns: Vec::new(alloc),
            costs: Vec::new(alloc),
            rows: Vec::new(alloc),
            cuts: HeldCuts::new(alloc),
        }
    }
}
