// What a report says, and why a computation ends early.
use crate::values::Values;
use frac128::{Frac, Memory, Passed};
use std::alloc::{AllocError, AllocFailed};
use thiserror::Error;

/// Where an operation stands. The number is that of a commit, counted from 1.
#[derive(Clone, Copy, Debug)]
pub enum Place {
    /// The solve of a node program.
    Solve(u64),
    /// The cut that a solve gives.
    Cut(u64),
    /// The cost of a policy.
    Cost(u64),
    /// The cuts that a dual gives.
    Ground,
    /// The dual's multipliers and its value.
    Dual,
    /// A call that checks a claim.
    Check,
}

/// Why a computation ends early.
#[derive(Clone, Copy, Debug, Error)]
pub enum Halt {
    /// An operation passes 128 bits.
    #[error("{1}")]
    Passed(Place, Passed),
    #[error("out of memory")]
    Memory,
}

impl From<Memory> for Halt {
    ghost use Rattle.std.specs.Prelude.{◌≡◌};
    ghost use Rattle.scen_defs.specs.declared.report.Halt.TheVariants.{Memory};

    ghost from_gives = { λ _ h. h ≡ Memory };

    fn from(_error: Memory) -> Halt {
        Halt::Memory
    }
}

impl From<AllocError> for Halt {
    ghost use Rattle.std.specs.Prelude.{◌≡◌};
    ghost use Rattle.scen_defs.specs.declared.report.Halt.TheVariants.{Memory};

    ghost from_gives = { λ _ h. h ≡ Memory };

    fn from(_error: AllocError) -> Halt {
        Halt::Memory
    }
}

impl<T: Drop> From<AllocFailed<T>> for Halt {
    ghost use Rattle.std.specs.Prelude.{◌≡◌};
    ghost use Rattle.scen_defs.specs.declared.report.Halt.TheVariants.{Memory};

    ghost from_gives = { λ _ h. h ≡ Memory };

    fn from(_error: AllocFailed<T>) -> Halt {
        Halt::Memory
    }
}

/// Which form of the program a run solves.
#[derive(Clone, Copy, Debug, PartialEq, Eq)]
pub enum Kind {
    /// All costs 0.
    Feasible,
    /// Each finite end and bound 0, an absent lower bound -1 and an absent upper bound 1.
    Recession,
    /// The program itself.
    Cost,
}

/// What a run found.
#[derive(Clone, Copy, Debug)]
pub enum Finding {
    Optimal,
    Infeasible,
    Unbounded,
    /// So many solves did not suffice.
    OpenSolves(u64),
    /// So many pivots did not suffice.
    OpenPivots(u64),
    /// The operation at that place passes 128 bits.
    OpenPassed(Place, Passed),
}

/// A report: its finding, its ends and what shows them.
#[derive(Drop)]
pub struct Report {
    /// Counted from 1.
    pub number: u32,
    /// The live nodes.
    pub nodes: u32,
    pub scenarios: u32,
    pub finding: Finding,
    pub lower: Option<Frac>,
    pub upper: Option<Frac>,
    /// The value of the ray where the finding is `Infeasible`, the cost of the direction where it is `Unbounded`.
    pub extra: Option<Frac>,
    pub policy: Option<Values>,
    pub direction: Option<Values>,
    pub dual: Option<Values>,
    pub ray: Option<Values>,
}
