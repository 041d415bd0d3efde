//! Why a basis file isn't read.
use frac128::Memory;
use std::alloc::AllocError;
use thiserror::Error;

/// Why a basis file isn't read.
#[derive(Clone, Copy, Debug, Error)]
pub enum BasisFault {
    /// The first line at fault, counted from 1 over all lines; one more than their number where the text ends too early.
    #[error("line {0} is none of a basis file of the program")]
    Line(u32),
    #[error("out of memory")]
    Memory,
}

impl From<Memory> for BasisFault {
    ghost use Rattle.std.specs.Prelude.{◌≡◌};
    ghost use Rattle.basis_file.specs.declared.fault.BasisFault.TheVariants.{Memory};

    ghost from_gives = { λ _ e. e ≡ Memory };

    fn from(_error: Memory) -> BasisFault {
        BasisFault::Memory
    }
}

impl From<AllocError> for BasisFault {
    ghost use Rattle.std.specs.Prelude.{◌≡◌};
    ghost use Rattle.basis_file.specs.declared.fault.BasisFault.TheVariants.{Memory};

    ghost from_gives = { λ _ e. e ≡ Memory };

    fn from(_error: AllocError) -> BasisFault {
        BasisFault::Memory
    }
}
