//! Why no text is written.
use frac128::{Memory, Passed};
use std::alloc::{AllocError, AllocFailed};
use thiserror::Error;

///! Why no text is written.
#[derive(Clone, Copy, Debug, Error)]
pub enum FlatFault {
    /// There are more rows, columns or entries than there may be.
    #[error("a limit of the core file is exceeded")]
    Limit,
    /// The first operation that passes 128 bits.
    #[error("{0}")]
    Passed(Passed),
    #[error("out of memory")]
    Memory,
}

impl From<Passed> for FlatFault {
    ghost use Rattle.std.specs.Prelude.{◌≡◌};
    ghost use Rattle.flat_write.specs.declared.fault.FlatFault.TheVariants.{Passed as PassedFault};

    ghost from_gives = { λ p e. e ≡ PassedFault p };

    fn from(passed: Passed) -> FlatFault {
        FlatFault::Passed(passed)
    }
}

impl From<Memory> for FlatFault {
    ghost use Rattle.std.specs.Prelude.{◌≡◌};
    ghost use Rattle.flat_write.specs.declared.fault.FlatFault.TheVariants.{Memory};

    ghost from_gives = { λ _ e. e ≡ Memory };

    fn from(_error: Memory) -> FlatFault {
        FlatFault::Memory
    }
}

impl From<AllocError> for FlatFault {
    ghost use Rattle.std.specs.Prelude.{◌≡◌};
    ghost use Rattle.flat_write.specs.declared.fault.FlatFault.TheVariants.{Memory};

    ghost from_gives = { λ _ e. e ≡ Memory };

    fn from(_error: AllocError) -> FlatFault {
        FlatFault::Memory
    }
}

impl<T: Drop> From<AllocFailed<T>> for FlatFault {
    ghost use Rattle.std.specs.Prelude.{◌≡◌};
    ghost use Rattle.flat_write.specs.declared.fault.FlatFault.TheVariants.{Memory};

    ghost from_gives = { λ _ e. e ≡ Memory };

    fn from(_error: AllocFailed<T>) -> FlatFault {
        FlatFault::Memory
    }
}
