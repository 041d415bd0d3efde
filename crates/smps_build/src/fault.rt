// Why no program is built.
use frac128::{Memory, Passed};
use std::alloc::{AllocError, AllocFailed};
use thiserror::Error;

/// Why no program is built.
#[derive(Clone, Copy, Debug, Error)]
pub enum BuildFault {
    /// A limit on scenarios, nodes or entries is exceeded.
    #[error("a limit of the program is exceeded")]
    Limit,
    /// An operation of a probability or of an interval passes 128 bits.
    #[error("{0}")]
    Passed(Passed),
    #[error("out of memory")]
    Memory,
}

impl From<Passed> for BuildFault {
    ghost use Rattle.std.specs.Prelude.{◌≡◌};
    ghost use Rattle.smps_build.specs.declared.fault.BuildFault.TheVariants.{Passed as PassedFault};

    ghost from_gives = { λ p e. e ≡ PassedFault p };

    fn from(passed: Passed) -> BuildFault {
        BuildFault::Passed(passed)
    }
}

impl From<Memory> for BuildFault {
    ghost use Rattle.std.specs.Prelude.{◌≡◌};
    ghost use Rattle.smps_build.specs.declared.fault.BuildFault.TheVariants.{Memory};

    ghost from_gives = { λ _ e. e ≡ Memory };

    fn from(_error: Memory) -> BuildFault {
        BuildFault::Memory
    }
}

impl From<AllocError> for BuildFault {
    ghost use Rattle.std.specs.Prelude.{◌≡◌};
    ghost use Rattle.smps_build.specs.declared.fault.BuildFault.TheVariants.{Memory};

    ghost from_gives = { λ _ e. e ≡ Memory };

    fn from(_error: AllocError) -> BuildFault {
        BuildFault::Memory
    }
}

impl<T: Drop> From<AllocFailed<T>> for BuildFault {
    ghost use Rattle.std.specs.Prelude.{◌≡◌};
    ghost use Rattle.smps_build.specs.declared.fault.BuildFault.TheVariants.{Memory};

    ghost from_gives = { λ _ e. e ≡ Memory };

    fn from(_error: AllocFailed<T>) -> BuildFault {
        BuildFault::Memory
    }
}
