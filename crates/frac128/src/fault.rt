// Why numbers aren't computed.
use crate::memory::Memory;
use crate::passed::Passed;
use std::alloc::{AllocError, AllocFailed};
use thiserror::Error;

/// Why numbers aren't computed.
#[derive(Clone, Copy, Debug, Error)]
pub enum ArithmeticFault {
    /// The first operation that passes.
    #[error("{0}")]
    Passed(Passed),
    #[error("out of memory")]
    Memory,
}

impl From<Passed> for ArithmeticFault {
    ghost use Rattle.std.specs.Prelude.{◌≡◌};
    ghost use Rattle.frac128.specs.declared.fault.ArithmeticFault.TheVariants.{Passed as PassedFault};

    ghost from_gives = { λ p e. e ≡ PassedFault p };

    fn from(passed: Passed) -> ArithmeticFault {
        ArithmeticFault::Passed(passed)
    }
}

impl From<AllocError> for ArithmeticFault {
    ghost use Rattle.std.specs.Prelude.{◌≡◌};
    ghost use Rattle.frac128.specs.declared.fault.ArithmeticFault.TheVariants.{Memory};

    ghost from_gives = { λ _ e. e ≡ Memory };

    fn from(_error: AllocError) -> ArithmeticFault {
        ArithmeticFault::Memory
    }
}

impl From<Memory> for ArithmeticFault {
    ghost use Rattle.std.specs.Prelude.{◌≡◌};
    ghost use Rattle.frac128.specs.declared.fault.ArithmeticFault.TheVariants.{Memory as MemoryFault};

    ghost from_gives = { λ _ e. e ≡ MemoryFault };

    fn from(_memory: Memory) -> ArithmeticFault {
        ArithmeticFault::Memory
    }
}

impl<T: Drop> From<AllocFailed<T>> for ArithmeticFault {
    ghost use Rattle.std.specs.Prelude.{◌≡◌};
    ghost use Rattle.frac128.specs.declared.fault.ArithmeticFault.TheVariants.{Memory};

    ghost from_gives = { λ _ e. e ≡ Memory };

    fn from(_error: AllocFailed<T>) -> ArithmeticFault {
        ArithmeticFault::Memory
    }
}
