//! Why a line isn't read.
ghost use Rattle.std.specs.Prelude.{◌≡◌};
ghost use Rattle.report_reader.specs.declared.fault.Fault.TheVariants as faults;

use core_defs::Cause;
use frac128::Memory as NoMemory;
use std::alloc::{AllocError, AllocFailed};

/// Why a line isn't read.
#[derive(Drop)]
pub(crate) enum Fault {
    Refused(Cause),
    Memory,
}

impl From<Cause> for Fault {
    ghost from_gives = { λ cause fault. fault ≡ faults.Refused cause };

    fn from(cause: Cause) -> Fault {
        Fault::Refused(cause)
    }
}

impl From<NoMemory> for Fault {
    ghost from_gives = { λ _ fault. fault ≡ faults.Memory };

    fn from(_error: NoMemory) -> Fault {
        Fault::Memory
    }
}

impl From<AllocError> for Fault {
    ghost from_gives = { λ _ fault. fault ≡ faults.Memory };

    fn from(_error: AllocError) -> Fault {
        Fault::Memory
    }
}

impl<T: Drop> From<AllocFailed<T>> for Fault {
    ghost from_gives = { λ _ fault. fault ≡ faults.Memory };

    fn from(_error: AllocFailed<T>) -> Fault {
        Fault::Memory
    }
}
