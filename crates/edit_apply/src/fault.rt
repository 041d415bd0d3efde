// Why an edit isn't applied.
ghost use Rattle.std.specs.Prelude.{◌≡◌};
ghost use Rattle.refusals.specs.declared.cause.Cause.TheVariants.{Passes};
ghost use Rattle.edit_apply.specs.Faults.{fault_of_tree};
ghost use Rattle.edit_apply.specs.declared.fault.ApplyFault.TheVariants.{Refused, Memory as OutOfMemory};

use core_defs::Cause;
use frac128::{ArithmeticFault, Memory, Passed};
use std::alloc::{AllocError, AllocFailed};
use thiserror::Error;

/// Why an edit isn't applied.
#[derive(Clone, Copy, Debug, Error)]
pub enum ApplyFault {
    /// The edit doesn't apply to the program.
    #[error("the edit is refused")]
    Refused(Cause),
    #[error("out of memory")]
    Memory,
}

impl From<Cause> for ApplyFault {
    ghost from_gives = { λ cause e. e ≡ Refused cause };

    fn from(cause: Cause) -> ApplyFault {
        ApplyFault::Refused(cause)
    }
}

impl From<Passed> for ApplyFault {
    ghost from_gives = { λ passed e. e ≡ Refused (Passes passed) };

    fn from(passed: Passed) -> ApplyFault {
        ApplyFault::Refused(Cause::Passes(passed))
    }
}

impl From<Memory> for ApplyFault {
    ghost from_gives = { λ _ e. e ≡ OutOfMemory };

    fn from(_error: Memory) -> ApplyFault {
        ApplyFault::Memory
    }
}

impl From<AllocError> for ApplyFault {
    ghost from_gives = { λ _ e. e ≡ OutOfMemory };

    fn from(_error: AllocError) -> ApplyFault {
        ApplyFault::Memory
    }
}

impl<T: Drop> From<AllocFailed<T>> for ApplyFault {
    ghost from_gives = { λ _ e. e ≡ OutOfMemory };

    fn from(_error: AllocFailed<T>) -> ApplyFault {
        ApplyFault::Memory
    }
}

/// The edit isn't applied where the tree isn't made.
pub(crate) fn refusal(fault: ArithmeticFault) -> ApplyFault
    ensures { result ≡ fault_of_tree fault }
{
    match fault {
        ArithmeticFault::Passed(passed) => ApplyFault::Refused(Cause::Passes(passed)),
        ArithmeticFault::Memory => ApplyFault::Memory,
    }
}
