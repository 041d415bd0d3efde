// Why no such program is made.
ghost use Rattle.std.specs.Prelude.{◌≡◌};
ghost use Rattle.tail_risk.specs.TailWalk.{tail_fault};
ghost use Rattle.tail_risk.specs.declared.fault.TailFault.TheVariants.{Memory as OutOfMemory};

use frac128::{ArithmeticFault, Memory, Passed};
use thiserror::Error;

/// Why the program isn't made.
#[derive(Clone, Copy, Debug, Error)]
pub enum TailFault {
    /// A column is named TAIL_H or TAIL_U, or a row TAIL_R.
    #[error("a column or a row has a name that is added")]
    Name,
    /// The new program would have more than 10,000,000 entries over all nodes.
    #[error("more entries than there may be")]
    Limit,
    /// The first operation that passes 128 bits.
    #[error("{0}")]
    Passed(Passed),
    #[error("out of memory")]
    Memory,
}

impl From<Memory> for TailFault {
    ghost from_gives = { λ _ e. e ≡ OutOfMemory };

    fn from(_error: Memory) -> TailFault {
        TailFault::Memory
    }
}

impl From<ArithmeticFault> for TailFault {
    ghost from_gives = { λ fault e. e ≡ tail_fault fault };

    fn from(fault: ArithmeticFault) -> TailFault {
        match fault {
            ArithmeticFault::Passed(passed) => TailFault::Passed(passed),
            ArithmeticFault::Memory => TailFault::Memory,
        }
    }
}
