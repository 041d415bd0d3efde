//! What can be wrong with a file of cases.
use frac128::Memory;
use std::alloc::{AllocError, AllocFailed};

/// Why a line is no line of a file of cases.
#[derive(Debug, Drop)]
pub enum Wrong {
    /// This isn't so.
    Said(&'static str),
    /// Memory was wanting.
    Memory,
}

impl From<AllocError> for Wrong {
    fn from(_error: AllocError) -> Wrong {
        Wrong::Memory
    }
}

impl<T: Drop> From<AllocFailed<T>> for Wrong {
    fn from(_failed: AllocFailed<T>) -> Wrong {
        Wrong::Memory
    }
}

impl From<Memory> for Wrong {
    fn from(_memory: Memory) -> Wrong {
        Wrong::Memory
    }
}
