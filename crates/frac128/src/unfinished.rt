// Why a pass over many places at once ends before its last operation.
use crate::memory::Memory;
use crate::passed::Passed;
use std::alloc::{AllocError, AllocFailed};

/// Why a pass over many places at once tells nothing.
#[derive(Clone, Copy, Debug)]
pub enum Unfinished {
    /// An operation passes 128 bits, or a test fails: the walk step by step gives the answer.
    Walk,
    Memory,
}

impl From<Passed> for Unfinished {
    fn from(_passed: Passed) -> Unfinished {
        Unfinished::Walk
    }
}

impl From<Memory> for Unfinished {
    fn from(_memory: Memory) -> Unfinished {
        Unfinished::Memory
    }
}

impl From<AllocError> for Unfinished {
    fn from(_error: AllocError) -> Unfinished {
        Unfinished::Memory
    }
}

impl<T: Drop> From<AllocFailed<T>> for Unfinished {
    fn from(_error: AllocFailed<T>) -> Unfinished {
        Unfinished::Memory
    }
}
