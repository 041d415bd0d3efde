//! Why a line isn't read.
use frac128::Memory as NoMemory;

/// Why a line isn't read.
#[derive(Clone, Copy, Debug)]
pub(crate) enum Fault {
    /// It isn't one that stands there.
    Other,
    /// Its number is a wide one.
    Wide,
    Memory,
}

impl From<NoMemory> for Fault {
    fn from(_error: NoMemory) -> Fault {
        Fault::Memory
    }
}
