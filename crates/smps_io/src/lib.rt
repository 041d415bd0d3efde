//! Where a program's files come from, and where its output goes.
#![tactic(auto)]

mod memory_shelf;
mod memory_sink;
mod real;
mod shelf;
mod sink;

pub use memory_shelf::{MemoryShelf, NeverFails};
pub use memory_sink::MemorySink;
pub use real::{RealShelf, RealSink};
pub use shelf::{Shelf, ShelfFault};
pub use sink::{Sink, SinkFault, write_all};
