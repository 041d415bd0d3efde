// What a pool answers to a cut that is offered.
use cut_proof::Part;
use frac128::{Frac, Passed};

/// What a pool answers to a cut that is offered.
#[derive(Clone, Copy, Debug)]
pub enum Offer {
    /// The cut stands last in the pool.
    Added,
    /// A held cut is at least as good at the trial: the greatest value there of the held cuts of that kind, or 0 for a
    /// Ray cut where none of them is above 0.
    NotNeeded(Frac),
    /// The cut rests on a known touch.
    Stale {
        /// The node of the first stamp of the support by which it does.
        node: u32,
        /// `Rows` or `Costs`.
        part: Part,
        /// The stamp's version.
        seen: u32,
        /// The greatest known version of the node and part, or `u32::MAX` where the node is known to be gone.
        known: u32,
    },
    /// The first operation of the values at the trial that passes.
    Passed(Passed),
}
