//! What a report may take.

/// What a report may take.
#[derive(Clone, Copy, Debug)]
pub struct Budget {
    /// How many node programs are solved at most.
    pub solves: u64,
    /// How many pivots each of them may take.
    pub pivots: u64,
}
