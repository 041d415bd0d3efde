// How much a program has over all its nodes.

/// How much a program has over all its live nodes.
#[derive(Clone, Copy, Debug, PartialEq, Eq)]
pub struct Counts {
    /// The live nodes themselves.
    pub nodes: u64,
    /// The entries of their rows.
    pub entries: u64,
    /// Their rows.
    pub rows: u64,
    /// Their costs.
    pub costs: u64,
}
