//! Where nodes stand in a tree.

/// Where a node stands.
#[derive(Clone, Copy, PartialEq, Eq)]
pub enum Position {
    /// It was dropped.
    Dropped,
    /// It has no parent.
    Root,
    /// Its parent has this number.
    Below(u32),
}
