// What is known of a child.
use crate::cut::SharedCut;

/// The cuts about a child.
#[derive(Drop)]
pub struct ChildCuts {
    /// The child's number.
    pub child: u32,
    /// In the order in which their rows stand.
    pub cuts: Vec<SharedCut>,
}
