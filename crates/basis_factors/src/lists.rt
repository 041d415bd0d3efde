//! Lists of numbers with their places.

use basis_pivots::Entry;
use std::alloc::{AllocError, Global};

/// Lists of entries, one behind the other.
#[derive(Drop)]
pub(crate) struct Lists<T> {
    /// Where each list begins, and where the last one ends.
    pub starts: Vec<usize>,
    pub entries: Vec<Entry<T>>,
}

impl<T: Copy> Lists<T> {
    /// No list, not even a start.
    pub fn new(alloc: Global) -> Lists<T> {
        Lists {
            starts: Vec::new(alloc),
            entries: Vec::new(alloc),
        }
    }

    /// Whether nothing was pushed since the last list ended.
    pub fn has_closed(&self) -> bool {
        match self.starts.last() {
            Some(start) => *start == self.entries.len(),
            None => true,
        }
    }

    /// The last list ends here.
    pub fn close(&mut self) -> Result<(), AllocError> {
        self.starts.push(self.entries.len())?;
        Ok(())
    }

    /// The list with this number; empty where there is none.
    #[inline(always)]
    pub fn list(&self, number: usize) -> &[Entry<T>] {
        if number < self.starts.len() && self.starts.len() - number > 1 {
            let start = self.starts[number];
            let end = self.starts[number + 1];
            if start <= end && end <= self.entries.len() {
                return &self.entries[start..end];
            }
        }
        &[]
    }
}
