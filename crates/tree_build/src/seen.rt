//! Which nodes are there.
ghost use Rattle.std.specs.Prelude.{◌≡◌, ◌<◌, [], not, length, IfOk, OnOk};
ghost use Rattle.tree_build.specs.Numbering.{has_key, with_key, number_of};

use indexmap::IndexSet;
use std::alloc::{AllocError, Global};
use std::marker::Model;

/// The stages of nodes with what tells them from the other nodes of their stage, in the order of the
/// nodes' numbers.
#[derive(Drop)]
pub(crate) struct Seen {
    keys: IndexSet<(usize, u64)>,
}

impl Model for Seen {
    ghost use Rattle.std.specs.Prelude.{List, ℕ};
    ghost use Rattle.tree_build.specs.Numbering.{Key};

    ghost Value = { List Key };

    ghost view = { λ s. s.keys.keys };
}

impl Seen {
    pub(crate) fn empty(alloc: Global) -> Seen
        ensures { result ≡ [] }
    {
        Seen {
            keys: IndexSet::new(alloc),
        }
    }

    /// The number of a node, and whether it is a new one.
    pub(crate) fn add(&mut self, stage: usize, key: u64) -> Result<(usize, bool), AllocError>
        ensures number { IfOk result (λ r. r.0 ≡ number_of self.old (stage, key)) }
        ensures new { IfOk result (λ r. r.1 ≡ not (has_key self.old (stage, key))) }
        ensures keys { OnOk result (self.new ≡ with_key self.old (stage, key)) }
        ensures within { IfOk result (λ r. r.0 < length self.new) }
    {
        let added = self.keys.insert_full((stage, key))?;
        Ok(added)
    }
}
