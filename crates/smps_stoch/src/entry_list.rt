//! Entries with places.
ghost use Rattle.std.specs.Prelude.{◌≡◌, ◌++◌, ◌∷◌, [], None, OnOk};
ghost use Rattle.stoch_defs.specs.Stated.{place_of_entry};

use indexmap::IndexSet;
use smps_words::Entry;
use std::alloc::{AllocError, Global};
use std::marker::Model;

/// Entries, each once, in the order in which they came.
#[derive(Drop)]
pub(crate) struct EntryList {
    entries: IndexSet<Entry>,
}

impl Model for EntryList {
    ghost use Rattle.std.specs.Prelude.{List};
    ghost use Rattle.smps_words.specs.declared.entry.Entry.{Entry};

    ghost Value = { List Entry };

    ghost view = { λ s. s.entries.keys };
}

impl EntryList {
    pub(crate) fn empty(alloc: Global) -> EntryList
        ensures { result ≡ [] }
    {
        EntryList {
            entries: IndexSet::new(alloc),
        }
    }

    /// The place of an entry.
    pub(crate) fn place(&self, entry: Entry) -> Option<usize>
        ensures { result ≡ place_of_entry self.now entry }
    {
        self.entries.get_index_of(&entry)
    }

    /// Adds an entry that isn't there yet.
    pub(crate) fn add(&mut self, entry: Entry) -> Result<(), AllocError>
        requires { place_of_entry self.old entry ≡ None }
        ensures { OnOk result (self.new ≡ self.old ++ entry ∷ []) }
    {
        self.entries.insert(entry)?;
        Ok(())
    }
}
