//! Names with numbers.
ghost use Rattle.std.specs.Prelude.{◌≡◌, ◌<◌, ◌++◌, ◌∷◌, [], None, IfSome, OnOk, OnErr, length, get_or};
ghost use Rattle.smps_words.specs.Names.{place_of};

use indexmap::IndexSet;
use std::alloc::{AllocError, Global};
use std::marker::Model;

/// Different names, numbered from 0 in the order in which they were added.
#[derive(Drop)]
pub struct Names {
    alloc: Global,
    names: IndexSet<Vec<u8>>,
}

impl Model for Names {
    ghost use Rattle.std.specs.Prelude.{ℕ, List, map};

    ghost Value = { List (List ℕ) };

    ghost view = { λ s. map (λ name. name.items) s.names.keys };
}

impl Names {
    pub fn empty(alloc: Global) -> Names
        ensures { result ≡ [] }
    {
        Names {
            alloc,
            names: IndexSet::new(alloc),
        }
    }

    /// The number of a name.
    pub fn place(&self, name: &[u8]) -> Option<usize>
        ensures place { result ≡ place_of self.now name.now }
        ensures within { IfSome result (λ place. place < length self.now) }
    {
        self.names.get_index_of(name)
    }

    pub fn len(&self) -> usize
        ensures { result ≡ length self.now }
    {
        self.names.len()
    }

    /// The name with this number.
    pub fn name(&self, place: usize) -> &[u8]
        requires { place < length self.now }
        ensures { result.now ≡ get_or self.now place [] }
    {
        let names = self.names.as_slice();
        names[place].as_slice()
    }

    /// Adds a name that isn't there yet; its number is the count of those before it.
    pub fn add(&mut self, name: &[u8]) -> Result<(), AllocError>
        requires { place_of self.old name.now ≡ None }
        ensures ok { OnOk result (self.new ≡ self.old ++ name.now ∷ []) }
        ensures err { OnErr result (self.new ≡ self.old) }
    {
        let name = Vec::from_slice(self.alloc, name)?;
        self.names.insert(name)?;
        Ok(())
    }
}
