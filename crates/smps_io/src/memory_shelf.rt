//! Shelves in memory.
ghost use Rattle.std.specs.Prelude.{◌≡◌, ◌≤◌, ◌↔◌, ◌++◌, ◌∷◌, [], Some, IfOk, IfNone, IfSome, IsErrOf, length, map, string_bytes};
ghost use Rattle.smps_io.specs.Files.{bytes_of, file_of};
ghost use Rattle.smps_io.specs.Memory.{files_of, Fails};
ghost use Rattle.smps_io.specs.Fetches.{GivesFile, FetchHasCause, FetchesPrefix, IsTooLong};
ghost use Rattle.smps_io.specs.declared.shelf.ShelfFault.TheVariants.{Failed, Memory};

use crate::shelf::{Shelf, ShelfFault, keep_name};
use std::alloc::{AllocError, Global};
use std::fs::Files;

/// Files in memory. The fetches numbered in `fails`, counted from 1, fail, and so does a fetch of a
/// name that it doesn't hold, unless memory is wanting.
#[derive(Drop)]
pub struct MemoryShelf {
    files: Vec<(String, Vec<u8>)>,
    fails: Vec<u64>,
    fetches: Vec<String>,
    faults: u64,
    given: u64,
}

impl MemoryShelf {
    ghost use Rattle.smps_io.specs.MemoryShelf.{IsNewShelf};

    /// A shelf from which nothing was fetched.
    pub fn new(alloc: Global, files: Vec<(String, Vec<u8>)>, fails: Vec<u64>) -> MemoryShelf
        ensures { IsNewShelf files fails result }
    {
        MemoryShelf {
            files,
            fails,
            fetches: Vec::new(alloc),
            faults: 0,
            given: 0,
        }
    }
}

impl Shelf for MemoryShelf {
    ghost content = { λ s. Some (files_of s.files.items) };

    ghost faults = { λ s. s.faults };

    ghost fetches = { λ s. map string_bytes s.fetches.items };

    ghost given = { λ s. s.given };

    fn fetch<R: Files>(
        &mut self,
        _rt: &R,
        alloc: Global,
        name: &str,
        limit: u64,
    ) -> Result<Vec<u8>, ShelfFault>
        ensures gives { GivesFile (Some (files_of self.old.files.items)) name.now limit result }
        ensures within { IfOk result (λ bytes. length bytes.items ≤ limit) }
        ensures too_long { IsTooLong limit self.new.given result }
        ensures bytes { IfOk result (λ bytes. length bytes.items ≡ self.new.given) }
        ensures names { ¬ IsErrOf result Memory
            → map string_bytes self.new.fetches.items ≡ map string_bytes self.old.fetches.items ++ name.now ∷ [] }
        ensures once { FetchesPrefix (map string_bytes self.old.fetches.items) (name.now ∷ [])
            (map string_bytes self.new.fetches.items) }
        ensures same { Some (files_of self.new.files.items) ≡ Some (files_of self.old.files.items) }
        ensures cause { FetchHasCause self.old.faults self.new.faults result }
        ensures failed { ¬ IsErrOf result Memory → (IsErrOf result Failed
            ↔ Fails (files_of self.old.files.items) self.old.fails.items (length self.new.fetches.items) name.now) }
        ensures stays { self.new.fails.items ≡ self.old.fails.items }
    {
        self.given = 0;
        if keep_name(alloc, &mut self.fetches, name).is_err() {
            return Err(ShelfFault::Memory);
        }
        let number = self.fetches.len() as u64;
        if self.fails.contains(&number) {
            self.faults = self.faults.saturating_add(1);
            return Err(ShelfFault::Failed);
        }
        let Some(bytes) = found(&self.files, name) else {
            self.faults = self.faults.saturating_add(1);
            return Err(ShelfFault::Failed);
        };
        self.given = bytes.len() as u64;
        copied(alloc, bytes, limit)
    }
}

/// Files in memory that are always there. A name that it doesn't hold is an empty file.
#[derive(Drop)]
pub struct NeverFails {
    files: Vec<(String, Vec<u8>)>,
    fetches: Vec<String>,
    given: u64,
}

impl NeverFails {
    ghost use Rattle.smps_io.specs.MemoryShelf.{IsSureShelf};

    /// A shelf of these files, from which nothing was fetched.
    pub fn new(alloc: Global, files: Vec<(String, Vec<u8>)>) -> NeverFails
        ensures { IsSureShelf files result }
    {
        NeverFails {
            files,
            fetches: Vec::new(alloc),
            given: 0,
        }
    }
}

impl Shelf for NeverFails {
    ghost content = { λ s. Some (files_of s.files.items) };

    ghost faults = { λ s. 0 };

    ghost fetches = { λ s. map string_bytes s.fetches.items };

    ghost given = { λ s. s.given };

    fn fetch<R: Files>(
        &mut self,
        _rt: &R,
        alloc: Global,
        name: &str,
        limit: u64,
    ) -> Result<Vec<u8>, ShelfFault> {
        self.given = 0;
        if keep_name(alloc, &mut self.fetches, name).is_err() {
            return Err(ShelfFault::Memory);
        }
        let bytes = found_or_empty(&self.files, name);
        self.given = bytes.len() as u64;
        copied(alloc, bytes, limit)
    }
}

/// The bytes of the first file of that name.
fn found<'a>(files: &'a [(String, Vec<u8>)], name: &str) -> Option<&'a [u8]>
    ensures some { IfSome result (λ bytes. file_of (files_of files.now) name.now ≡ Some bytes.now) }
    ensures none { IfNone result (file_of (files_of files.now) name.now ≡ None) }
{
    for file in files {
        if file.0.as_str() == name {
            return Some(file.1.as_slice());
        }
    }
    None
}

/// The bytes of the first file of that name, or none.
fn found_or_empty<'a>(files: &'a [(String, Vec<u8>)], name: &str) -> &'a [u8]
    ensures { result.now ≡ bytes_of (files_of files.now) name.now }
{
    match found(files, name) {
        Some(bytes) => bytes,
        None => &[],
    }
}

/// A copy of the bytes, where they are within the limit.
fn copied(alloc: Global, bytes: &[u8], limit: u64) -> Result<Vec<u8>, ShelfFault>
    ensures copy { IfOk result (λ copy. copy.items ≡ bytes.now) }
    ensures within { IfOk result (λ copy. length copy.items ≤ limit) }
    ensures too_long { IsTooLong limit (length bytes.now) result }
    ensures sure { ¬ IsErrOf result Failed }
{
    if bytes.len() as u64 > limit {
        return Err(ShelfFault::TooLong);
    }
    match bytes.to_vec(alloc) {
        Ok(copy) => Ok(copy),
        Err(AllocError) => Err(ShelfFault::Memory),
    }
}
