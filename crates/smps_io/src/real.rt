//! The files of the system, and standard output: the edges that no clause can see behind.
ghost use Rattle.std.specs.Prelude.{◌≡◌, ◌<◌, ◌≤◌, ◌↔◌, ◌++◌, None, IfOk, OnOk, IfSome, IsErrOf, length, map, string_bytes};
ghost use Rattle.smps_io.specs.Fetches.{IsTooLong};
ghost use Rattle.smps_io.specs.declared.shelf.ShelfFault.TheVariants.{Failed, TooLong};

use crate::shelf::{Shelf, ShelfFault, keep_name};
use crate::sink::{Sink, SinkFault};
use std::alloc::{AllocError, Global};
use std::fs;
use std::fs::Files;
use std::io::Read;

/// The files of the system. It tells no content.
#[derive(Drop)]
pub struct RealShelf {
    faults: u64,
    fetches: Vec<String>,
    given: u64,
}

impl RealShelf {
    ghost use Rattle.std.specs.Prelude.{◌≡◌, []};
    ghost use Rattle.smps_io.specs.Real.{fetch_faults, fetched_names};

    /// Before the first fetch, with a count of faults of 0.
    pub fn new(alloc: Global) -> RealShelf
        ensures unfailed { fetch_faults result ≡ 0 }
        ensures unfetched { fetched_names result ≡ [] }
    {
        RealShelf {
            faults: 0,
            fetches: Vec::new(alloc),
            given: 0,
        }
    }
}

impl Shelf for RealShelf {
    ghost content = { λ s. None };

    ghost faults = { λ s. s.faults };

    ghost fetches = { λ s. map string_bytes s.fetches.items };

    ghost given = { λ s. s.given };

    fn fetch<R: Files>(
        &mut self,
        rt: &R,
        alloc: Global,
        name: &str,
        limit: u64,
    ) -> Result<Vec<u8>, ShelfFault> {
        self.given = 0;
        if keep_name(alloc, &mut self.fetches, name).is_err() {
            return Err(ShelfFault::Memory);
        }
        match file_within(rt, alloc, name, limit, &mut self.given) {
            Err(ShelfFault::Failed) => {
                self.faults = self.faults.saturating_add(1);
                Err(ShelfFault::Failed)
            }
            fetched => fetched,
        }
    }
}

/// The bytes of the file of this name, at most `limit` of them. How many it gave is left in `given`.
fn file_within<R: Files>(
    rt: &R,
    alloc: Global,
    name: &str,
    limit: u64,
    given: &mut u64,
) -> Result<Vec<u8>, ShelfFault>
    ensures within { IfOk result (λ bytes. length bytes.items ≤ limit) }
    ensures too_long { IsTooLong limit given.new result }
    ensures bytes { IfOk result (λ bytes. length bytes.items ≡ given.new) }
{
    *given = 0;
    let Ok(mut file) = fs::open(rt, name) else {
        return Err(ShelfFault::Failed);
    };
    bytes_within(alloc, &mut file, limit, given)
}

/// The bytes that a reader gives up to its end, at most `limit` of them: where it tells which these are, as a reader over memory does, they
/// are these, and no others. How many it gave is left in `given`.
fn bytes_within<F: Read>(
    alloc: Global,
    reader: &mut F,
    limit: u64,
    given: &mut u64,
) -> Result<Vec<u8>, ShelfFault>
    ensures within { IfOk result (λ bytes. length bytes.items ≤ limit) }
    ensures too_long { IsTooLong limit given.new result }
    ensures bytes { IfOk result (λ bytes. length bytes.items ≡ given.new) }
    ensures read { IfOk result (λ bytes. IfSome (F.remaining reader.old) (λ all. bytes.items ≡ all)) }
{
    *given = 0;
    let mut bytes = Vec::new(alloc);
    let mut chunk = [0u8; 4096];
    for _ in 0..u64::MAX {
        match reader.read(&mut chunk) {
            Ok(0) => return Ok(bytes),
            Ok(count) => put_within(&mut bytes, &chunk[..count], limit, given)?,
            Err(_) => break,
        }
    }
    Err(ShelfFault::Failed)
}

/// Puts what a reader gave behind the bytes before, unless these are then more than `limit`. How many it has given is left in `given`.
fn put_within(
    bytes: &mut Vec<u8>,
    chunk: &[u8],
    limit: u64,
    given: &mut u64,
) -> Result<(), ShelfFault>
    ensures within { OnOk result (length bytes.new.items ≤ limit) }
    ensures too_long { IsErrOf result TooLong ↔ (limit < given.new) }
    ensures bytes { OnOk result (length bytes.new.items ≡ given.new) }
    ensures sure { ¬ IsErrOf result Failed }
    ensures chunk { OnOk result (bytes.new.items ≡ bytes.old.items ++ chunk.now) }
{
    *given = (bytes.len() + chunk.len()) as u64;
    if *given > limit {
        return Err(ShelfFault::TooLong);
    }
    match bytes.extend_from_slice(chunk) {
        Ok(()) => Ok(()),
        Err(AllocError) => Err(ShelfFault::Memory),
    }
}

/// Standard output. It doesn't tell what was written.
#[derive(Drop)]
pub struct RealSink {
    faults: u64,
    taken: u64,
}

impl RealSink {
    ghost use Rattle.std.specs.Prelude.{◌≡◌};
    ghost use Rattle.smps_io.specs.Real.{put_faults};

    /// With a count of faults of 0.
    pub fn new() -> RealSink
        ensures { put_faults result ≡ 0 }
    {
        RealSink {
            faults: 0,
            taken: 0,
        }
    }
}

impl Sink for RealSink {
    ghost written = { λ s. None };

    ghost faults = { λ s. s.faults };

    ghost taken = { λ s. s.taken };

    // A put that takes nothing counts as failed.
    fn put<R: Print>(&mut self, rt: &R, bytes: &[u8]) -> Result<u64, SinkFault> {
        match rt.write_some(bytes) {
            Ok(count) if count > 0 => {
                self.taken = self.taken.saturating_add(count as u64);
                Ok(count as u64)
            }
            _ => {
                self.faults = self.faults.saturating_add(1);
                Err(SinkFault::Failed)
            }
        }
    }
}
