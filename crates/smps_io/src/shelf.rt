//! A shelf of files, which were fetched from it, and how often a fetch has failed.
ghost use Rattle.std.specs.Prelude.{◌≡◌, ◌≤◌, ◌++◌, ◌∷◌, [], ℕ, List, Option, IfOk, OnOk, OnErr, IsErrOf, length, map, string_bytes};
ghost use Rattle.smps_io.specs.Files.{Files};
ghost use Rattle.smps_io.specs.Fetches.{GivesFile, FetchHasCause, FetchesPrefix, IsTooLong};

use std::alloc::{AllocError, Global};
use std::fs::Files;
use thiserror::Error;

/// Why a fetch gives no bytes.
#[derive(Clone, Copy, Debug, Drop, PartialEq, Eq, Error)]
pub enum ShelfFault {
    /// The source failed; the count of faults rose.
    #[error("the file could not be read")]
    Failed,
    /// The source gave more bytes than the limit.
    #[error("the file is too long")]
    TooLong,
    /// Memory was wanting.
    #[error("out of memory")]
    Memory,
}

/// Files by name. Every fetch leaves them as they are.
pub trait Shelf {
    /// What it holds, where it tells that: files by name.
    ghost content: { Self → Option Files };

    /// How often it has failed. The count never falls; at 2^64 - 1 it stays.
    ghost faults: { Self → ℕ };

    /// The names of all fetches, in their order.
    ghost fetches: { Self → List (List ℕ) };

    /// How many bytes the source gave at the last fetch.
    ghost given: { Self → ℕ };

    /// The bytes of a name, at most `limit` of them. A shelf that tells what it holds gives no bytes
    /// for a name that it doesn't hold, or fails. A fetch for whose name memory is wanting isn't made.
    fn fetch<R: Files>(
        &mut self,
        rt: &R,
        alloc: Global,
        name: &str,
        limit: u64,
    ) -> Result<Vec<u8>, ShelfFault>
        ensures gives { GivesFile (content self.old) name.now limit result }
        ensures within { IfOk result (λ bytes. length bytes.items ≤ limit) }
        ensures too_long { IsTooLong limit (given self.new) result }
        ensures bytes { IfOk result (λ bytes. length bytes.items ≡ given self.new) }
        ensures names { ¬ IsErrOf result ShelfFault.Memory → fetches self.new ≡ fetches self.old ++ name.now ∷ [] }
        ensures once { FetchesPrefix (fetches self.old) (name.now ∷ []) (fetches self.new) }
        ensures same { content self.new ≡ content self.old }
        ensures cause { FetchHasCause (faults self.old) (faults self.new) result };
}

/// Puts a name behind those before. Where memory is wanting, these stay alone.
pub(crate) fn keep_name(
    alloc: Global,
    names: &mut Vec<String>,
    name: &str,
) -> Result<(), AllocError>
    ensures kept { OnOk result (map string_bytes names.new.items ≡ map string_bytes names.old.items ++ name.now ∷ []) }
    ensures same { OnErr result (names.new.items ≡ names.old.items) }
{
    let name = String::from_str(alloc, name)?;
    names.push(name)?;
    Ok(())
}
