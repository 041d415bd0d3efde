//! The files that the words name, fetched in their order.
ghost use Rattle.std.specs.Prelude.{◌≡◌, ◌≢◌, ◌≤◌, ◌++◌, ◌∷◌, [], Err, IfOk, IfErr, OnOk};
ghost use Rattle.std.specs.Option.{option_to_list};
ghost use Rattle.smps_io.specs.Faults.{Rose};
ghost use Rattle.smps_io.specs.Fetches.{FetchesPrefix};
ghost use Rattle.command_words.specs.Views.{sources_view, name_given};
ghost use Rattle.input_files.specs.Fetched.{IsGiven, IsGivenIf, AreGiven, file_limit, names_in_order};
ghost use Rattle.input_files.specs.declared.kind.FileKind.{FileKind};
ghost use Rattle.input_files.specs.Unfetched.{texts_view, given_bytes, IsCause, IsCauseOf, IsCauseIf, StopsBy, SaysLong};

use crate::kind::FileKind;
use command_words::Sources;
use smps_io::{Shelf, ShelfFault};
use std::alloc::Global;
use std::fs::Files;

/// A file has at most so many bytes.
pub const FILE_LIMIT: u64 = 8_388_608;

/// The bytes of the files that a command takes.
#[derive(Drop)]
pub struct Texts {
    pub core: Vec<u8>,
    pub time: Option<Vec<u8>>,
    pub stoch: Option<Vec<u8>>,
    pub edits: Option<Vec<u8>>,
    pub report: Option<Vec<u8>>,
    pub basis: Option<Vec<u8>>,
    pub measures: Option<Vec<u8>>,
}

/// Why a file wasn't fetched.
#[derive(Clone, Copy, Drop)]
pub enum Unfetched {
    /// The shelf failed.
    Failed(FileKind),
    /// The file has more bytes than a file may have.
    TooLong(FileKind),
    /// Memory was wanting.
    Memory,
}

/// The bytes of the file of this kind.
fn fetched<R: Files, H: Shelf>(
    rt: &R,
    alloc: Global,
    shelf: &mut H,
    kind: FileKind,
    name: &str,
) -> Result<Vec<u8>, Unfetched>
    ensures given { IfOk result (λ bytes. IsGiven (H.content shelf.old) name.now bytes.items) }
    ensures cause { IfErr result (IsCauseOf (H.content shelf.old) name.now kind) }
    ensures failed { result ≡ Err (Unfetched.Failed kind) → Rose (H.faults shelf.old) (H.faults shelf.new) }
    ensures long { IfErr result (λ fault. SaysLong fault (H.given shelf.new)) }
    ensures within { OnOk result (H.given shelf.new ≤ file_limit) }
    ensures later { H.faults shelf.old ≤ H.faults shelf.new }
    ensures names { OnOk result (H.fetches shelf.new ≡ H.fetches shelf.old ++ name.now ∷ []) }
    ensures stops { IfErr result (λ fault. fault ≢ Unfetched.Memory → H.fetches shelf.new ≡ H.fetches shelf.old ++ name.now ∷ []) }
    ensures once { FetchesPrefix (H.fetches shelf.old) (name.now ∷ []) (H.fetches shelf.new) }
    ensures same { H.content shelf.new ≡ H.content shelf.old }
{
    match shelf.fetch(rt, alloc, name, FILE_LIMIT) {
        Ok(bytes) => Ok(bytes),
        Err(ShelfFault::Failed) => Err(Unfetched::Failed(kind)),
        Err(ShelfFault::TooLong) => Err(Unfetched::TooLong(kind)),
        Err(ShelfFault::Memory) => Err(Unfetched::Memory),
    }
}

/// The bytes of a file that need not be named.
fn fetched_if<R: Files, H: Shelf>(
    rt: &R,
    alloc: Global,
    shelf: &mut H,
    kind: FileKind,
    name: Option<&str>,
) -> Result<Option<Vec<u8>>, Unfetched>
    ensures given { IfOk result (λ bytes. IsGivenIf (H.content shelf.old) (name_given name.entry) (given_bytes bytes)) }
    ensures cause { IfErr result (IsCauseIf (H.content shelf.old) (name_given name.entry) kind) }
    ensures failed { result ≡ Err (Unfetched.Failed kind) → Rose (H.faults shelf.old) (H.faults shelf.new) }
    ensures long { IfErr result (λ fault. SaysLong fault (H.given shelf.new)) }
    ensures within { OnOk result (H.given shelf.old ≤ file_limit → H.given shelf.new ≤ file_limit) }
    ensures later { H.faults shelf.old ≤ H.faults shelf.new }
    ensures names { OnOk result (H.fetches shelf.new ≡ H.fetches shelf.old ++ option_to_list (name_given name.entry)) }
    ensures stops { IfErr result (λ fault.
        fault ≢ Unfetched.Memory → H.fetches shelf.new ≡ H.fetches shelf.old ++ option_to_list (name_given name.entry)) }
    ensures once { FetchesPrefix (H.fetches shelf.old) (option_to_list (name_given name.entry)) (H.fetches shelf.new) }
    ensures same { H.content shelf.new ≡ H.content shelf.old }
{
    match name {
        None => Ok(None),
        Some(name) => {
            let bytes = fetched(rt, alloc, shelf, kind, name)?;
            Ok(Some(bytes))
        }
    }
}

/// The bytes of all files that are named. They are fetched in the order core, time, stoch, edits, report, basis, measures, each once,
/// up to the first that isn't given.
pub fn fetched_texts<R: Files, H: Shelf>(
    rt: &R,
    alloc: Global,
    shelf: &mut H,
    sources: &Sources<'_>,
) -> Result<Texts, Unfetched>
    ensures given { IfOk result (λ texts. AreGiven (H.content shelf.old) (sources_view sources.now) (texts_view texts)) }
    ensures cause { IfErr result (IsCause (H.content shelf.old) (sources_view sources.now)) }
    ensures failed { (kind : FileKind) → result ≡ Err (Unfetched.Failed kind) → Rose (H.faults shelf.old) (H.faults shelf.new) }
    ensures long { IfErr result (λ fault. SaysLong fault (H.given shelf.new)) }
    ensures within { OnOk result (H.given shelf.new ≤ file_limit) }
    ensures names { OnOk result (H.fetches shelf.new ≡ H.fetches shelf.old ++ names_in_order (sources_view sources.now)) }
    ensures stops { IfErr result (λ fault. StopsBy (sources_view sources.now) fault (H.fetches shelf.old) (H.fetches shelf.new)) }
    ensures once { FetchesPrefix (H.fetches shelf.old) (names_in_order (sources_view sources.now)) (H.fetches shelf.new) }
{
    let core = match fetched(rt, alloc, shelf, FileKind::Core, sources.core) {
        Ok(bytes) => bytes,
        Err(fault) => return Err(fault),
    };
    let time = match fetched_if(rt, alloc, shelf, FileKind::Time, sources.time) {
        Ok(bytes) => bytes,
        Err(fault) => return Err(fault),
    };
    let stoch = match fetched_if(rt, alloc, shelf, FileKind::Stoch, sources.stoch) {
        Ok(bytes) => bytes,
        Err(fault) => return Err(fault),
    };
    let edits = match fetched_if(rt, alloc, shelf, FileKind::Edits, sources.edits) {
        Ok(bytes) => bytes,
        Err(fault) => return Err(fault),
    };
    let report = match fetched_if(rt, alloc, shelf, FileKind::Report, sources.report) {
        Ok(bytes) => bytes,
        Err(fault) => return Err(fault),
    };
    let basis = match fetched_if(rt, alloc, shelf, FileKind::Basis, sources.basis) {
        Ok(bytes) => bytes,
        Err(fault) => return Err(fault),
    };
    match fetched_if(rt, alloc, shelf, FileKind::Measures, sources.measures) {
        Ok(measures) => Ok(Texts {
            core,
            time,
            stoch,
            edits,
            report,
            basis,
            measures,
        }),
        Err(fault) => Err(fault),
    }
}
