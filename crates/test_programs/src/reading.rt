// Reads the texts of a program.
ghost use Rattle.std.specs.Prelude.{◌≤◌, IfOk, IfSome, length};
ghost use Rattle.input_files.specs.Unfetched.{given_bytes};

use crate::samples::Source;
use frac128::Memory;
use input_files::Texts;
use program_files::{Unread, read_program};
use scen_defs::Program;
use std::alloc::Global;

/// The bytes of a text that is there.
fn bytes_if(alloc: Global, text: &str) -> Result<Option<Vec<u8>>, Memory>
    ensures { IfOk result (λ bytes. IfSome (given_bytes bytes) (λ given. length given ≤ length text.now)) }
{
    if text.is_empty() {
        return Ok(None);
    }
    Ok(Some(text.as_bytes().to_vec(alloc)?))
}

/// The program that the texts mean; none where one of them is refused or has more than 8,000,000 bytes.
pub fn read_source(alloc: Global, source: Source<'_>) -> Result<Option<Program>, Memory> {
    if source.core.len() > 8_000_000
        || source.time.len() > 8_000_000
        || source.stoch.len() > 8_000_000
    {
        return Ok(None);
    }
    let texts = Texts {
        core: source.core.as_bytes().to_vec(alloc)?,
        time: bytes_if(alloc, source.time)?,
        stoch: bytes_if(alloc, source.stoch)?,
        edits: None,
        report: None,
        basis: None,
        measures: None,
    };
    match read_program(alloc, &texts) {
        Ok(program) => Ok(Some(program)),
        Err(Unread::Refused(_, _, _)) => Ok(None),
        Err(Unread::Memory) => Err(Memory),
    }
}
