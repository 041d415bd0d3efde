//! The program that texts mean, behind all edits.
ghost use Rattle.std.specs.Prelude.{◌≤◌, IfOk, IfSome, length};
ghost use Rattle.input_files.specs.Unfetched.{given_bytes, texts_view};
ghost use Rattle.program_files.specs.Meant.{AreWithin, MeansProgram};
ghost use Rattle.scen_defs.specs.Program.{content};

use edit_script::apply_all;
use frac128::Memory;
use input_files::Texts;
use program_files::{Unread, read_edits, read_program};
use scen_defs::Program;
use std::alloc::Global;
use test_programs::Source;

/// The bytes of a text that is there.
fn bytes_if(alloc: Global, text: &str) -> Result<Option<Vec<u8>>, Memory>
    ensures { IfOk result (λ bytes. IfSome (given_bytes bytes) (λ given. length given ≤ length text.now)) }
{
    if text.is_empty() {
        return Ok(None);
    }
    Ok(Some(text.as_bytes().to_vec(alloc)?))
}

/// The program behind all edits; none where the edit list is refused.
fn edited(alloc: Global, texts: &Texts, program: Program) -> Result<Option<Program>, Memory>
    requires within { AreWithin (texts_view texts.now) }
    requires means { MeansProgram (texts_view texts.now) (content program) }
{
    let mut program = program;
    match read_edits(alloc, texts, &program) {
        Ok(script) => {
            apply_all(alloc, &mut program, &script)?;
            Ok(Some(program))
        }
        Err(Unread::Refused(_, _, _)) => Ok(None),
        Err(Unread::Memory) => Err(Memory),
    }
}

/// The program that the texts mean behind the edits; none where one of them is refused or has more than 8,000,000 bytes.
pub(crate) fn meant(
    alloc: Global,
    source: Source<'_>,
    edits: &str,
) -> Result<Option<Program>, Memory> {
    if source.core.len() > 8_000_000
        || source.time.len() > 8_000_000
        || source.stoch.len() > 8_000_000
        || edits.len() > 8_000_000
    {
        return Ok(None);
    }
    let texts = Texts {
        core: source.core.as_bytes().to_vec(alloc)?,
        time: bytes_if(alloc, source.time)?,
        stoch: bytes_if(alloc, source.stoch)?,
        edits: bytes_if(alloc, edits)?,
        report: None,
        basis: None,
        measures: None,
    };
    match read_program(alloc, &texts) {
        Ok(program) => edited(alloc, &texts, program),
        Err(Unread::Refused(_, _, _)) => Ok(None),
        Err(Unread::Memory) => Err(Memory),
    }
}
