//! The program that the files of a run mean, behind all edits.
ghost use Rattle.scen_defs.specs.Program.{content};
ghost use Rattle.input_files.specs.Unfetched.{texts_view};
ghost use Rattle.program_files.specs.Meant.{AreWithin, MeansProgram};

use command_words::{Command, PlainWords, Sources};
use edit_script::apply_all;
use frac128::Memory;
use input_files::{Texts, Unfetched, fetched_texts};
use program_files::{Unread, read_edits, read_program};
use scen_defs::Program;
use smps_io::Shelf;
use std::alloc::Global;
use std::fs::Files;

/// The program behind all edits; none where the edit list is refused.
fn edited(alloc: Global, texts: &Texts, program: Program) -> Result<Option<Program>, Memory>
    requires within { AreWithin (texts_view texts.now) }
    requires means { MeansProgram (texts_view texts.now) (content program) }
{
    let mut program = program;
    match read_edits(alloc, texts, &program) {
        Ok(script) => {
            apply_all(alloc, &mut program, &script)?;
            Ok(Some(program))
        }
        Err(Unread::Refused(_, _, _)) => Ok(None),
        Err(Unread::Memory) => Err(Memory),
    }
}

/// The program that texts mean; none where one is refused.
fn meant_by(alloc: Global, texts: &Texts) -> Result<Option<Program>, Memory>
    requires { AreWithin (texts_view texts.now) }
{
    match read_program(alloc, texts) {
        Ok(program) => edited(alloc, texts, program),
        Err(Unread::Refused(_, _, _)) => Ok(None),
        Err(Unread::Memory) => Err(Memory),
    }
}

/// The program that the files mean; none where one isn't there or is refused.
fn of_files<R: Files, H: Shelf>(
    rt: &R,
    alloc: Global,
    shelf: &mut H,
    sources: &Sources<'_>,
) -> Result<Option<Program>, Memory> {
    match fetched_texts(rt, alloc, shelf, sources) {
        Ok(texts) => meant_by(alloc, &texts),
        Err(Unfetched::Memory) => Err(Memory),
        Err(_) => Ok(None),
    }
}

/// The program that the files mean which the words name; none where the words name none, or a file isn't there or is refused.
pub fn program_of<R: Files, H: Shelf>(
    rt: &R,
    alloc: Global,
    words: &[String],
    shelf: &mut H,
) -> Result<Option<Program>, Memory> {
    let Some(plain) = PlainWords::read(alloc, words)? else {
        return Ok(None);
    };
    match plain.command(alloc) {
        Ok(Command::OnFiles { sources, task: _ }) => of_files(rt, alloc, shelf, &sources),
        Ok(Command::Make(_)) => Ok(None),
        Err(_) => Err(Memory),
    }
}
