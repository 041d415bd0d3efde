//! The program of a task's texts, and the script of its edit list.
ghost use Rattle.std.specs.Prelude.{IfOk, IfErr};
ghost use Rattle.scen_defs.specs.Program.{content};
ghost use Rattle.input_files.specs.Unfetched.{texts_view};
ghost use Rattle.program_files.specs.Meant.{AreWithin, MeansProgram};
ghost use Rattle.smps_cli.specs.Ends.{RefusesUnread};
ghost use Rattle.smps_cli.specs.Inputs.{IsInput};

use edit_defs::Script;
use input_files::Texts;
use program_files::{Unread, read_edits, read_program};
use scen_defs::Program;
use std::alloc::Global;

/// A program, and what is to be done with it.
#[derive(Drop)]
pub struct Input {
    pub program: Program,
    pub script: Script,
}

/// The input of a program: reads the edit list.
fn edited(alloc: Global, texts: &Texts, program: Program) -> Result<Input, Unread>
    requires within { AreWithin (texts_view texts.now) }
    requires means { MeansProgram (texts_view texts.now) (content program) }
    ensures input { IfOk result (IsInput (texts_view texts.now)) }
    ensures refused { IfErr result (RefusesUnread (texts_view texts.now)) }
{
    match read_edits(alloc, texts, &program) {
        Ok(script) => Ok(Input { program, script }),
        Err(unread) => Err(unread),
    }
}

/// The program that the texts mean, and the script of the edit list; else the first fault.
pub(crate) fn read_input(alloc: Global, texts: &Texts) -> Result<Input, Unread>
    requires { AreWithin (texts_view texts.now) }
    ensures input { IfOk result (IsInput (texts_view texts.now)) }
    ensures refused { IfErr result (RefusesUnread (texts_view texts.now)) }
{
    match read_program(alloc, texts) {
        Ok(program) => edited(alloc, texts, program),
        Err(unread) => Err(unread),
    }
}
