//! The command `show`.
ghost use Rattle.std.specs.Prelude.{IfOk};
ghost use Rattle.input_files.specs.Unfetched.{texts_view};
ghost use Rattle.program_files.specs.Meant.{AreWithin};
ghost use Rattle.smps_cli.specs.Found.{found_text};
ghost use Rattle.smps_cli.specs.Inputs.{IsInput};
ghost use Rattle.smps_cli.specs.Shown.{MayBeShown, PrintsProgram};

use crate::answer::Answer;
use crate::found::Found;
use crate::input::{Input, read_input};
use crate::refuse::stopped;
use edit_script::apply_all;
use exit_status::Status;
use frac128::Memory;
use input_files::Texts;
use std::alloc::Global;

/// The answer for the texts of the files: the program that they mean after all edits, or their first fault.
pub(crate) fn shown(alloc: Global, texts: &Texts) -> Result<Answer, Memory>
    requires { AreWithin (texts_view texts.now) }
    ensures { IfOk result (λ answer. MayBeShown (texts_view texts.now) answer.status (found_text answer.found)) }
{
    match read_input(alloc, texts) {
        Ok(input) => edited(alloc, texts, input),
        Err(unread) => stopped(alloc, unread),
    }
}

/// The answer for the input of the texts: applies all edits.
fn edited(alloc: Global, texts: &Texts, input: Input) -> Result<Answer, Memory>
    requires { IsInput (texts_view texts.now) input }
    ensures { IfOk result (λ answer. PrintsProgram (texts_view texts.now) answer.status (found_text answer.found)) }
{
    let _core = texts.core.len();
    let Input {
        mut program,
        script,
    } = input;
    apply_all(alloc, &mut program, &script)?;
    Ok(Answer {
        status: Status::Done,
        found: Found::Shown(program),
    })
}
