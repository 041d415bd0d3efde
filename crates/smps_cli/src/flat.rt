//! The command `flat`.
ghost use Rattle.std.specs.Prelude.{◌≡◌, Err, IfOk};
ghost use Rattle.input_files.specs.Unfetched.{texts_view};
ghost use Rattle.program_files.specs.Meant.{AreWithin};
ghost use Rattle.scen_defs.specs.Program.{content};
ghost use Rattle.smps_cli.specs.Flat.{FlatComes, IsFlat, MayBeFlat, RefusesCore, flat_end, limits_of};
ghost use Rattle.smps_cli.specs.Found.{found_text};
ghost use Rattle.smps_cli.specs.Inputs.{IsInput};

use crate::answer::{Answer, line_answer};
use crate::found::Found;
use crate::input::{Input, read_input};
use crate::refuse::stopped;
use command_words::Extent;
use core_defs::Cause;
use edit_script::apply_all;
use exit_status::Status;
use flat_write::{FlatFault, FlatLimits, write_flat};
use frac128::Memory;
use input_files::{FileKind, Texts};
use scen_defs::Program;
use std::alloc::Global;

/// The answer for the texts of the files: the program that they mean after all edits, as one core file, or their first fault.
pub(crate) fn flattened(alloc: Global, texts: &Texts, extent: Extent) -> Result<Answer, Memory>
    requires { AreWithin (texts_view texts.now) }
    ensures { IfOk result (λ answer. MayBeFlat extent (texts_view texts.now) answer.status (found_text answer.found)) }
{
    match read_input(alloc, texts) {
        Ok(input) => edited(alloc, texts, input, extent),
        Err(unread) => stopped(alloc, unread),
    }
}

/// The answer for the input of the texts: applies all edits.
fn edited(alloc: Global, texts: &Texts, input: Input, extent: Extent) -> Result<Answer, Memory>
    requires { IsInput (texts_view texts.now) input }
    ensures { IfOk result (λ answer. IsFlat extent (texts_view texts.now) answer.status (found_text answer.found)) }
{
    let _core = texts.core.len();
    let Input {
        mut program,
        script,
    } = input;
    apply_all(alloc, &mut program, &script)?;
    flat_answer(alloc, &program, limits(extent))
}

/// How large the text may be.
fn limits(extent: Extent) -> FlatLimits
    ensures { result ≡ limits_of extent }
{
    match extent {
        Extent::Core => FlatLimits::CORE,
        Extent::Whole => FlatLimits::WHOLE,
    }
}

/// The answer of a program: its text, or the refusal of the core file where there is none.
fn flat_answer(alloc: Global, program: &Program, limits: FlatLimits) -> Result<Answer, Memory>
    ensures { IfOk result (λ answer. FlatComes (flat_end limits (content program.now)) answer.status (found_text answer.found)) }
{
    match write_flat(alloc, program, limits) {
        Ok(text) => Ok(Answer {
            status: Status::Done,
            found: Found::Flat(text),
        }),
        Err(fault) => unwritten(alloc, fault),
    }
}

/// The answer of a program that isn't written.
fn unwritten(alloc: Global, fault: FlatFault) -> Result<Answer, Memory>
    ensures { IfOk result (λ answer. FlatComes (Err fault) answer.status (found_text answer.found)) }
{
    match fault {
        FlatFault::Limit => refused(alloc, Cause::FlatLimit),
        FlatFault::Passed(passed) => refused(alloc, Cause::Passes(passed)),
        FlatFault::Memory => Err(Memory),
    }
}

/// The answer that refuses the core file as a whole.
fn refused(alloc: Global, cause: Cause) -> Result<Answer, Memory>
    ensures { IfOk result (λ answer. RefusesCore cause answer.status (found_text answer.found)) }
{
    line_answer(alloc, Status::Refused(FileKind::Core, 0, cause), &None)
}
