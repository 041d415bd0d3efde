//! The command `check`.
ghost use Rattle.std.specs.Prelude.{◌≡◌, IfOk};
ghost use Rattle.scen_defs.specs.Program.{content};
ghost use Rattle.input_files.specs.Unfetched.{texts_view};
ghost use Rattle.program_files.specs.Meant.{AreWithin};
ghost use Rattle.program_files.specs.Edited.{MeansReports};
ghost use Rattle.edit_script.specs.Solves.{solve_count};
ghost use Rattle.smps_cli.specs.Inputs.{IsInput};
ghost use Rattle.smps_cli.specs.Checks.{MayBeChecked, PrintsChecks};
ghost use Rattle.smps_cli.specs.Found.{found_text};

use crate::answer::Answer;
use crate::found::{Checks, Found};
use crate::input::{Input, read_input};
use crate::refuse::stopped;
use edit_script::solves;
use exit_status::open_status;
use frac128::Memory;
use input_files::Texts;
use program_files::read_told;
use scen_defs::Report;
use script_checks::{all_hold, check_script};
use std::alloc::Global;

/// The answer for the texts of the files: the checks of the reports, or the first fault.
pub(crate) fn checked(alloc: Global, texts: &Texts) -> Result<Answer, Memory>
    requires { AreWithin (texts_view texts.now) }
    ensures { IfOk result (λ answer. MayBeChecked (texts_view texts.now) answer.status (found_text answer.found)) }
{
    match read_input(alloc, texts) {
        Ok(mut input) => checked_input(alloc, texts, &mut input),
        Err(unread) => stopped(alloc, unread),
    }
}

/// The answer for the input of the texts: reads the reports.
fn checked_input(alloc: Global, texts: &Texts, input: &mut Input) -> Result<Answer, Memory>
    requires within { AreWithin (texts_view texts.now) }
    requires input { IsInput (texts_view texts.now) input.old }
    ensures { IfOk result (λ answer. MayBeChecked (texts_view texts.now) answer.status (found_text answer.found)) }
{
    match read_told(alloc, texts, &input.program, &input.script) {
        Ok(reports) => checked_reports(alloc, texts, input, &reports),
        Err(unread) => stopped(alloc, unread),
    }
}

/// The answer for reports: checks each against the program after the edits before its SOLVE.
fn checked_reports(
    alloc: Global,
    texts: &Texts,
    input: &mut Input,
    reports: &[Report],
) -> Result<Answer, Memory>
    requires input { IsInput (texts_view texts.now) input.old }
    requires stated { MeansReports (texts_view texts.now) (solve_count input.old.script.items.items) input.old.program reports.now }
    ensures { IfOk result (λ answer. PrintsChecks (texts_view texts.now) answer.status (found_text answer.found)) }
{
    let _core = texts.core.len();
    let asked = solves(&input.script);
    let checks = check_script(alloc, &mut input.program, &input.script, reports)?;
    Ok(Answer {
        status: open_status(!all_hold(&checks)),
        found: Found::Checks(Checks { checks, asked }),
    })
}
