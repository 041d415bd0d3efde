//! A report of a file, tested and shown.
ghost use Rattle.std.specs.Prelude.{IfOk, IfErr};
ghost use Rattle.scen_defs.specs.Program.{content};
ghost use Rattle.edit_script.specs.Allowed.{AreAllowed};
ghost use Rattle.script_checks.specs.Checked.{IsCheck};
ghost use Rattle.report_sheets.specs.Sheets.{HoldsFor, HoldsAsAsked, FailsTest, TellsWhyNot};

use crate::form::formed;
use crate::place::place_of;
use crate::walk::edit_up_to;
use command_words::{Sheet, SheetForm};
use edit_defs::Script;
use frac128::Memory;
use scen_defs::{Program, Report};
use script_checks::{Checked, check_single};
use std::alloc::Global;
use value_reader::StatedMeasures;

/// Why no report is shown.
#[derive(Debug, Drop)]
pub enum NoSheet {
    /// There is no report of that number: there are only so many.
    Missing(usize),
    /// The test of the report doesn't come to that it holds.
    Unproved(Checked),
    /// Memory was wanting.
    Memory,
}

/// The report of a list that is asked for, in the form that is: tested against the program after the edits
/// before its SOLVE, and shown only where all that it claims holds. The program is then as these edits left it. What `value` printed is
/// shown beside it where it is given, and not tested.
///
/// `Missing` comes where there is no such report, `Unproved` where a claim of it fails or an operation of the test passes 128 bits.
pub fn print_sheet(
    alloc: Global,
    program: &mut Program,
    script: &Script,
    reports: &[Report],
    measures: Option<StatedMeasures>,
    sheet: Sheet,
) -> Result<Vec<u8>, NoSheet>
    requires allowed { AreAllowed (content program.old) script.now.items.items }
    ensures shown { IfOk result (λ page. HoldsAsAsked (content program.old) script.now.items.items reports.now sheet.number) }
    ensures why { IfErr result (TellsWhyNot (content program.old) script.now.items.items reports.now sheet.number) }
{
    let Some(place) = place_of(reports.len(), sheet.number) else {
        return Err(NoSheet::Missing(reports.len()));
    };
    let report = &reports[place];
    match edit_up_to(alloc, program, script, place) {
        Ok(()) => tested(alloc, program, report, measures, sheet.form),
        Err(Memory) => Err(NoSheet::Memory),
    }
}

/// A report in a form, where its test against the program comes to that it holds.
fn tested(
    alloc: Global,
    program: &Program,
    report: &Report,
    measures: Option<StatedMeasures>,
    form: SheetForm,
) -> Result<Vec<u8>, NoSheet>
    ensures shown { IfOk result (λ page. HoldsFor (content program.now) report.now) }
    ensures why { IfErr result (FailsTest (content program.now) report.now) }
{
    match check_single(alloc, program, report) {
        Ok(check) => judged(alloc, program, report, measures, form, check),
        Err(Memory) => Err(NoSheet::Memory),
    }
}

/// A report in a form, where its test came to that it holds.
fn judged(
    alloc: Global,
    program: &Program,
    report: &Report,
    measures: Option<StatedMeasures>,
    form: SheetForm,
    check: Checked,
) -> Result<Vec<u8>, NoSheet>
    requires { IsCheck (content program.now) report.now check }
    ensures shown { IfOk result (λ page. HoldsFor (content program.now) report.now) }
    ensures why { IfErr result (FailsTest (content program.now) report.now) }
{
    if !check.holds() {
        return Err(NoSheet::Unproved(check));
    }
    match formed(alloc, program, report, measures, form) {
        Ok(page) => Ok(page),
        Err(Memory) => Err(NoSheet::Memory),
    }
}
