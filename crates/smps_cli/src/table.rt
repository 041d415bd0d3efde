//! The command `table`.
ghost use Rattle.std.specs.Prelude.{◌≡◌, ◌≤◌, true, Err, IfOk, IfErr, length};
ghost use Rattle.scen_defs.specs.Program.{content};
ghost use Rattle.input_files.specs.Fetched.{file_limit};
ghost use Rattle.input_files.specs.Unfetched.{texts_view};
ghost use Rattle.program_files.specs.Meant.{AreWithin};
ghost use Rattle.program_files.specs.Edited.{MeansReports, or_empty};
ghost use Rattle.edit_script.specs.Solves.{solve_count};
ghost use Rattle.smps_cli.specs.Inputs.{IsInput};
ghost use Rattle.smps_cli.specs.Tables.{IsTable, MayBeTable, RefusesMeasures, RefusesReport, TableComes, line_after};
ghost use Rattle.smps_cli.specs.Found.{found_text};

use crate::answer::{Answer, line_answer};
use crate::found::{Found, Lack};
use crate::input::{Input, read_input};
use crate::refuse::stopped;
use command_words::Sheet;
use core_defs::{Cause, ReadFail};
use exit_status::Status;
use frac128::Memory;
use input_files::{FileKind, Texts};
use program_files::read_told;
use report_sheets::{NoSheet, print_sheet};
use scen_defs::Report;
use std::alloc::Global;
use value_reader::{StatedMeasures, read_measures};

/// The answer for the texts of the files: the report that is asked for, in its form, or the first fault.
pub(crate) fn tabled(alloc: Global, texts: &Texts, sheet: Sheet) -> Result<Answer, Memory>
    requires { AreWithin (texts_view texts.now) }
    ensures { IfOk result (λ answer. MayBeTable sheet (texts_view texts.now) answer.status (found_text answer.found)) }
{
    match read_input(alloc, texts) {
        Ok(mut input) => tabled_input(alloc, texts, &mut input, sheet),
        Err(unread) => stopped(alloc, unread),
    }
}

/// The answer for the input of the texts: reads the reports.
fn tabled_input(
    alloc: Global,
    texts: &Texts,
    input: &mut Input,
    sheet: Sheet,
) -> Result<Answer, Memory>
    requires within { AreWithin (texts_view texts.now) }
    requires input { IsInput (texts_view texts.now) input.old }
    ensures { IfOk result (λ answer. MayBeTable sheet (texts_view texts.now) answer.status (found_text answer.found)) }
{
    match read_told(alloc, texts, &input.program, &input.script) {
        Ok(reports) => tabled_told(alloc, texts, input, &reports, sheet),
        Err(unread) => stopped(alloc, unread),
    }
}

/// What `value` printed, where the words name its file.
fn measures_told(
    alloc: Global,
    texts: &Texts,
    sheet: Sheet,
) -> Result<Option<StatedMeasures>, ReadFail>
    ensures { IfErr result (λ fail. sheet.with_measures ≡ true) }
{
    match &texts.measures {
        Some(text) if sheet.with_measures => match read_measures(alloc, text) {
            Ok(measures) => Ok(Some(measures)),
            Err(fail) => Err(fail),
        },
        _ => Ok(None),
    }
}

/// The answer for reports: reads what `value` printed, where it is asked for.
fn tabled_told(
    alloc: Global,
    texts: &Texts,
    input: &mut Input,
    reports: &[Report],
    sheet: Sheet,
) -> Result<Answer, Memory>
    requires within { AreWithin (texts_view texts.now) }
    requires input { IsInput (texts_view texts.now) input.old }
    requires stated { MeansReports (texts_view texts.now) (solve_count input.old.script.items.items) input.old.program reports.now }
    ensures { IfOk result (λ answer. MayBeTable sheet (texts_view texts.now) answer.status (found_text answer.found)) }
{
    match measures_told(alloc, texts, sheet) {
        Ok(measures) => tabled_report(alloc, texts, input, reports, measures, sheet),
        Err(fail) => unmeasured(alloc, fail),
    }
}

/// The answer where the file that `value` printed isn't read.
fn unmeasured(alloc: Global, fail: ReadFail) -> Result<Answer, Memory>
    ensures { IfOk result (λ answer. RefusesMeasures answer.status (found_text answer.found)) }
{
    match fail {
        ReadFail::Refused(refusal) => {
            let status = Status::Refused(FileKind::Measures, refusal.line, refusal.cause);
            line_answer(alloc, status, &None)
        }
        ReadFail::Memory => Err(Memory),
    }
}

/// The answer for reports: tests the one that is asked for.
fn tabled_report(
    alloc: Global,
    texts: &Texts,
    input: &mut Input,
    reports: &[Report],
    measures: Option<StatedMeasures>,
    sheet: Sheet,
) -> Result<Answer, Memory>
    requires within { AreWithin (texts_view texts.now) }
    requires input { IsInput (texts_view texts.now) input.old }
    requires stated { MeansReports (texts_view texts.now) (solve_count input.old.script.items.items) input.old.program reports.now }
    ensures { IfOk result (λ answer. IsTable sheet.number (texts_view texts.now) answer.status (found_text answer.found)) }
{
    match print_sheet(
        alloc,
        &mut input.program,
        &input.script,
        reports,
        measures,
        sheet,
    ) {
        Ok(page) => Ok(Answer {
            status: Status::Done,
            found: Found::Table(page),
        }),
        Err(why) => unshown(alloc, texts, why),
    }
}

/// The answer where no report is shown.
fn unshown(alloc: Global, texts: &Texts, why: NoSheet) -> Result<Answer, Memory>
    requires { AreWithin (texts_view texts.now) }
    ensures { IfOk result (λ answer.
        TableComes (line_after (or_empty (texts_view texts.now).report)) (Err why) answer.status (found_text answer.found)) }
{
    match why {
        NoSheet::Missing(count) => lacking(alloc, line_after(texts), count),
        NoSheet::Unproved(check) => Ok(Answer {
            status: Status::SomeOpen,
            found: Found::Unproved(check),
        }),
        NoSheet::Memory => Err(Memory),
    }
}

/// The number of the line after the last one of the report file.
fn line_after(texts: &Texts) -> u32
    requires { AreWithin (texts_view texts.now) }
    ensures { result ≡ line_after (or_empty (texts_view texts.now).report) }
{
    match &texts.report {
        Some(text) => line_after_text(text),
        None => 1,
    }
}

/// The number of the line after the last one of a text.
fn line_after_text(text: &[u8]) -> u32
    requires { length text.now ≤ file_limit }
    ensures { result ≡ line_after text.now }
{
    let mut line: u32 = 1;
    for byte in text {
        if *byte == b'\n' {
            line += 1;
        }
    }
    line
}

/// The answer that refuses the report file, which has only so many reports.
fn lacking(alloc: Global, line: u32, count: usize) -> Result<Answer, Memory>
    ensures { IfOk result (λ answer. RefusesReport line answer.status (found_text answer.found)) }
{
    let status = Status::Refused(FileKind::Report, line, Cause::ReportBad);
    let line = status.line(alloc, &None)?;
    Ok(Answer {
        status,
        found: Found::Lacking(Lack { line, count }),
    })
}
