//! Reads the text of reports.
ghost use Rattle.std.specs.Prelude.{◌≡◌, ◌+◌, ◌-◌, ◌<◌, ◌^◌, ◌∷◌, []};
ghost use Rattle.std.specs.Prelude.{Ok, IfOk, OnOk, IfSome, MatchOption, MatchResult, length};
ghost use Rattle.report_reader.specs.Pieces.{lines_of};
ghost use Rattle.report_reader.specs.Reports.{is_head, done_behind, draft_behind, fail_at, finish, read_text, reports_of, FailOf};
ghost use Rattle.report_reader.specs.Stated.{IsStated};

use crate::draft::{Draft, Next, fresh};
use crate::fault::Fault;
use crate::lines::step;
use crate::pieces::cut;
use crate::tables::{Tables, tables_of};
use core_defs::{Cause, ReadFail, Refusal};
use frac128::Memory;
use scen_defs::{Program, Report};
use std::alloc::Global;

/// The reports that a text states, so many at most, with the names of a program.
///
/// The first line that isn't one of a report there is refused with 58, and so is the line after the last where a report
/// is cut off, and the first line of a report beyond `most`. A field that holds a fraction and is a number, but a wide one, is refused
/// with 20.
pub fn read_reports(
    alloc: Global,
    text: &[u8],
    program: &Program,
    most: u32,
) -> Result<Vec<Report>, ReadFail>
    requires short { length text.now < 2 ^ 32 - 1 }
    ensures exact { MatchResult result (λ reports. reports_of most program.now text.now ≡ Ok reports.items)
        (FailOf (reports_of most program.now text.now)) }
    ensures stated { IfOk result (λ reports. IsStated program.now text.now reports.items) }
{
    read_exactly(alloc, text, program, most)
}

/// The reports that a text states, line by line.
fn read_exactly(
    alloc: Global,
    text: &[u8],
    program: &Program,
    most: u32,
) -> Result<Vec<Report>, ReadFail>
    requires short { length text.now < 2 ^ 32 - 1 }
    ensures { MatchResult result (λ reports. reports_of most program.now text.now ≡ Ok reports.items)
        (FailOf (reports_of most program.now text.now)) }
{
    match tables_of(alloc, program, most) {
        Ok(tables) => read_text(alloc, &tables, text),
        Err(Memory) => Err(ReadFail::Memory),
    }
}

/// The first line without its line feed, and what follows it.
fn next_line(text: &[u8]) -> Option<(&[u8], &[u8])>
    ensures lines { MatchOption result (lines_of text.now ≡ record { ended = []; rest = text.now })
        (λ p. lines_of text.now ≡ record { ended = p.0.now ∷ (lines_of p.1.now).ended; rest = (lines_of p.1.now).rest }) }
    ensures shorter { IfSome result (λ p. length p.1.now < length text.now) }
{
    cut(text, b'\n')
}

fn is_head(next: Next) -> bool
    ensures { result ≡ is_head next }
{
    match next {
        Next::Head => true,
        Next::Status => false,
        Next::Lower => false,
        Next::Upper => false,
        Next::Extra => false,
        Next::Count(_) => false,
        Next::Value(_, _) => false,
        Next::End => false,
    }
}

/// Adds a report that is done, and gives what is read on.
fn close(alloc: Global, done: &mut Vec<Report>, draft: Draft) -> Result<Draft, ReadFail>
    requires { length done.old.items + 2 < 2 ^ 32 }
    ensures done { OnOk result (done.new.items ≡ done_behind done.old.items draft) }
    ensures draft { MatchResult result (λ read. read ≡ draft_behind done.old.items draft) (λ fail. fail ≡ ReadFail.Memory) }
{
    if is_head(draft.next) {
        let number = done.len() as u32 + 2;
        match done.push(draft.report) {
            Ok(()) => Ok(fresh(alloc, number)),
            Err(_) => Err(ReadFail::Memory),
        }
    } else {
        Ok(draft)
    }
}

/// Why a text isn't read because of a line.
fn fail_at(number: u32, fault: Fault) -> ReadFail
    ensures { result ≡ fail_at number fault }
{
    match fault {
        Fault::Refused(cause) => ReadFail::Refused(Refusal {
            line: number,
            cause,
        }),
        Fault::Memory => ReadFail::Memory,
    }
}

/// The end of the text: no line is begun, and no report is.
fn finish(
    done: Vec<Report>,
    draft: Draft,
    number: u32,
    rest: &[u8],
) -> Result<Vec<Report>, ReadFail>
    ensures { MatchResult result (λ reports. finish done.items draft number rest.now ≡ Ok reports.items)
        (FailOf (finish done.items draft number rest.now)) }
{
    if rest.is_empty() && is_head(draft.next) {
        Ok(done)
    } else {
        Err(ReadFail::Refused(Refusal {
            line: number,
            cause: Cause::ReportBad,
        }))
    }
}

/// The reports of a text with these names.
fn read_text(alloc: Global, tables: &Tables, text: &[u8]) -> Result<Vec<Report>, ReadFail>
    requires { length text.now < 2 ^ 32 - 1 }
    ensures { MatchResult result (λ reports. read_text tables.now text.now ≡ Ok reports.items) (FailOf (read_text tables.now text.now)) }
{
    let mut done = Vec::new(alloc);
    let mut draft = fresh(alloc, 1);
    let mut number: u32 = 1;
    let mut rest = text;
    while let Some((line, behind)) = next_line(rest) {
        match step(alloc, tables, draft, line) {
            Ok(read) => draft = close(alloc, &mut done, read)?,
            Err(fault) => return Err(fail_at(number, fault)),
        }
        rest = behind;
        number += 1;
    }
    finish(done, draft, number, rest)
}
