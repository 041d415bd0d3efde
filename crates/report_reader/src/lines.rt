//! What each line of a report says.
ghost use Rattle.std.specs.Prelude.{◌≡◌, Ok};
ghost use Rattle.report_reader.specs.Answers.{Reads};
ghost use Rattle.report_reader.specs.Lines.{admit, head_line, status_line, lower_line, upper_line, extra_word, extra_line, list_word};
ghost use Rattle.report_reader.specs.Lines.{count_line, end_line, step};

use crate::draft::{Draft, ListKind, Next, ahead, from_extra, from_policy, listed};
use crate::fault::Fault;
use crate::findings::finding_of;
use crate::lists::value_line;
use crate::numbers::{count, end_of, fraction, small};
use crate::pieces::{after, field};
use crate::tables::{Tables, names_of};
use core_defs::Cause;
use scen_defs::{Finding, Report, Values};
use std::alloc::Global;

/// The number and the counts.
fn head_line(alloc: Global, report: Report, line: &[u8]) -> Result<Draft, Fault>
    ensures { Reads (head_line report line.now) result }
{
    let (number, rest) = field(after(line, b"REPORT ")?)?;
    let number = small(alloc, number)?;
    let (nodes, rest) = field(after(rest, b"NODES ")?)?;
    let nodes = small(alloc, nodes)?;
    let scenarios = small(alloc, after(rest, b"SCENARIOS ")?)?;
    if number == report.number {
        let report = Report {
            nodes,
            scenarios,
            ..report
        };
        Ok(ahead(alloc, report, Next::Status))
    } else {
        Err(Fault::Refused(Cause::ReportBad))
    }
}

/// The same, of so many reports at most.
fn begin(alloc: Global, most: u32, report: Report, line: &[u8]) -> Result<Draft, Fault>
    ensures { Reads (admit most report (head_line report line.now)) result }
{
    if most < report.number {
        Err(Fault::Refused(Cause::ReportBad))
    } else {
        head_line(alloc, report, line)
    }
}

fn status_line(alloc: Global, report: Report, line: &[u8]) -> Result<Draft, Fault>
    ensures { Reads (status_line report line.now) result }
{
    let finding = finding_of(alloc, after(line, b"STATUS ")?)?;
    let report = Report { finding, ..report };
    Ok(ahead(alloc, report, Next::Lower))
}

fn lower_line(alloc: Global, report: Report, line: &[u8]) -> Result<Draft, Fault>
    ensures { Reads (lower_line report line.now) result }
{
    let lower = end_of(alloc, after(line, b"LOWER ")?)?;
    let report = Report { lower, ..report };
    Ok(ahead(alloc, report, Next::Upper))
}

fn upper_line(alloc: Global, report: Report, line: &[u8]) -> Result<Draft, Fault>
    ensures { Reads (upper_line report line.now) result }
{
    let upper = end_of(alloc, after(line, b"UPPER ")?)?;
    let report = Report { upper, ..report };
    let next = from_extra(&report);
    Ok(ahead(alloc, report, next))
}

/// The word before the value that shows a finding.
fn extra_word(finding: Finding) -> &'static [u8]
    ensures { result.now ≡ extra_word finding }
{
    match finding {
        Finding::Infeasible => b"VALUE ",
        _ => b"SLOPE ",
    }
}

fn extra_line(alloc: Global, report: Report, line: &[u8]) -> Result<Draft, Fault>
    ensures { Reads (extra_line report line.now) result }
{
    let value = fraction(alloc, after(line, extra_word(report.finding))?)?;
    let next = from_policy(&report);
    let report = Report {
        extra: Some(value),
        ..report
    };
    Ok(ahead(alloc, report, next))
}

fn list_word(kind: ListKind) -> &'static [u8]
    ensures { result.now ≡ list_word kind }
{
    match kind {
        ListKind::Policy => b"POLICY ",
        ListKind::Direction => b"DIRECTION ",
        ListKind::Dual => b"DUAL ",
        ListKind::Ray => b"RAY ",
    }
}

/// The word and the count of a list.
fn count_line(alloc: Global, kind: ListKind, report: Report, line: &[u8]) -> Result<Draft, Fault>
    ensures { Reads (count_line kind report line.now) result }
{
    let left = count(alloc, after(line, list_word(kind))?)?;
    Ok(listed(alloc, kind, left, Values::empty(alloc), report))
}

/// The last line.
fn end_line(alloc: Global, report: Report, line: &[u8]) -> Result<Draft, Fault>
    ensures { Reads (end_line report line.now) result }
{
    if line == b"END".as_slice() {
        Ok(ahead(alloc, report, Next::Head))
    } else {
        Err(Fault::Refused(Cause::ReportBad))
    }
}

/// What is read behind a line.
pub(crate) fn step(
    alloc: Global,
    tables: &Tables,
    draft: Draft,
    line: &[u8],
) -> Result<Draft, Fault>
    ensures { Reads (step tables.now draft line.now) result }
{
    let Draft { report, list, next } = draft;
    match next {
        Next::Head => begin(alloc, tables.most, report, line),
        Next::Status => status_line(alloc, report, line),
        Next::Lower => lower_line(alloc, report, line),
        Next::Upper => upper_line(alloc, report, line),
        Next::Extra => extra_line(alloc, report, line),
        Next::Count(kind) => count_line(alloc, kind, report, line),
        Next::Value(kind, left) => {
            let list = value_line(alloc, names_of(tables, kind), list, line)?;
            Ok(listed(alloc, kind, left.saturating_sub(1), list, report))
        }
        Next::End => end_line(alloc, report, line),
    }
}
