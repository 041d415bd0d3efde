//! A report while its lines are read.
ghost use Rattle.std.specs.Prelude.{◌≡◌, [], is_some};
ghost use Rattle.report_defs.specs.Findings.{has_direction, has_ray, has_extra};
ghost use Rattle.report_reader.specs.Lines.{fresh, from_ray, from_dual, from_direction, from_policy, from_extra, behind, filed, listed};

use scen_defs::{Finding, Report, Values};
use std::alloc::Global;

/// A list of a report.
#[derive(Clone, Copy, Debug)]
pub(crate) enum ListKind {
    Policy,
    Direction,
    Dual,
    Ray,
}

/// The line that comes next.
#[derive(Clone, Copy, Debug)]
pub(crate) enum Next {
    /// The first line of a report.
    Head,
    /// The finding.
    Status,
    /// The lower end.
    Lower,
    /// The upper end.
    Upper,
    /// The value that shows the finding.
    Extra,
    /// The word and the count of a list.
    Count(ListKind),
    /// A number of a list, of which so many are left.
    Value(ListKind, u64),
    /// The last line of a report.
    End,
}

/// What the lines of a report so far say.
#[derive(Drop)]
pub(crate) struct Draft {
    pub report: Report,
    /// The numbers so far of the list that is read.
    pub list: Values,
    pub next: Next,
}

/// Nothing is read of the report with this number.
pub(crate) fn fresh(alloc: Global, number: u32) -> Draft
    ensures { result ≡ fresh number }
{
    let report = Report {
        number,
        nodes: 0,
        scenarios: 0,
        finding: Finding::Optimal,
        lower: None,
        upper: None,
        extra: None,
        policy: None,
        direction: None,
        dual: None,
        ray: None,
    };
    ahead(alloc, report, Next::Head)
}

/// A report of which this line comes next.
pub(crate) fn ahead(alloc: Global, report: Report, next: Next) -> Draft
    ensures { result ≡ record { report = report; list = []; next = next } }
{
    Draft {
        report,
        list: Values::empty(alloc),
        next,
    }
}

fn has_direction(finding: Finding) -> bool
    ensures { result ≡ has_direction finding }
{
    matches!(finding, Finding::Unbounded)
}

fn has_ray(finding: Finding) -> bool
    ensures { result ≡ has_ray finding }
{
    matches!(finding, Finding::Infeasible)
}

fn has_extra(finding: Finding) -> bool
    ensures { result ≡ has_extra finding }
{
    matches!(finding, Finding::Infeasible | Finding::Unbounded)
}

/// The ray's line where there is one, else the last.
fn from_ray(report: &Report) -> Next
    ensures { result ≡ from_ray report.now }
{
    if has_ray(report.finding) {
        Next::Count(ListKind::Ray)
    } else {
        Next::End
    }
}

/// The dual's line where there is one, else the next.
fn from_dual(report: &Report) -> Next
    ensures { result ≡ from_dual report.now }
{
    if report.lower.is_some() {
        Next::Count(ListKind::Dual)
    } else {
        from_ray(report)
    }
}

/// The direction's line where there is one, else the next.
fn from_direction(report: &Report) -> Next
    ensures { result ≡ from_direction report.now }
{
    if has_direction(report.finding) {
        Next::Count(ListKind::Direction)
    } else {
        from_dual(report)
    }
}

/// The policy's line where there is one, else the next.
pub(crate) fn from_policy(report: &Report) -> Next
    ensures { result ≡ from_policy report.now }
{
    if report.upper.is_some() {
        Next::Count(ListKind::Policy)
    } else {
        from_direction(report)
    }
}

/// The line of the value that shows the finding where there is one, else the next.
pub(crate) fn from_extra(report: &Report) -> Next
    ensures { result ≡ from_extra report.now }
{
    if has_extra(report.finding) {
        Next::Extra
    } else {
        from_policy(report)
    }
}

/// The line behind a list.
fn behind(kind: ListKind, report: &Report) -> Next
    ensures { result ≡ behind kind report.now }
{
    match kind {
        ListKind::Policy => from_direction(report),
        ListKind::Direction => from_dual(report),
        ListKind::Dual => from_ray(report),
        ListKind::Ray => Next::End,
    }
}

/// The report with a list.
fn filed(kind: ListKind, list: Values, report: Report) -> Report
    ensures { result ≡ filed kind list report }
{
    match kind {
        ListKind::Policy => Report {
            policy: Some(list),
            ..report
        },
        ListKind::Direction => Report {
            direction: Some(list),
            ..report
        },
        ListKind::Dual => Report {
            dual: Some(list),
            ..report
        },
        ListKind::Ray => Report {
            ray: Some(list),
            ..report
        },
    }
}

/// A list of which so many lines are left.
pub(crate) fn listed(
    alloc: Global,
    kind: ListKind,
    left: u64,
    list: Values,
    report: Report,
) -> Draft
    ensures { result ≡ listed kind left list report }
{
    if left == 0 {
        let next = behind(kind, &report);
        ahead(alloc, filed(kind, list, report), next)
    } else {
        Draft {
            report,
            list,
            next: Next::Value(kind, left),
        }
    }
}
