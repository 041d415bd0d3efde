//! The text of a report.
ghost use Rattle.std.specs.Prelude.{◌≡◌, ◌++◌, OnOk, OnErr};
ghost use Rattle.report_text.specs.Text.{extra_text, head_text, outcome_text, ends_text, report_text};
ghost use Rattle.scen_defs.specs.Fits.{ListsHaveNames};

use crate::lists::put_lists;
use crate::pieces::{put, put_count, put_end, put_finding};
use frac128::{Frac, Memory, print};
use scen_defs::{Finding, Program, Report};
use std::alloc::Global;

/// Appends the text of a report. The names are those of the program; each index of a list is that of a
/// column or a row of it. After want of memory `out` is as before.
pub fn print_report(
    alloc: Global,
    program: &Program,
    report: &Report,
    out: &mut Vec<u8>,
) -> Result<(), Memory>
    requires { ListsHaveNames program.now report.now }
    ensures ok { OnOk result (out.new.items ≡ out.old.items ++ report_text program.now report.now) }
    ensures err { OnErr result (out.new.items ≡ out.old.items) }
{
    let mut text = Vec::new(alloc);
    put_head(alloc, &mut text, report)?;
    put_ends(alloc, &mut text, report)?;
    put_lists(alloc, &mut text, program, report)?;
    put(&mut text, b"END\n")?;
    out.extend_from_slice(&text)?;
    Ok(())
}

/// Appends the first line.
fn put_head(alloc: Global, out: &mut Vec<u8>, report: &Report) -> Result<(), Memory>
    ensures { OnOk result (out.new.items ≡ out.old.items ++ head_text report.now) }
{
    let number = report.number;
    let nodes = report.nodes;
    let scenarios = report.scenarios;
    put(out, b"REPORT ")?;
    put_count(alloc, out, u64::from(number))?;
    put(out, b" NODES ")?;
    put_count(alloc, out, u64::from(nodes))?;
    put(out, b" SCENARIOS ")?;
    put_count(alloc, out, u64::from(scenarios))?;
    put(out, b"\n")
}

/// Appends the finding and the ends of a report, a line each. After want of memory a part of them may be there.
pub fn print_outcome(alloc: Global, report: &Report, out: &mut Vec<u8>) -> Result<(), Memory>
    ensures { OnOk result (out.new.items ≡ out.old.items ++ outcome_text report.now) }
{
    put(out, b"STATUS ")?;
    put_finding(alloc, out, report.finding)?;
    put(out, b"\nLOWER ")?;
    put_end(alloc, out, report.lower)?;
    put(out, b"\nUPPER ")?;
    put_end(alloc, out, report.upper)?;
    put(out, b"\n")
}

/// Appends the finding, the ends, and the value that shows the finding.
fn put_ends(alloc: Global, out: &mut Vec<u8>, report: &Report) -> Result<(), Memory>
    ensures { OnOk result (out.new.items ≡ out.old.items ++ ends_text report.now) }
{
    print_outcome(alloc, report, out)?;
    put_extra(alloc, out, report.finding, report.extra)
}

/// Appends the line of the value that shows a finding.
fn put_extra(
    alloc: Global,
    out: &mut Vec<u8>,
    finding: Finding,
    extra: Option<Frac>,
) -> Result<(), Memory>
    ensures { OnOk result (out.new.items ≡ out.old.items ++ extra_text finding extra) }
{
    let Some(value) = extra else {
        return Ok(());
    };
    match finding {
        Finding::Infeasible => put(out, b"VALUE ")?,
        _ => put(out, b"SLOPE ")?,
    }
    print(alloc, value, out)?;
    put(out, b"\n")
}
