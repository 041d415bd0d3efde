//! What was found, as text on its way to the sink.
ghost use Rattle.std.specs.Prelude.{◌≡◌, ℕ, List, IfOk, OnOk, length};
ghost use Rattle.std.specs.List.{flat_map};
ghost use Rattle.smps_io.specs.Faults.{RoseBy};
ghost use Rattle.smps_io.specs.Puts.{Appends, AppendsPrefix, SinkHasCause};
ghost use Rattle.script_checks.specs.Checked.{line_of};
ghost use Rattle.scen_defs.specs.Program.{content};
ghost use Rattle.report_text.specs.Shown.{program_text};
ghost use Rattle.smps_cli.specs.Found.{found_text};
ghost use Rattle.smps_cli.specs.Solved.{told_text};

use crate::found::Found;
use crate::make::summary_text;
use frac128::Memory;
use report_text::print_program;
use scen_defs::Program;
use script_checks::{Checked, print_checks};
use smps_io::{Sink, SinkFault, write_all};
use smps_session::Told;
use std::alloc::Global;
use value_measures::print_measures;

/// Appends the text of each report; no call of the sink takes parts of two, so that a fault behind one leaves it whole.
fn write_reports<R: Print, K: Sink>(rt: &R, sink: &mut K, tolds: &[Told]) -> Result<(), SinkFault>
    ensures all { OnOk result (Appends (K.written sink.old) (flat_map told_text tolds.now) (K.written sink.new)) }
    ensures counts { OnOk result (RoseBy (K.taken sink.old) (length (flat_map told_text tolds.now)) (K.taken sink.new)) }
    ensures prefix { AppendsPrefix (K.written sink.old) (flat_map told_text tolds.now) (K.written sink.new) }
    ensures cause { SinkHasCause (K.faults sink.old) (K.faults sink.new) result }
{
    for told in tolds {
        write_all(rt, sink, &told.text)?;
    }
    Ok(())
}

/// The lines of checks.
fn lines(alloc: Global, checks: &[Checked]) -> Result<Vec<u8>, Memory>
    ensures { IfOk result (λ text. text.items ≡ flat_map line_of checks.now) }
{
    let mut text = Vec::new(alloc);
    print_checks(alloc, checks, &mut text)?;
    Ok(text)
}

/// The text of a program.
fn shown_text(alloc: Global, program: &Program) -> Result<Vec<u8>, Memory>
    ensures { IfOk result (λ text. text.items ≡ program_text (content program.now)) }
{
    let mut text = Vec::new(alloc);
    print_program(alloc, program, &mut text)?;
    Ok(text)
}

/// Appends a text, if memory wasn't wanting for it.
fn write_made<R: Print, K: Sink>(
    rt: &R,
    sink: &mut K,
    made: Result<Vec<u8>, Memory>,
) -> Result<(), SinkFault>
    ensures all { (bytes : List ℕ) → IfOk made (λ text. text.items ≡ bytes)
        → OnOk result (Appends (K.written sink.old) bytes (K.written sink.new)) }
    ensures counts { (bytes : List ℕ) → IfOk made (λ text. text.items ≡ bytes)
        → OnOk result (RoseBy (K.taken sink.old) (length bytes) (K.taken sink.new)) }
    ensures prefix { (bytes : List ℕ) → IfOk made (λ text. text.items ≡ bytes)
        → AppendsPrefix (K.written sink.old) bytes (K.written sink.new) }
    ensures cause { SinkHasCause (K.faults sink.old) (K.faults sink.new) result }
{
    match made {
        Ok(text) => write_all(rt, sink, &text),
        Err(Memory) => Err(SinkFault::Memory),
    }
}

/// Appends the whole text of what was found. After a fault a prefix of it was appended.
pub(crate) fn write_found<R: Print, K: Sink>(
    rt: &R,
    alloc: Global,
    sink: &mut K,
    found: &Found,
) -> Result<(), SinkFault>
    ensures all { OnOk result (Appends (K.written sink.old) (found_text found.now) (K.written sink.new)) }
    ensures counts { OnOk result (RoseBy (K.taken sink.old) (length (found_text found.now)) (K.taken sink.new)) }
    ensures prefix { AppendsPrefix (K.written sink.old) (found_text found.now) (K.written sink.new) }
    ensures cause { SinkHasCause (K.faults sink.old) (K.faults sink.new) result }
{
    match found {
        Found::Reports(tolds) | Found::Together(tolds) | Found::WithoutBasis(tolds) =>
            write_reports(rt, sink, tolds),
        Found::Checks(checks) => write_made(rt, sink, lines(alloc, &checks.checks)),
        Found::Shown(program) => write_made(rt, sink, shown_text(alloc, program)),
        Found::Measures(measures) | Found::MeasuredTogether(measures) => write_made(
            rt,
            sink,
            print_measures(alloc, measures),
        ),
        Found::Summary(summary) => write_made(rt, sink, summary_text(alloc, summary)),
        Found::Unproved(_) => write_all(rt, sink, &[]),
        Found::Lacking(lack) => write_all(rt, sink, &lack.line),
        Found::Table(text) | Found::Flat(text) | Found::Page(text) | Found::Nothing(text) =>
            write_all(rt, sink, text),
    }
}
