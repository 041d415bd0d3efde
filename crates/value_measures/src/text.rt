//! The text of measures.
ghost use Rattle.std.specs.Prelude.{◌≡◌, ◌++◌, ◌∷◌, [], IfOk, OnOk};
ghost use Rattle.std.specs.List.{flat_map};
ghost use Rattle.report_text.specs.Text.{end_text};
ghost use Rattle.value_measures.specs.Text.{fixed_text, headed_text, means_text, measures_text, number_text, numbers_text};
ghost use Rattle.value_measures.specs.Text.{passed_text, scenario_report_text};

use crate::measured::Measures;
use crate::numbers::ValueNumbers;
use crate::printed::{PrintedReport, ScenarioReport};
use frac128::{Frac, Memory, Passed, print};
use report_text::print_operation;
use std::alloc::Global;

/// Appends the bytes.
fn put(out: &mut Vec<u8>, bytes: &[u8]) -> Result<(), Memory>
    ensures { OnOk result (out.new.items ≡ out.old.items ++ bytes.now) }
{
    out.extend_from_slice(bytes)?;
    Ok(())
}

/// Appends a line, and a report.
fn put_headed(out: &mut Vec<u8>, line: &[u8], printed: &PrintedReport) -> Result<(), Memory>
    ensures { OnOk result (out.new.items ≡ out.old.items ++ headed_text line.now printed.now) }
{
    put(out, line)?;
    put(out, b"\n")?;
    put(out, &printed.text)
}

/// Appends the report of a scenario.
#[tactic(auto, unfolding(crate::specs::Text::scenario_report_text))]
fn put_scenario(out: &mut Vec<u8>, scenario: &ScenarioReport) -> Result<(), Memory>
    ensures { OnOk result (out.new.items ≡ out.old.items ++ scenario_report_text scenario.now) }
{
    put(out, b"PROGRAM WS ")?;
    put(out, scenario.name.as_bytes())?;
    put(out, b"\n")?;
    put(out, &scenario.printed.text)
}

/// Appends those of all scenarios.
fn put_scenarios(out: &mut Vec<u8>, scenarios: &[ScenarioReport]) -> Result<(), Memory>
    ensures { OnOk result (out.new.items ≡ out.old.items ++ flat_map scenario_report_text scenarios.now) }
{
    for scenario in scenarios {
        put_scenario(out, scenario)?;
    }
    Ok(())
}

/// Appends the report of the means, where it is there.
fn put_means(out: &mut Vec<u8>, means: &Result<PrintedReport, Passed>) -> Result<(), Memory>
    ensures { OnOk result (out.new.items ≡ out.old.items ++ means_text means.now) }
{
    match means {
        Ok(printed) => put_headed(out, b"PROGRAM EV", printed),
        Err(_) => Ok(()),
    }
}

/// Appends the report with a fixed first period, where it is there.
fn put_fixed(out: &mut Vec<u8>, fixed: &Option<PrintedReport>) -> Result<(), Memory>
    ensures { OnOk result (out.new.items ≡ out.old.items ++ fixed_text fixed.now) }
{
    match fixed {
        Some(printed) => put_headed(out, b"PROGRAM EEV", printed),
        None => Ok(()),
    }
}

/// Appends a number, or none.
fn put_value(alloc: Global, out: &mut Vec<u8>, value: Option<Frac>) -> Result<(), Memory>
    ensures { OnOk result (out.new.items ≡ out.old.items ++ end_text value) }
{
    match value {
        Some(value) => print(alloc, value, out),
        None => put(out, b"none"),
    }
}

/// Appends the line of a number.
fn put_number(
    alloc: Global,
    out: &mut Vec<u8>,
    word: &[u8],
    value: Option<Frac>,
) -> Result<(), Memory>
    ensures { OnOk result (out.new.items ≡ out.old.items ++ number_text word.now value) }
{
    put(out, word)?;
    put_value(alloc, out, value)?;
    put(out, b"\n")
}

/// Appends the line of the operation that passed, where one did.
fn put_passed(alloc: Global, out: &mut Vec<u8>, passed: Option<Passed>) -> Result<(), Memory>
    ensures { OnOk result (out.new.items ≡ out.old.items ++ passed_text passed) }
{
    let Some(passed) = passed else {
        return Ok(());
    };
    put(out, b"PASSED ")?;
    print_operation(alloc, passed, out)?;
    put(out, b"\n")
}

/// Appends the lines of all numbers.
fn put_numbers(alloc: Global, out: &mut Vec<u8>, numbers: &ValueNumbers) -> Result<(), Memory>
    ensures { OnOk result (out.new.items ≡ out.old.items ++ numbers_text numbers.now) }
{
    put_number(alloc, out, b"RP ", numbers.whole)?;
    put_number(alloc, out, b"WS ", numbers.scenarios)?;
    put_number(alloc, out, b"EV ", numbers.means)?;
    put_number(alloc, out, b"EEV ", numbers.fixed)?;
    put_number(alloc, out, b"EVPI ", numbers.information)?;
    put_number(alloc, out, b"VSS ", numbers.model)?;
    put_passed(alloc, out, numbers.passed)
}

/// The text of measures: each report behind a line that says of which program it is; the six numbers, `none` for one that isn't there; the
/// operation that passed, where one did; and `END`.
pub fn print_measures(alloc: Global, measures: &Measures) -> Result<Vec<u8>, Memory>
    ensures { IfOk result (λ text. text.items ≡ measures_text measures.now) }
{
    let mut text = Vec::new(alloc);
    put_headed(&mut text, b"PROGRAM RP", &measures.whole)?;
    put_scenarios(&mut text, &measures.scenarios)?;
    put_means(&mut text, &measures.means)?;
    put_fixed(&mut text, &measures.fixed)?;
    put_numbers(alloc, &mut text, &measures.numbers)?;
    put(&mut text, b"END\n")?;
    Ok(text)
}
