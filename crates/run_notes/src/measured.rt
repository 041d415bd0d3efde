//! What standard error says of the measures of a program: why a number isn't there.
use crate::about::put_floats;
use crate::reported::put_opens;
use scen_defs::Finding;
use smps_cli::Measures;
use std::alloc::AllocError;
use std::fmt::Write;
use visible_text::push_name;

const PASSED: &str =
    "tidzgheba: PASSED names an operation whose result doesn't fit into 128 bits, so the numbers that rest on it are none; \
fewer significant digits in the data help\n";

/// Why a report tells no least cost; nothing where it does.
fn lack(finding: Finding) -> Option<&'static str> {
    match finding {
        Finding::Optimal => None,
        Finding::Infeasible => Some("INFEASIBLE"),
        Finding::Unbounded => Some("UNBOUNDED"),
        Finding::OpenSolves(_) | Finding::OpenPivots(_) | Finding::OpenPassed(_, _) => Some("OPEN"),
    }
}

/// Appends why each number of the reports isn't there, and a sentence for each kind of OPEN; whether an operation passed.
pub fn put_measured(text: &mut String, measures: &Measures) -> Result<bool, AllocError> {
    if let Some(word) = lack(measures.whole.report.finding) {
        writeln!(text, "tidzgheba: RP is none: the program is {word}")?;
    }
    put_scenarios(text, measures)?;
    put_means(text, measures)?;
    let passed = measures.numbers.passed.is_some();
    if passed {
        text.push_str(PASSED)?;
        put_floats(text, measures)?;
    }
    let open = put_opens(text, measures)?;
    Ok(passed || open)
}

/// Appends the first scenario by itself that has no least cost.
fn put_scenarios(text: &mut String, measures: &Measures) -> Result<(), AllocError> {
    for scenario in &measures.scenarios {
        if let Some(word) = lack(scenario.printed.report.finding) {
            text.push_str("tidzgheba: WS is none: by itself, scenario ")?;
            push_name(text, scenario.name.as_bytes())?;
            return writeln!(text, " is {word}");
        }
    }
    Ok(())
}

/// Appends why the means, or the program whose first period is decided as for them, have no least cost.
fn put_means(text: &mut String, measures: &Measures) -> Result<(), AllocError> {
    let Ok(means) = &measures.means else {
        return Ok(());
    };
    if let Some(word) = lack(means.report.finding) {
        return writeln!(
            text,
            "tidzgheba: EV and EEV are none: the program of the means is {word}"
        );
    }
    put_fixed(text, measures)
}

fn put_fixed(text: &mut String, measures: &Measures) -> Result<(), AllocError> {
    let Some(fixed) = &measures.fixed else {
        return Ok(());
    };
    match lack(fixed.report.finding) {
        Some(word) => writeln!(
            text,
            "tidzgheba: EEV is none: with the first period decided as for the means, the program is {word}"
        ),
        None => Ok(()),
    }
}
