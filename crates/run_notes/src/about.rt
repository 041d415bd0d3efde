//! What standard error says of numbers of `value` whose exact sums pass 128 bits: what they come to by floats.
use decimals::float;
use frac128::Frac;
use scen_defs::{Finding, Report};
use smps_cli::{Measures, PrintedReport, ScenarioReport};
use std::alloc::AllocError;
use std::fmt::Write;

/// Floats are told to the millionth.
const MILLION: f64 = 1_000_000.0;

/// What stands before the first number.
const START: &str = "tidzgheba: by floats, so neither exact nor proved, ";

/// The least cost that a report tells.
fn least_cost(report: &Report) -> Option<f64> {
    match (report.finding, report.lower) {
        (Finding::Optimal, Some(cost)) => Some(float(cost)),
        _ => None,
    }
}

/// The mean of the least costs of the scenarios.
fn expected_cost(scenarios: &[ScenarioReport]) -> Option<f64> {
    let mut sum = 0.0;
    for scenario in scenarios {
        let cost = least_cost(&scenario.printed.report)?;
        sum += float(scenario.probability) * cost;
    }
    Some(sum)
}

/// The least cost of the program whose first period is decided as for the means.
fn cost_of_fixed(fixed: &Option<PrintedReport>) -> Option<f64> {
    match fixed {
        Some(printed) => least_cost(&printed.report),
        None => None,
    }
}

/// The one less the other.
fn surplus(one: Option<f64>, other: Option<f64>) -> Option<f64> {
    Some(one? - other?)
}

/// A float to the millionth; the zero that is added leaves a zero without a sign.
fn rounded(value: f64) -> f64 {
    (value * MILLION).round() / MILLION + 0.0
}

/// Appends, behind `start`, what a number comes to, where it isn't there exactly; whether it did.
fn put_about(
    text: &mut String,
    start: &str,
    name: &str,
    exact: Option<Frac>,
    about: Option<f64>,
) -> Result<bool, AllocError> {
    match (exact, about) {
        (None, Some(about)) => {
            let value = rounded(about);
            write!(text, "{start}{name} is about {value}")?;
            Ok(true)
        }
        _ => Ok(false),
    }
}

/// Appends what WS, EVPI and VSS come to by floats, where all reports that they rest on are OPTIMAL and an exact sum passes.
pub fn put_floats(text: &mut String, measures: &Measures) -> Result<(), AllocError> {
    let numbers = &measures.numbers;
    let whole = least_cost(&measures.whole.report);
    let expected = expected_cost(&measures.scenarios);
    let fixed = cost_of_fixed(&measures.fixed);
    let rows = [
        ("WS", numbers.scenarios, expected),
        ("EVPI", numbers.information, surplus(whole, expected)),
        ("VSS", numbers.model, surplus(fixed, whole)),
    ];
    let mut start = START;
    for (name, exact, about) in rows {
        if put_about(text, start, name, exact, about)? {
            start = ", ";
        }
    }
    if start != START {
        text.push_str("\n")?;
    }
    Ok(())
}
