//! What `value` printed, as a table shows it.
use report_values::Amount;
use scen_defs::{Finding, Report};
use value_reader::StatedMeasures;

/// One of the six numbers.
#[derive(Clone, Copy, Debug)]
pub struct MeasureLine {
    /// Its name.
    pub name: &'static str,
    /// What it is, in words.
    pub words: &'static str,
    pub amount: Amount,
}

/// A number that the file may not have.
fn line(name: &'static str, words: &'static str, amount: Amount) -> MeasureLine {
    MeasureLine {
        name,
        words,
        amount,
    }
}

/// The six numbers, in their order.
pub fn measure_lines(measures: &StatedMeasures) -> [MeasureLine; 6] {
    [
        line(
            "RP",
            "the least expected cost",
            Amount::of_end(measures.whole),
        ),
        line(
            "WS",
            "the expected cost of whoever knows what comes",
            Amount::of_end(measures.scenarios),
        ),
        line(
            "EV",
            "the least cost if all that is random came as its mean",
            Amount::of_end(measures.means),
        ),
        line(
            "EEV",
            "the least expected cost with the first decisions of EV",
            Amount::of_end(measures.fixed),
        ),
        line(
            "EVPI",
            "what it is worth, on average, to know what comes before anything is decided: RP - WS",
            Amount::of_end(measures.information),
        ),
        line(
            "VSS",
            "what it saves, on average, to plan for all that may come and not for the mean: EEV - RP",
            Amount::of_end(measures.model),
        ),
    ]
}

/// Whether RP is another number than the least cost of a report: then the numbers are of another program.
pub fn are_of_other_program(measures: &StatedMeasures, report: &Report) -> bool {
    matches!(report.finding, Finding::Optimal)
        && measures.whole.is_some()
        && measures.whole != report.lower
}
