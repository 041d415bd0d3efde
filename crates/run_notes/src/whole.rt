//! What standard error says of reports that were found by solving the whole program at once.
use exit_status::is_open;
use scen_defs::Finding;
use smps_cli::{Measures, PrintedReport, Told};
use std::alloc::AllocError;
use std::fmt::Write;

/// So many numbers are named, and the other reports counted.
const NAMED: u64 = 3;

const FOUND_SO: &str =
    ": found by solving the whole program at once, after the method had stopped: \
a result didn't fit into 128 bits, or its solves or the pivots of a solve had ended\n";

const ENDS_SO: &str =
    ": the ends are those of a policy and of multipliers near the best ones, found by solving all nodes together, \
after the method had stopped\n";

/// How reports were found that a claim about the whole program tells.
#[derive(Clone, Copy, Debug, PartialEq, Eq)]
enum Way {
    /// They answer the question.
    Answered,
    /// They are open, and have such ends.
    Open,
}

const WAYS: [Way; 2] = [Way::Open, Way::Answered];

impl Way {
    fn of(finding: Finding) -> Way {
        if is_open(finding) {
            Way::Open
        } else {
            Way::Answered
        }
    }

    /// What is said of such reports.
    fn words(self) -> &'static str {
        match self {
            Way::Open => ENDS_SO,
            Way::Answered => FOUND_SO,
        }
    }

    /// Whether a report was found so.
    fn is_that_of(self, told: &Told) -> bool {
        told.by_whole && Way::of(told.finding) == self
    }

    /// Whether a report of `value` was found so.
    fn is_of_printed(self, printed: &PrintedReport) -> bool {
        printed.by_whole && Way::of(printed.report.finding) == self
    }
}

/// Appends which reports were found so; nothing where none was.
pub fn put_whole(text: &mut String, tolds: &[Told]) -> Result<(), AllocError> {
    for way in WAYS {
        put_way(text, tolds, way)?;
    }
    Ok(())
}

/// Appends which reports were found in one way.
fn put_way(text: &mut String, tolds: &[Told], way: Way) -> Result<(), AllocError> {
    let count = tolds.iter().filter(|told| way.is_that_of(told)).count() as u64;
    if count == 0 {
        return Ok(());
    }
    let word = if count == 1 { "report" } else { "reports" };
    write!(text, "tidzgheba: {word} ")?;
    put_numbers(text, tolds, way)?;
    if count > NAMED {
        let others = count - NAMED;
        write!(text, " and {others} more")?;
    }
    text.push_str(way.words())
}

/// Appends that the one report, of this finding, was found so.
pub fn put_only_whole(text: &mut String, finding: Finding) -> Result<(), AllocError> {
    text.push_str("tidzgheba: report 1")?;
    text.push_str(Way::of(finding).words())
}

/// Appends that some of the reports of `value` were found so; nothing where none was.
pub fn put_some_whole(text: &mut String, measures: &Measures) -> Result<(), AllocError> {
    for way in WAYS {
        if is_found_in(measures, way) {
            text.push_str("tidzgheba: some reports")?;
            text.push_str(way.words())?;
        }
    }
    Ok(())
}

/// Whether one of the reports of `value` was found in this way.
fn is_found_in(measures: &Measures, way: Way) -> bool {
    let of_scenarios = measures
        .scenarios
        .iter()
        .any(|scenario| way.is_of_printed(&scenario.printed));
    let of_means = matches!(&measures.means, Ok(printed) if way.is_of_printed(printed));
    let of_fixed = matches!(&measures.fixed, Some(printed) if way.is_of_printed(printed));
    way.is_of_printed(&measures.whole) || of_scenarios || of_means || of_fixed
}

/// Appends the numbers of the first ones, with commas.
fn put_numbers(text: &mut String, tolds: &[Told], way: Way) -> Result<(), AllocError> {
    let mut named = 0;
    for (before, told) in tolds.iter().enumerate() {
        if way.is_that_of(told) && named < NAMED {
            let comma = if named == 0 { "" } else { ", " };
            let number = (before as u64).saturating_add(1);
            write!(text, "{comma}{number}")?;
            named += 1;
        }
    }
    Ok(())
}
