//! What standard error says of reports that are left open.
use crate::distance::put_distance;
use scen_defs::{Finding, Report};
use smps_cli::{Measures, Told};
use std::alloc::{AllocError, Global};

const OPEN_PASSED: &str =
    "tidzgheba: OPEN PASSED: the least cost isn't told exactly, since a result didn't fit into 128 bits; \
each end that is printed holds, and where they are near enough the printed policy can be used as it is; \
fewer significant digits in the data help, other units don't\n";

const OPEN_PIVOTS: &str =
    "tidzgheba: OPEN PIVOTS: the least cost isn't told exactly, since a solve came to the end of its pivots; \
each end that is printed holds; a greater --pivots may help\n";

const OPEN_SOLVES: &str =
    "tidzgheba: OPEN SOLVES: the least cost isn't told exactly, since the solves that were allowed have ended; \
each end that is printed holds; a greater --solves may help\n";

const MADE_OPEN: &str =
    "tidzgheba: make allows as much as solve does where its words don't say how much; to allow more, \
print the three texts with --text and solve them\n";

/// Which kinds of OPEN there are among some findings.
#[derive(Clone, Copy)]
struct Opens {
    passed: bool,
    pivots: bool,
    solves: bool,
}

impl Opens {
    fn none() -> Opens {
        Opens {
            passed: false,
            pivots: false,
            solves: false,
        }
    }

    /// With a further finding.
    fn with(self, finding: Finding) -> Opens {
        match finding {
            Finding::OpenPassed(_, _) => Opens {
                passed: true,
                ..self
            },
            Finding::OpenPivots(_) => Opens {
                pivots: true,
                ..self
            },
            Finding::OpenSolves(_) => Opens {
                solves: true,
                ..self
            },
            Finding::Optimal | Finding::Infeasible | Finding::Unbounded => self,
        }
    }

    /// Appends a sentence for each kind.
    fn put(self, text: &mut String) -> Result<(), AllocError> {
        if self.passed {
            text.push_str(OPEN_PASSED)?;
        }
        if self.pivots {
            text.push_str(OPEN_PIVOTS)?;
        }
        if self.solves {
            text.push_str(OPEN_SOLVES)?;
        }
        Ok(())
    }
}

/// Appends a sentence for each kind of OPEN among reports; whether a result didn't fit into 128 bits in one.
pub fn put_reported(text: &mut String, tolds: &[Told]) -> Result<bool, AllocError> {
    let mut opens = Opens::none();
    for told in tolds {
        opens = opens.with(told.finding);
    }
    opens.put(text)?;
    Ok(opens.passed)
}

/// Appends a sentence for each kind of OPEN among the reports of `value`; whether a result didn't fit into 128 bits in one.
pub fn put_opens(text: &mut String, measures: &Measures) -> Result<bool, AllocError> {
    let mut opens = Opens::none().with(measures.whole.report.finding);
    for scenario in &measures.scenarios {
        opens = opens.with(scenario.printed.report.finding);
    }
    if let Ok(printed) = &measures.means {
        opens = opens.with(printed.report.finding);
    }
    if let Some(printed) = &measures.fixed {
        opens = opens.with(printed.report.finding);
    }
    opens.put(text)?;
    Ok(opens.passed)
}

/// Appends what is said of the report of a workload.
pub fn put_made(alloc: Global, text: &mut String, report: &Report) -> Result<(), AllocError> {
    put_distance(alloc, text, 1, report.finding, report.lower, report.upper)?;
    let opens = Opens::none().with(report.finding);
    opens.put(text)?;
    if opens.pivots || opens.solves {
        text.push_str(MADE_OPEN)?;
    }
    Ok(())
}
