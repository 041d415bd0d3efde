//! What each line says.
use crate::fault::Fault;
use crate::numbers::{Costs, number_behind};
use std::alloc::Global;

/// Of which program a report is.
#[derive(Clone, Copy, Debug)]
pub(crate) enum Reported {
    Whole,
    Scenario,
    Means,
    Fixed,
}

/// Which line comes next.
#[derive(Clone, Copy, Debug)]
pub(crate) enum Next {
    /// The first one.
    First,
    /// A line of a report.
    Report(Reported),
    /// What stands behind a report.
    Behind(Reported),
    Scenarios,
    Means,
    Fixed,
    Information,
    Model,
    /// The operation that passed, if one did, or the last line.
    Passed,
    /// The last line.
    End,
    /// No further line.
    Nothing,
}

/// What is read.
#[derive(Clone, Copy, Debug)]
pub(crate) struct Draft {
    pub(crate) costs: Costs,
    pub(crate) next: Next,
}

/// Of which program the report behind this line is, where it may stand behind that of the other one.
fn headed(line: &[u8], behind: Reported) -> Option<Reported> {
    let word = line.strip_prefix(b"PROGRAM ")?;
    match behind {
        Reported::Whole | Reported::Scenario if word.starts_with(b"WS ") => Some(
            Reported::Scenario,
        ),
        Reported::Scenario if word == b"EV".as_slice() => Some(Reported::Means),
        Reported::Means if word == b"EEV".as_slice() => Some(Reported::Fixed),
        _ => None,
    }
}

/// What stands behind a report: that of another program, or the first number.
fn behind(alloc: Global, costs: Costs, reported: Reported, line: &[u8]) -> Result<Draft, Fault> {
    if let Some(other) = headed(line, reported) {
        return Ok(Draft {
            costs,
            next: Next::Report(other),
        });
    }
    if matches!(reported, Reported::Whole) {
        return Err(Fault::Other);
    }
    let whole = number_behind(alloc, line, b"RP ")?;
    Ok(Draft {
        costs: Costs { whole, ..costs },
        next: Next::Scenarios,
    })
}

/// The same costs, and which line comes next, where this one is as it has to be.
fn follows(costs: Costs, is_so: bool, next: Next) -> Result<Draft, Fault> {
    if is_so {
        Ok(Draft { costs, next })
    } else {
        Err(Fault::Other)
    }
}

/// A line of a number that isn't a difference.
fn cost_line(alloc: Global, costs: Costs, next: Next, line: &[u8]) -> Result<Draft, Fault> {
    match next {
        Next::Scenarios => {
            let scenarios = number_behind(alloc, line, b"WS ")?;
            follows(Costs { scenarios, ..costs }, true, Next::Means)
        }
        Next::Means => {
            let means = number_behind(alloc, line, b"EV ")?;
            follows(Costs { means, ..costs }, true, Next::Fixed)
        }
        _ => {
            let fixed = number_behind(alloc, line, b"EEV ")?;
            follows(Costs { fixed, ..costs }, true, Next::Information)
        }
    }
}

/// What is read behind a line.
pub(crate) fn step(alloc: Global, draft: &Draft, line: &[u8]) -> Result<Draft, Fault> {
    let costs = draft.costs;
    match draft.next {
        Next::First => follows(
            costs,
            line == b"PROGRAM RP".as_slice(),
            Next::Report(Reported::Whole),
        ),
        Next::Report(reported) if line == b"END".as_slice() => {
            follows(costs, true, Next::Behind(reported))
        }
        Next::Report(reported) => follows(costs, true, Next::Report(reported)),
        Next::Behind(reported) => behind(alloc, costs, reported, line),
        Next::Scenarios | Next::Means | Next::Fixed => cost_line(alloc, costs, draft.next, line),
        Next::Information => {
            let stated = number_behind(alloc, line, b"EVPI ")?;
            follows(costs, stated == costs.measures().information, Next::Model)
        }
        Next::Model => {
            let stated = number_behind(alloc, line, b"VSS ")?;
            follows(costs, stated == costs.measures().model, Next::Passed)
        }
        Next::Passed if line.starts_with(b"PASSED ") => follows(costs, true, Next::End),
        Next::Passed | Next::End => follows(costs, line == b"END".as_slice(), Next::Nothing),
        Next::Nothing => Err(Fault::Other),
    }
}
