//! What is said of a run that goes on.

use decimals::{print_decimal, put_apart};
use frac128::{Frac, Memory};
use run_watch::Seen;
use scen_defs::Kind;
use std::alloc::Global;

/// What the method looks for at present.
fn aim(kind: Kind) -> &'static str {
    match kind {
        Kind::Feasible => "looking for a policy",
        Kind::Recession => "testing whether the cost can fall for ever",
        Kind::Cost => "looking for the least cost",
    }
}

/// Appends a number as a decimal.
fn put_number(alloc: Global, value: Frac, line: &mut String) -> Result<(), Memory> {
    let mut digits = Vec::new(alloc);
    print_decimal(alloc, value, &mut digits)?;
    for digit in &digits {
        line.push(char::from(*digit))?;
    }
    Ok(())
}

/// Appends where the least cost lies.
fn put_ends(alloc: Global, seen: &Seen, line: &mut String) -> Result<(), Memory> {
    match (seen.lower, seen.upper) {
        (Some(lower), Some(upper)) => {
            line.push_str("; it lies from ")?;
            put_number(alloc, lower, line)?;
            line.push_str(" to ")?;
            put_number(alloc, upper, line)?;
            line.push_str(", ")?;
            put_apart(alloc, lower, upper, line)?;
            line.push_str(" apart")?;
        }
        (Some(lower), None) => {
            line.push_str("; it is at least ")?;
            put_number(alloc, lower, line)?;
        }
        (None, Some(upper)) => {
            line.push_str("; a policy costs ")?;
            put_number(alloc, upper, line)?;
        }
        (None, None) => {}
    }
    Ok(())
}

/// Appends which round it is, how many nodes wait, how many solves there were, and how many workers there are where it isn't one.
fn put_work(alloc: Global, seen: &Seen, workers: u32, line: &mut String) -> Result<(), Memory> {
    let round = seen.round;
    let waiting = seen.waiting;
    let solves = seen.solves;
    let wait = if waiting == 1 {
        "node waits"
    } else {
        "nodes wait"
    };
    let text = format!(in alloc; " (round {round}, {waiting} {wait}, {solves} solves")?;
    line.push_str(text.as_str())?;
    if workers > 1 {
        let text = format!(in alloc; ", {workers} workers")?;
        line.push_str(text.as_str())?;
    }
    line.push_str(")")?;
    Ok(())
}

/// The start of a line.
fn started(alloc: Global, seconds: u64) -> Result<String, Memory> {
    let text = format!(in alloc; "tidzgheba: {seconds} s: ")?;
    Ok(text)
}

/// What is said of the nested method after so many seconds, with so many workers.
pub fn seen_line(alloc: Global, seconds: u64, seen: Seen, workers: u32) -> Result<String, Memory> {
    let mut line = started(alloc, seconds)?;
    line.push_str(aim(seen.kind))?;
    put_work(alloc, &seen, workers, &mut line)?;
    put_ends(alloc, &seen, &mut line)?;
    line.push_str("\n")?;
    Ok(line)
}

/// What is said where all nodes are solved together.
pub fn whole_line(alloc: Global, seconds: u64) -> Result<String, Memory> {
    let mut line = started(alloc, seconds)?;
    line.push_str("solving all nodes together\n")?;
    Ok(line)
}

/// What is said at the end.
pub fn ended_line(alloc: Global, seconds: u64) -> Result<String, Memory> {
    let mut line = started(alloc, seconds)?;
    line.push_str("done\n")?;
    Ok(line)
}
