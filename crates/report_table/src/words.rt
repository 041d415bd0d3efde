//! Findings in words.
use crate::numbers::put_count;
use frac128::{Memory, Passed, print};
use rationals::Op;
use scen_defs::{Finding, Place};
use std::alloc::Global;

/// The word of a finding, as in the report.
pub fn finding_word(finding: Finding) -> &'static str {
    match finding {
        Finding::Optimal => "OPTIMAL",
        Finding::Infeasible => "INFEASIBLE",
        Finding::Unbounded => "UNBOUNDED",
        Finding::OpenSolves(_) | Finding::OpenPivots(_) | Finding::OpenPassed(_, _) => "OPEN",
    }
}

/// Appends a text.
fn put(out: &mut Vec<u8>, text: &str) -> Result<(), Memory> {
    out.extend_from_slice(text.as_bytes())?;
    Ok(())
}

/// Appends where an operation stands.
fn put_place(alloc: Global, out: &mut Vec<u8>, place: Place) -> Result<(), Memory> {
    match place {
        Place::Solve(solve) => {
            put(out, "solve ")?;
            put_count(alloc, out, solve)
        }
        Place::Cut(solve) => {
            put(out, "the cut of solve ")?;
            put_count(alloc, out, solve)
        }
        Place::Cost(solve) => {
            put(out, "the cost after solve ")?;
            put_count(alloc, out, solve)
        }
        Place::Ground => put(out, "the cuts of a new run"),
        Place::Dual => put(out, "the multipliers"),
        Place::Check => put(out, "a check"),
    }
}

/// What the result of an operation is called.
fn result_word(op: Op) -> &'static str {
    match op {
        Op::Add => "the sum",
        Op::Sub => "the difference",
        Op::Mul => "the product",
        Op::Div => "the quotient",
    }
}

/// Appends an operation that passes 128 bits.
fn put_operation(
    alloc: Global,
    out: &mut Vec<u8>,
    place: Place,
    passed: Passed,
) -> Result<(), Memory> {
    put(out, "Left open: in ")?;
    put_place(alloc, out, place)?;
    put(out, " ")?;
    put(out, result_word(passed.op))?;
    put(out, " of ")?;
    print(alloc, passed.a, out)?;
    put(out, " and ")?;
    print(alloc, passed.b, out)?;
    put(out, " does not fit into 128 bits.")
}

/// Appends what a finding says, as a sentence.
pub fn print_finding(alloc: Global, out: &mut Vec<u8>, finding: Finding) -> Result<(), Memory> {
    match finding {
        Finding::Optimal => put(out, "No decisions cost less than these."),
        Finding::Infeasible => put(out, "No decisions keep all rows and bounds."),
        Finding::Unbounded => put(out, "The expected cost falls without end."),
        Finding::OpenSolves(solves) => {
            put(out, "Left open: ")?;
            put_count(alloc, out, solves)?;
            put(out, " solves did not suffice.")
        }
        Finding::OpenPivots(solve) => {
            put(
                out,
                "Left open: the pivots that were allowed did not suffice for solve ",
            )?;
            put_count(alloc, out, solve)?;
            put(out, ".")
        }
        Finding::OpenPassed(place, passed) => put_operation(alloc, out, place, passed),
    }
}
