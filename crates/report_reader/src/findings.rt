//! The findings of a report.
ghost use Rattle.std.specs.Prelude.{◌≡◌, Ok, MatchResult};
ghost use Rattle.report_reader.specs.Answers.{Reads, FaultOf};
ghost use Rattle.report_reader.specs.Findings.{op_of, operation, passed_at, commit, passed_of, open_of, finding_of};

use crate::fault::Fault;
use crate::numbers::{count, fraction};
use crate::pieces::{after, field};
use core_defs::Cause;
use frac128::Passed;
use rationals::Op;
use scen_defs::{Finding, Place};
use std::alloc::Global;

/// The operation with this word.
fn op_of(word: &[u8]) -> Result<Op, Cause>
    ensures { result ≡ op_of word.now }
{
    if word == b"ADD".as_slice() {
        return Ok(Op::Add);
    }
    if word == b"SUB".as_slice() {
        return Ok(Op::Sub);
    }
    if word == b"MUL".as_slice() {
        return Ok(Op::Mul);
    }
    if word == b"DIV".as_slice() {
        return Ok(Op::Div);
    }
    Err(Cause::ReportBad)
}

/// An operation and its operands.
fn operation(alloc: Global, text: &[u8]) -> Result<Passed, Fault>
    ensures { Reads (operation text.now) result }
{
    let (word, operands) = field(text)?;
    let op = op_of(word)?;
    let (first, second) = field(operands)?;
    let a = fraction(alloc, first)?;
    let b = fraction(alloc, second)?;
    Ok(Passed { op, a, b })
}

/// The operation that passes at a place.
fn passed_at(alloc: Global, place: Place, text: &[u8]) -> Result<Finding, Fault>
    ensures { Reads (passed_at place text.now) result }
{
    match operation(alloc, text) {
        Ok(passed) => Ok(Finding::OpenPassed(place, passed)),
        Err(fault) => Err(fault),
    }
}

/// The number of a commit, and what follows it.
fn commit(alloc: Global, text: &[u8]) -> Result<(u64, &[u8]), Fault>
    ensures { MatchResult result (λ p. commit text.now ≡ Ok (p.0, p.1.now)) (FaultOf (commit text.now)) }
{
    let (number, rest) = field(text)?;
    let number = count(alloc, number)?;
    Ok((number, rest))
}

/// The operation that passes at the place with this word.
fn passed_of(alloc: Global, word: &[u8], text: &[u8]) -> Result<Finding, Fault>
    ensures { Reads (passed_of word.now text.now) result }
{
    if word == b"SOLVE".as_slice() {
        let (number, rest) = commit(alloc, text)?;
        return passed_at(alloc, Place::Solve(number), rest);
    }
    if word == b"CUT".as_slice() {
        let (number, rest) = commit(alloc, text)?;
        return passed_at(alloc, Place::Cut(number), rest);
    }
    if word == b"COST".as_slice() {
        let (number, rest) = commit(alloc, text)?;
        return passed_at(alloc, Place::Cost(number), rest);
    }
    if word == b"GROUND".as_slice() {
        return passed_at(alloc, Place::Ground, text);
    }
    if word == b"DUAL".as_slice() {
        return passed_at(alloc, Place::Dual, text);
    }
    Err(Fault::Refused(Cause::ReportBad))
}

/// Why a report is left open.
fn open_of(alloc: Global, word: &[u8], text: &[u8]) -> Result<Finding, Fault>
    ensures { Reads (open_of word.now text.now) result }
{
    if word == b"SOLVES".as_slice() {
        let solves = count(alloc, text)?;
        return Ok(Finding::OpenSolves(solves));
    }
    if word == b"PIVOTS".as_slice() {
        let commit = count(alloc, text)?;
        return Ok(Finding::OpenPivots(commit));
    }
    if word == b"PASSED".as_slice() {
        let (place, rest) = field(text)?;
        return passed_of(alloc, place, rest);
    }
    Err(Fault::Refused(Cause::ReportBad))
}

/// A finding.
pub(crate) fn finding_of(alloc: Global, text: &[u8]) -> Result<Finding, Fault>
    ensures { Reads (finding_of text.now) result }
{
    if text == b"OPTIMAL".as_slice() {
        return Ok(Finding::Optimal);
    }
    if text == b"INFEASIBLE".as_slice() {
        return Ok(Finding::Infeasible);
    }
    if text == b"UNBOUNDED".as_slice() {
        return Ok(Finding::Unbounded);
    }
    let why = after(text, b"OPEN ")?;
    let (word, rest) = field(why)?;
    open_of(alloc, word, rest)
}
