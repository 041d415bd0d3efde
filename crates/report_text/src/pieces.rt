//! Pieces of text, appended to a text.
ghost use Rattle.std.specs.Prelude.{◌≡◌, ◌++◌, OnOk};
ghost use Rattle.std.specs.Fmt.{decimal};
ghost use Rattle.frac128.specs.Text.{text_of};
ghost use Rattle.report_text.specs.Text.{op_text, place_text, operation_text, finding_text, end_text};

use frac128::{Frac, Memory, Passed, print};
use rationals::Op;
use scen_defs::{Finding, Place};
use std::alloc::Global;

/// Appends the bytes.
pub(crate) fn put(out: &mut Vec<u8>, bytes: &[u8]) -> Result<(), Memory>
    ensures { OnOk result (out.new.items ≡ out.old.items ++ bytes.now) }
{
    out.extend_from_slice(bytes)?;
    Ok(())
}

/// Appends a whole number.
pub(crate) fn put_count(alloc: Global, out: &mut Vec<u8>, count: u64) -> Result<(), Memory>
    ensures { OnOk result (out.new.items ≡ out.old.items ++ decimal count) }
{
    let text = format!(in alloc; "{count}")?;
    put(out, text.as_bytes())
}

fn op_word(op: Op) -> &'static [u8]
    ensures { result.now ≡ op_text op }
{
    match op {
        Op::Add => b"ADD",
        Op::Sub => b"SUB",
        Op::Mul => b"MUL",
        Op::Div => b"DIV",
    }
}

/// Appends a place; the number is that of a commit.
fn put_place(alloc: Global, out: &mut Vec<u8>, place: Place) -> Result<(), Memory>
    ensures { OnOk result (out.new.items ≡ out.old.items ++ place_text place) }
{
    match place {
        Place::Solve(commit) => put_numbered(alloc, out, b"SOLVE ", commit),
        Place::Cut(commit) => put_numbered(alloc, out, b"CUT ", commit),
        Place::Cost(commit) => put_numbered(alloc, out, b"COST ", commit),
        Place::Ground => put(out, b"GROUND"),
        Place::Dual => put(out, b"DUAL"),
        Place::Check => put(out, b"CHECK"),
    }
}

/// Appends a word and a whole number.
pub(crate) fn put_numbered(
    alloc: Global,
    out: &mut Vec<u8>,
    word: &[u8],
    number: u64,
) -> Result<(), Memory>
    ensures { OnOk result (out.new.items ≡ out.old.items ++ (word.now ++ decimal number)) }
{
    put(out, word)?;
    put_count(alloc, out, number)
}

/// Appends an operation and its operands, as `MUL 2 1/3`.
pub fn print_operation(alloc: Global, passed: Passed, out: &mut Vec<u8>) -> Result<(), Memory>
    ensures { OnOk result (out.new.items ≡ out.old.items ++ operation_text passed) }
{
    put(out, op_word(passed.op))?;
    put(out, b" ")?;
    print(alloc, passed.a, out)?;
    put(out, b" ")?;
    print(alloc, passed.b, out)
}

/// Appends a finding.
pub(crate) fn put_finding(alloc: Global, out: &mut Vec<u8>, finding: Finding) -> Result<(), Memory>
    ensures { OnOk result (out.new.items ≡ out.old.items ++ finding_text finding) }
{
    match finding {
        Finding::Optimal => put(out, b"OPTIMAL"),
        Finding::Infeasible => put(out, b"INFEASIBLE"),
        Finding::Unbounded => put(out, b"UNBOUNDED"),
        Finding::OpenSolves(solves) => put_numbered(alloc, out, b"OPEN SOLVES ", solves),
        Finding::OpenPivots(commit) => put_numbered(alloc, out, b"OPEN PIVOTS ", commit),
        Finding::OpenPassed(place, passed) => {
            put(out, b"OPEN PASSED ")?;
            put_place(alloc, out, place)?;
            put(out, b" ")?;
            print_operation(alloc, passed, out)
        }
    }
}

/// Appends an end of a report.
pub(crate) fn put_end(alloc: Global, out: &mut Vec<u8>, end: Option<Frac>) -> Result<(), Memory>
    ensures { OnOk result (out.new.items ≡ out.old.items ++ end_text end) }
{
    match end {
        None => put(out, b"none"),
        Some(value) => print(alloc, value, out),
    }
}
