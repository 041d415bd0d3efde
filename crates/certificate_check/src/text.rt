//! The text of a verdict.
ghost use Rattle.std.specs.Prelude.{◌≡◌, ◌++◌, OnOk, OnErr};
ghost use Rattle.std.specs.Fmt.{decimal};
ghost use Rattle.certificate_check.specs.Text.{claim_text, outcome_text, verdict_text};

use crate::verdict::{Claim, Verdict};
use frac128::{Memory, Passed};
use report_text::print_operation;
use std::alloc::Global;

/// Appends the bytes.
fn put(out: &mut Vec<u8>, bytes: &[u8]) -> Result<(), Memory>
    ensures { OnOk result (out.new.items ≡ out.old.items ++ bytes.now) }
{
    out.extend_from_slice(bytes)?;
    Ok(())
}

/// Appends a whole number.
fn put_number(alloc: Global, out: &mut Vec<u8>, number: u32) -> Result<(), Memory>
    ensures { OnOk result (out.new.items ≡ out.old.items ++ decimal number) }
{
    let text = format!(in alloc; "{number}")?;
    put(out, text.as_bytes())
}

/// A claim in capital letters.
fn claim_word(claim: Claim) -> &'static [u8]
    ensures { result.now ≡ claim_text claim }
{
    match claim {
        Claim::Shape => b"SHAPE",
        Claim::Policy => b"POLICY",
        Claim::Cost => b"COST",
        Claim::Dual => b"DUAL",
        Claim::Lower => b"LOWER",
        Claim::Ends => b"ENDS",
        Claim::Ray => b"RAY",
        Claim::Value => b"VALUE",
        Claim::Direction => b"DIRECTION",
        Claim::Slope => b"SLOPE",
    }
}

/// Appends what a check comes to.
fn put_outcome(
    alloc: Global,
    out: &mut Vec<u8>,
    outcome: Result<Verdict, Passed>,
) -> Result<(), Memory>
    ensures { OnOk result (out.new.items ≡ out.old.items ++ outcome_text outcome) }
{
    match outcome {
        Ok(Verdict::Holds) => put(out, b"HOLDS"),
        Ok(Verdict::Fails(claim)) => {
            put(out, b"FAILS ")?;
            put(out, claim_word(claim))
        }
        Err(passed) => {
            put(out, b"PASSED ")?;
            print_operation(alloc, passed, out)
        }
    }
}

/// Appends the line of a report's number and what its check comes to, as `REPORT 1 HOLDS`, `REPORT 2 FAILS COST` or
/// `REPORT 3 PASSED MUL 2 1/3`. After want of memory `out` is as before.
pub fn print_verdict(
    alloc: Global,
    number: u32,
    outcome: Result<Verdict, Passed>,
    out: &mut Vec<u8>,
) -> Result<(), Memory>
    ensures ok { OnOk result (out.new.items ≡ out.old.items ++ verdict_text number outcome) }
    ensures err { OnErr result (out.new.items ≡ out.old.items) }
{
    let mut text = Vec::new(alloc);
    put(&mut text, b"REPORT ")?;
    put_number(alloc, &mut text, number)?;
    put(&mut text, b" ")?;
    put_outcome(alloc, &mut text, outcome)?;
    put(&mut text, b"\n")?;
    out.extend_from_slice(&text)?;
    Ok(())
}
