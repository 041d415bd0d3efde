//! What standard error says of a check.
use crate::refusal::put_file;
use certificate_check::Verdict;
use input_files::FileKind;
use smps_cli::{Checks, Fetched};
use std::alloc::AllocError;
use std::fmt::Write;

const FAILS: &str =
    "tidzgheba: a report doesn't hold: FAILS names the first claim of it that isn't so; \
docs/FORMATS.md, \"Checking a report\", says what each claim is\n";

const PASSED: &str =
    "tidzgheba: whether a report holds isn't said: PASSED names an operation of the check whose result doesn't fit into 128 bits; \
fewer significant digits in the report or in the data help\n";

/// Appends what is said of reports that don't hold, of those of which it isn't said, and of those that are missing.
pub fn put_checked(text: &mut String, fetched: &Fetched, found: &Checks) -> Result<(), AllocError> {
    if found
        .checks
        .iter()
        .any(|check| matches!(check.outcome, Ok(Verdict::Fails(_))))
    {
        text.push_str(FAILS)?;
    }
    if found.checks.iter().any(|check| check.outcome.is_err()) {
        text.push_str(PASSED)?;
    }
    let stated = found.checks.len() as u64;
    if stated < found.asked as u64 {
        put_file(text, fetched, FileKind::Report)?;
        put_missing(text, stated, found.asked)?;
    }
    Ok(())
}

/// Appends that a file has so many reports alone.
fn put_missing(text: &mut String, stated: u64, asked: u32) -> Result<(), AllocError> {
    if stated == 0 {
        text.push_str(": no report is in the file, so nothing was checked\n")
    } else {
        writeln!(
            text,
            ": reports are missing: the edit list asks for {asked}, and those after number {stated} aren't in the file"
        )
    }
}
