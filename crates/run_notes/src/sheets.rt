//! What standard error says where `table` prints no report.
use crate::refusal::put_file;
use certificate_check::print_verdict;
use core_defs::Cause;
use frac128::Memory;
use input_files::FileKind;
use smps_cli::{Checked, Fetched, Lack};
use std::alloc::{AllocError, Global};
use std::fmt::Write;
use visible_text::push_visible;

/// Appends what `check` prints of a report that isn't shown to hold.
pub fn put_unproved(
    alloc: Global,
    text: &mut String,
    fetched: &Fetched,
    check: &Checked,
) -> Result<(), AllocError> {
    let mut line = Vec::new(alloc);
    if let Err(Memory) = print_verdict(alloc, check.number, check.outcome, &mut line) {
        return Err(AllocError);
    }
    put_file(text, fetched, FileKind::Report)?;
    text.push_str(": nothing is printed of a report that isn't shown to hold; check says ")?;
    push_visible(text, line.strip_suffix(b"\n".as_slice()).unwrap_or(&line))?;
    text.push_str("\ndocs/FORMATS.md, \"Checking a report\", says what that is\n")
}

/// Appends that a file has only so many reports.
pub fn put_lack(
    text: &mut String,
    fetched: &Fetched,
    line: u32,
    lack: &Lack,
) -> Result<(), AllocError> {
    let count = lack.count;
    put_file(text, fetched, FileKind::Report)?;
    writeln!(
        text,
        ", line {line}: the report that is asked for isn't in the file, which has {count}"
    )?;
    let number = Cause::ReportBad.number();
    writeln!(text, "docs/CAUSES.md, cause {number}, says how to mend it")
}
