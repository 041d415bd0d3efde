//! What standard error says of a run.
use crate::absent::put_absent;
use crate::based::put_without_basis;
use crate::checked::put_checked;
use crate::distance::put_distances;
use crate::help::{ask_help, put_help};
use crate::measured::put_measured;
use crate::partial::put_partial;
use crate::refusal::{file_start, put_refusal, put_too_long, put_unread};
use crate::reported::{put_made, put_reported};
use crate::sheets::{put_lack, put_unproved};
use crate::titles::put_titles;
use crate::whole::{put_only_whole, put_some_whole, put_whole};
use crate::words::put_word_fault;
use input_files::FileKind;
use line_notes::{put_divided, put_doubts, put_most_digits, put_unused};
use smps_cli::{Fetched, Found, Ran, Status, Told};
use std::alloc::{AllocError, Global};
use std::fs::Files;

const NO_COMMAND: &str = "tidzgheba: the words aren't those of a command: ";

const UNWRITTEN: &str =
    "tidzgheba: standard output could not be written; what was printed is only a part of the output\n";

/// What standard error says where memory was wanting.
pub const MEMORY: &str =
    "tidzgheba: memory ran out; what was printed, if anything, is only a part of the output\n";

/// What standard error says where memory was wanting only for an explanation.
pub const UNEXPLAINED: &str = "tidzgheba: memory ran out before the status could be explained\n";

/// What standard error says where a word isn't UTF-8.
pub const NOT_TEXT: &str =
    "tidzgheba: a word isn't UTF-8, so the words aren't those of a command\n";

/// What standard error says of how a run of the words ended; empty where the output says all.
pub fn explanation<R: Files>(
    rt: &R,
    alloc: Global,
    words: &[String],
    ran: &Ran,
) -> Result<String, AllocError> {
    let mut text = String::new(alloc);
    match ran.status {
        Status::Words if ask_help(words) => put_help(&mut text, words)?,
        Status::Words => {
            text.push_str(NO_COMMAND)?;
            put_word_fault(alloc, &mut text, words)?;
        }
        Status::WriteFault => text.push_str(UNWRITTEN)?,
        Status::Memory => text.push_str(MEMORY)?,
        status => put_result(rt, alloc, &mut text, status, ran)?,
    }
    Ok(text)
}

/// Appends what is said of a run that came to its result; nothing of one that takes no files and found nothing, which never comes.
fn put_result<R: Files>(
    rt: &R,
    alloc: Global,
    text: &mut String,
    status: Status,
    ran: &Ran,
) -> Result<(), AllocError> {
    match &ran.fetched {
        Some(fetched) => put_on_files(rt, alloc, text, status, &ran.found, fetched),
        None => put_without_files(alloc, text, &ran.found),
    }
}

/// Appends what is said of a task on files.
fn put_on_files<R: Files>(
    rt: &R,
    alloc: Global,
    text: &mut String,
    status: Status,
    found: &Found,
    fetched: &Fetched,
) -> Result<(), AllocError> {
    match status {
        Status::Refused(file, line, cause) => match found {
            Found::Lacking(lack) => put_lack(text, fetched, line, lack),
            _ => put_refusal(alloc, text, fetched, file, line, cause),
        },
        Status::TooLong(file) => put_too_long(text, fetched, file),
        Status::ReadFault(file) => put_unread(rt, text, fetched, file),
        _ => put_found(alloc, text, found, fetched),
    }
}

/// Appends what is said of what a task on files found.
fn put_found(
    alloc: Global,
    text: &mut String,
    found: &Found,
    fetched: &Fetched,
) -> Result<(), AllocError> {
    match found {
        Found::Reports(tolds) => put_tolds(alloc, text, tolds, fetched),
        Found::WithoutBasis(tolds) => {
            put_without_basis(text, fetched)?;
            put_tolds(alloc, text, tolds, fetched)
        }
        Found::Checks(checks) => {
            put_checked(text, fetched, checks)?;
            put_skipped(alloc, text, fetched)
        }
        Found::Measures(measures) => {
            if put_measured(text, measures)? {
                put_long_numbers(alloc, text, fetched)?;
            }
            put_skipped(alloc, text, fetched)?;
            put_some_whole(text, measures)
        }
        Found::Unproved(check) => put_unproved(alloc, text, fetched, check),
        _ => put_skipped(alloc, text, fetched),
    }
}

/// Appends what is said of reports.
fn put_tolds(
    alloc: Global,
    text: &mut String,
    tolds: &[Told],
    fetched: &Fetched,
) -> Result<(), AllocError> {
    put_distances(alloc, text, tolds)?;
    put_whole(text, tolds)?;
    if put_reported(text, tolds)? {
        put_long_numbers(alloc, text, fetched)?;
    }
    put_skipped(alloc, text, fetched)
}

/// Appends what is said of lines of the core file that aren't used, and of what the files may mean otherwise than their writer thinks.
fn put_skipped(alloc: Global, text: &mut String, fetched: &Fetched) -> Result<(), AllocError> {
    let Some(core) = fetched.text(FileKind::Core) else {
        return Ok(());
    };
    let start = file_start(alloc, fetched, FileKind::Core)?;
    put_unused(text, start.as_str(), core)?;
    put_doubts(alloc, text, start.as_str(), core)?;
    put_titles(alloc, text, fetched, core)?;
    put_absent(alloc, text, fetched, core)?;
    match fetched.text(FileKind::Stoch) {
        Some(stoch) => put_cases(alloc, text, fetched, stoch),
        None => Ok(()),
    }
}

/// Appends what is said of the cases of a stoch file.
fn put_cases(
    alloc: Global,
    text: &mut String,
    fetched: &Fetched,
    stoch: &[u8],
) -> Result<(), AllocError> {
    let start = file_start(alloc, fetched, FileKind::Stoch)?;
    put_divided(alloc, text, start.as_str(), stoch)?;
    put_partial(alloc, text, start.as_str(), stoch)
}

/// Appends which numbers of the core file and of the stoch file have the most digits.
fn put_long_numbers(alloc: Global, text: &mut String, fetched: &Fetched) -> Result<(), AllocError> {
    for file in [FileKind::Core, FileKind::Stoch] {
        if let Some(bytes) = fetched.text(file) {
            let start = file_start(alloc, fetched, file)?;
            put_most_digits(text, start.as_str(), bytes)?;
        }
    }
    Ok(())
}

/// Appends what is said of a command that takes no files.
fn put_without_files(alloc: Global, text: &mut String, found: &Found) -> Result<(), AllocError> {
    match found {
        Found::Summary(summary) => {
            put_made(alloc, text, &summary.report)?;
            if summary.by_whole {
                put_only_whole(text, summary.report.finding)?;
            }
            Ok(())
        }
        _ => Ok(()),
    }
}
