//! What standard error says of a file that is refused or can't be read.
use crate::unread::why_unread;
use core_defs::Cause;
use file_lines::Bases;
use input_files::{FILE_LIMIT, FileKind};
use line_notes::{put_cause, sentence};
use smps_cli::Fetched;
use std::alloc::{AllocError, Global};
use std::fmt::Write;
use std::fs::Files;
use visible_text::push_name;

/// Appends what a message begins with: the program's name, and that of a file where the words have one.
pub fn put_file(text: &mut String, fetched: &Fetched, file: FileKind) -> Result<(), AllocError> {
    text.push_str("tidzgheba: ")?;
    let name = fetched.name(file).unwrap_or("a file");
    push_name(text, name.as_bytes())
}

/// What a message of a file begins with.
pub fn file_start(alloc: Global, fetched: &Fetched, file: FileKind) -> Result<String, AllocError> {
    let mut start = String::new(alloc);
    put_file(&mut start, fetched, file)?;
    Ok(start)
}

/// Appends where a file is refused and why, the line itself, and where the remedy stands. Line 0 is no line.
pub fn put_refusal(
    alloc: Global,
    text: &mut String,
    fetched: &Fetched,
    file: FileKind,
    line: u32,
    cause: Cause,
) -> Result<(), AllocError> {
    put_file(text, fetched, file)?;
    if line > 0 {
        write!(text, ", line {line}")?;
    }
    match fetched.text(file) {
        Some(bytes) => {
            let bases = bases_of(fetched);
            put_cause(alloc, text, file, bytes, bases, line, &cause)?;
        }
        None => {
            let sentence = sentence(file, cause);
            writeln!(text, ": {sentence}")?;
        }
    }
    let number = cause.number();
    writeln!(text, "docs/CAUSES.md, cause {number}, says how to mend it")
}

/// The texts of the files that others go with.
fn bases_of(fetched: &Fetched) -> Bases<'_> {
    Bases {
        core: fetched.text(FileKind::Core).unwrap_or(&[]),
        time: fetched.text(FileKind::Time).unwrap_or(&[]),
    }
}

/// Appends that a file is too long.
pub fn put_too_long(
    text: &mut String,
    fetched: &Fetched,
    file: FileKind,
) -> Result<(), AllocError> {
    put_file(text, fetched, file)?;
    let millions = FILE_LIMIT / 1_000_000;
    let thousands = FILE_LIMIT / 1_000 % 1_000;
    let ones = FILE_LIMIT % 1_000;
    writeln!(
        text,
        ": the file has more than {millions},{thousands:03},{ones:03} bytes, the most that is read"
    )?;
    text.push_str("docs/CAUSES.md, \"A file that is too long\", says how to mend it\n")
}

/// Appends why a file can't be read.
pub fn put_unread<R: Files>(
    rt: &R,
    text: &mut String,
    fetched: &Fetched,
    file: FileKind,
) -> Result<(), AllocError> {
    put_file(text, fetched, file)?;
    let reason = match fetched.name(file) {
        Some(name) => why_unread(rt, name),
        None => "reading it failed",
    };
    writeln!(text, ": {reason}")
}
