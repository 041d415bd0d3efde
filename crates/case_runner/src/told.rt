//! Whether a case holds, and what is told of one that doesn't.
use crate::runs::Came;
use case_texts::{Case, Want};
use frac128::Memory;
use std::alloc::{AllocError, Global};
use std::fmt::Write;
use visible_text::push_visible;

/// At most so many lines of a part are told.
const TOLD: usize = 60;

/// Whether a text has the lines in their order.
fn has_lines(text: &[u8], lines: &[u8]) -> bool {
    let lines = lines.strip_suffix(b"\n".as_slice()).unwrap_or(lines);
    let mut wanted = lines.split(|byte| *byte == b'\n');
    let mut next = wanted.next();
    for line in text.split(|byte| *byte == b'\n') {
        if next == Some(line) {
            next = wanted.next();
        }
    }
    next.is_none()
}

/// Whether a run left what is wanted.
fn is_met(want: &Want, came: &Came) -> bool {
    let text = came.part(want.part);
    if want.is_whole {
        text == want.bytes.as_slice()
    } else {
        has_lines(text, &want.bytes)
    }
}

/// How many lines two texts begin with that are the same.
fn same_lines(one: &[u8], other: &[u8]) -> usize {
    let mut count = 0usize;
    let mut others = other.split(|byte| *byte == b'\n');
    for line in one.split(|byte| *byte == b'\n') {
        if others.next() != Some(line) {
            return count;
        }
        count = count.saturating_add(1);
    }
    count
}

/// Appends lines, with a mark in front of the one with this number.
fn put_lines(text: &mut String, bytes: &[u8], marked: usize) -> Result<(), AllocError> {
    let mut number = 0usize;
    for line in bytes.split(|byte| *byte == b'\n') {
        if number == TOLD {
            return text.push_str("    and more\n");
        }
        text.push_str(if number == marked { "  > " } else { "    " })?;
        push_visible(text, line)?;
        text.push_str("\n")?;
        number = number.saturating_add(1);
    }
    Ok(())
}

/// Appends what was wanted of a part and what came.
fn put_unmet(text: &mut String, want: &Want, came: &Came) -> Result<(), AllocError> {
    let word = want.part.word();
    let came = came.part(want.part);
    let marked = if want.is_whole {
        same_lines(&want.bytes, came)
    } else {
        TOLD
    };
    let which = if want.is_whole { "" } else { " with the lines" };
    writeln!(text, "  {word} wanted{which}:")?;
    put_lines(text, &want.bytes, marked)?;
    writeln!(text, "  {word} that came:")?;
    put_lines(text, came, marked)
}

/// What is told of a case whose run came to this; nothing where it holds.
pub fn difference(alloc: Global, place: &str, case: &Case, came: &Came) -> Result<String, Memory> {
    let mut text = String::new(alloc);
    for want in &case.wants {
        if !is_met(want, came) {
            put_unmet(&mut text, want, came)?;
        }
    }
    if case.wants.is_empty() {
        text.push_str("  nothing is wanted of it\n")?;
    }
    if text.is_empty() {
        return Ok(text);
    }
    let section = case.section.as_str();
    let title = case.title.as_str();
    Ok(format!(in alloc; "{place}: {section}: {title}: doesn't hold\n{text}")?)
}
