//! What is said of lines of a core file that aren't used.
use crate::unused::{Section, Set, Unused, unused_lines};
use std::alloc::AllocError;
use std::fmt::Write;
use visible_text::push_line;

/// Appends a sentence for each section of the core file that has lines of another set than the one used, behind this beginning. The
/// file has been read without a fault.
pub fn put_unused(text: &mut String, start: &str, core: &[u8]) -> Result<(), AllocError> {
    for section in [Section::Rhs, Section::Ranges, Section::Bounds] {
        if let Some(unused) = unused_lines(core, section) {
            text.push_str(start)?;
            put_sentence(text, section, &unused)?;
        }
    }
    Ok(())
}

fn put_sentence(
    text: &mut String,
    section: Section,
    unused: &Unused<'_>,
) -> Result<(), AllocError> {
    let word = section.word();
    let line = unused.line;
    let count = unused.count;
    write!(text, ", line {line}: ")?;
    if count == 1 {
        write!(text, "one line of {word} isn't used; it has ")?;
    } else {
        write!(
            text,
            "{count} lines of {word} aren't used; this one, the first, has "
        )?;
    }
    put_set(text, unused.set)?;
    text.push_str(", and only lines with ")?;
    put_set(text, unused.used)?;
    text.push_str(" are used\n")
}

fn put_set(text: &mut String, set: Set<'_>) -> Result<(), AllocError> {
    match set.name {
        Some(name) => {
            text.push_str("the set ")?;
            push_line(text, name)
        }
        None => text.push_str("no set name"),
    }
}
