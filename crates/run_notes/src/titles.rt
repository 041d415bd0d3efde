//! Names that the files have: those of the time file and of the stoch file beside that of the core file.
use crate::refusal::file_start;
use file_lines::{Line, field, kind_of};
use input_files::FileKind;
use smps_cli::Fetched;
use std::alloc::{AllocError, Global};
use std::fmt::Write;
use visible_text::push_line;

/// A name that a header of a file states, and the number of its line, counted from 1.
#[derive(Clone, Copy, Drop)]
struct Title<'a> {
    line: u64,
    name: &'a [u8],
}

/// The name that the header with this word states; none where there is no such header or no name behind it.
fn title_of<'a>(text: &'a [u8], header: &[u8]) -> Option<Title<'a>> {
    for (before, line) in text.split(|byte| *byte == b'\n').enumerate() {
        match kind_of(line) {
            Line::Header(word) if word == header => {
                let line_number = (before as u64).saturating_add(1);
                return Some(Title {
                    line: line_number,
                    name: field(line, 1)?,
                });
            }
            Line::Header(_) => return None,
            Line::Data | Line::Skipped => {}
        }
    }
    None
}

/// Appends which of the other files have another name than the core file.
pub fn put_titles(
    alloc: Global,
    text: &mut String,
    fetched: &Fetched,
    core: &[u8],
) -> Result<(), AllocError> {
    let Some(own) = title_of(core, b"NAME") else {
        return Ok(());
    };
    put_title(alloc, text, fetched, FileKind::Time, b"TIME", own)?;
    put_title(alloc, text, fetched, FileKind::Stoch, b"STOCH", own)
}

/// Appends that a file has another name than the core file, where it has one.
fn put_title(
    alloc: Global,
    text: &mut String,
    fetched: &Fetched,
    file: FileKind,
    header: &[u8],
    own: Title<'_>,
) -> Result<(), AllocError> {
    let Some(title) = title_of(fetched.text(file).unwrap_or(&[]), header) else {
        return Ok(());
    };
    if title.name == own.name {
        return Ok(());
    }
    let start = file_start(alloc, fetched, file)?;
    let line = title.line;
    text.push_str(start.as_str())?;
    write!(text, ", line {line}: the name '")?;
    push_line(text, title.name)?;
    text.push_str("' isn't that of the core file, '")?;
    push_line(text, own.name)?;
    text.push_str("'; the files may not belong together\n")
}
