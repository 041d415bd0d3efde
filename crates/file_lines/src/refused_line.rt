//! A line that is refused, and where it stands.
use crate::lines::{Line, field, field_count, kind_of, numbered_line};

/// A line that is refused, and where it stands.
#[derive(Clone, Copy, Drop)]
pub struct RefusedLine<'a> {
    /// Its number, counted from 1.
    pub number: u32,
    pub line: &'a [u8],
    /// How many fields it has.
    pub count: usize,
    /// The first word of the last header before it; empty where there is none.
    pub section: &'a [u8],
}

impl<'a> RefusedLine<'a> {
    /// The line with this number of a text; none where there is no such line, and where it is empty.
    pub fn of(text: &'a [u8], number: u32) -> Option<RefusedLine<'a>> {
        let line = numbered_line(text, number)?;
        Some(RefusedLine {
            number,
            line,
            count: field_count(line),
            section: section_before(text, number),
        })
    }

    /// Whether it begins a case of a block or a scenario.
    pub fn begins_case(self) -> bool {
        match (self.section, field(self.line, 0), self.count) {
            (b"BLOCKS", Some(b"BL"), 4) | (b"SCENARIOS", Some(b"SC"), 5) => true,
            _ => false,
        }
    }
}

/// The first word of the last header before the line with this number; empty where there is none.
fn section_before(text: &[u8], number: u32) -> &[u8] {
    let mut section: &[u8] = &[];
    for (before, line) in text.split(|byte| *byte == b'\n').enumerate() {
        if (before as u64).saturating_add(1) >= number as u64 {
            break;
        }
        if let Line::Header(word) = kind_of(line) {
            section = word;
        }
    }
    section
}
