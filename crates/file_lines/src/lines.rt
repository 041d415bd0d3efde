//! The lines and fields of a text. A line ends at a line feed or at the end of the text; blanks are the space, the tab
//! and the carriage return; fields are the longest pieces without blanks.

/// What a line of a file is.
#[derive(Clone, Copy, Drop)]
pub enum Line<'a> {
    /// A comment, or without fields.
    Skipped,
    /// A header with its first word.
    Header(&'a [u8]),
    Data,
}

/// The line of a number, counted from 1, without its line feed, and whether the text ends with it. None where there is no
/// such line; behind the last line feed stands an empty one.
pub fn raw_line(text: &[u8], number: u32) -> Option<(&[u8], bool)> {
    let before = number.checked_sub(1)?;
    let mut lines = text.split(|byte| *byte == b'\n');
    let line = lines.nth(before as usize)?;
    Some((line, lines.next().is_none()))
}

/// The line of a number, counted from 1, without its end. None where there is no such line, and where it is empty.
pub fn numbered_line(text: &[u8], number: u32) -> Option<&[u8]> {
    let (line, _) = raw_line(text, number)?;
    let line = line.strip_suffix(b"\r").unwrap_or(line);
    if line.is_empty() { None } else { Some(line) }
}

/// Whether a byte is a blank.
pub fn is_blank(byte: u8) -> bool {
    matches!(byte, b' ' | b'\t' | b'\r')
}

/// How many fields a line has.
pub fn field_count(line: &[u8]) -> usize {
    line.split(|byte| is_blank(*byte))
        .filter(|field| !field.is_empty())
        .count()
}

/// The field of a line behind so many others.
pub fn field(line: &[u8], before: usize) -> Option<&[u8]> {
    line.split(|byte| is_blank(*byte))
        .filter(|field| !field.is_empty())
        .nth(before)
}

/// The last field of a line; empty where it has none.
pub fn end_field(line: &[u8]) -> &[u8] {
    line.split(|byte| is_blank(*byte))
        .filter(|field| !field.is_empty())
        .last()
        .unwrap_or(&[])
}

/// What a line is. A comment begins with `*`, a header with a byte that isn't a blank.
pub fn kind_of(line: &[u8]) -> Line<'_> {
    let (Some(first), Some(word)) = (line.first(), field(line, 0)) else {
        return Line::Skipped;
    };
    if *first == b'*' {
        Line::Skipped
    } else if is_blank(*first) {
        Line::Data
    } else {
        Line::Header(word)
    }
}
