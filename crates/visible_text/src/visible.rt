//! Bytes of a file as a terminal may show them.
use std::alloc::AllocError;
use std::fmt::Write;

/// At most so many bytes of a line are shown.
const SHOWN: usize = 200;

/// At most so many bytes of a file's name are shown: no system has longer ones.
const SHOWN_OF_NAME: usize = 4096;

/// Appends bytes so that no byte of a file steers a terminal: printable characters stay as they are, a control byte and
/// a byte that isn't part of well-formed UTF-8 are shown as `\x1b` or `\t`, a character that can't be seen as `\u{200b}`.
pub fn push_visible(text: &mut String, bytes: &[u8]) -> Result<(), AllocError> {
    for chunk in bytes.utf8_chunks() {
        push_characters(text, chunk.valid())?;
        write!(text, "{}", chunk.invalid().escape_ascii())?;
    }
    Ok(())
}

/// Appends the beginning of a line, and three points where it goes on behind 200 bytes.
pub fn push_line(text: &mut String, line: &[u8]) -> Result<(), AllocError> {
    push_start(text, line, SHOWN)
}

/// Appends the name of a file, and three points where it goes on behind 4,096 bytes.
pub fn push_name(text: &mut String, name: &[u8]) -> Result<(), AllocError> {
    push_start(text, name, SHOWN_OF_NAME)
}

/// Appends at most so many bytes, and three points where there are more.
fn push_start(text: &mut String, bytes: &[u8], most: usize) -> Result<(), AllocError> {
    match bytes.get(..most) {
        Some(start) if start.len() < bytes.len() => {
            push_visible(text, whole_characters(start))?;
            text.push_str("...")
        }
        _ => push_visible(text, bytes),
    }
}

/// Bytes without the part of a character that the end cuts off.
fn whole_characters(bytes: &[u8]) -> &[u8] {
    match std::str::from_utf8(bytes) {
        Err(error) if error.error_len().is_none() => &bytes[..error.valid_up_to()],
        _ => bytes,
    }
}

fn push_characters(text: &mut String, characters: &str) -> Result<(), AllocError> {
    for character in characters.chars() {
        push_character(text, character)?;
    }
    Ok(())
}

fn push_character(text: &mut String, character: char) -> Result<(), AllocError> {
    if !is_hidden(character) {
        return text.push(character);
    }
    match u8::try_from(character) {
        Ok(byte) if byte.is_ascii() => write!(text, "{}", byte.escape_ascii()),
        _ => write!(text, "{}", character.escape_unicode()),
    }
}

/// Whether a character steers a terminal or can't be seen: controls, marks of width 0 or of direction, byte order marks, fillers
/// and blanks that aren't spaces (what Unicode calls default ignorable, and the empty braille pattern).
fn is_hidden(character: char) -> bool {
    character.is_control()
        || matches!(
            character,
            '\u{ad}'
                | '\u{34f}'
                | '\u{61c}'
                | '\u{115f}'
                | '\u{1160}'
                | '\u{17b4}'
                | '\u{17b5}'
                | '\u{180b}'..='\u{180f}'
        )
        || matches!(
            character,
            '\u{200b}'..='\u{200f}' | '\u{2028}'..='\u{202e}' | '\u{2060}'..='\u{206f}' | '\u{2800}' | '\u{3164}'
        )
        || matches!(
            character,
            '\u{fe00}'..='\u{fe0f}' | '\u{feff}' | '\u{ffa0}' | '\u{fff0}'..='\u{fffb}' | '\u{e0000}'..='\u{e0fff}'
        )
        || matches!(character, '\u{1bca0}'..='\u{1bca3}' | '\u{1d173}'..='\u{1d17a}')
}
