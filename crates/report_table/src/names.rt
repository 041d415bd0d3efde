//! Names, which are any bytes without blanks, as texts.
use frac128::Memory;
use std::alloc::Global;
use unicode_width::{UnicodeWidthChar, UnicodeWidthStr};
use visible_text::push_visible;

/// A name as a text that can be shown: a byte that steers a terminal or isn't part of a character stands there as `\x1b`.
pub fn shown_name(alloc: Global, name: &[u8]) -> Result<String, Memory> {
    let mut text = String::new(alloc);
    push_visible(&mut text, name)?;
    Ok(text)
}

/// The beginning of a text that takes at most so many columns of a terminal.
fn front(text: &str, most: usize) -> &str {
    let mut used: usize = 0;
    for (place, character) in text.char_indices() {
        used = used.saturating_add(character.width().unwrap_or(0));
        if used > most {
            return text.get(..place).unwrap_or(text);
        }
    }
    text
}

/// A name as a text that takes at most so many columns of a terminal; three points end one that is cut.
pub fn short_name(alloc: Global, name: &[u8], most: usize) -> Result<String, Memory> {
    let whole = shown_name(alloc, name)?;
    if whole.as_str().width() <= most {
        return Ok(whole);
    }
    let mut text = String::from_str(alloc, front(whole.as_str(), most.saturating_sub(3)))?;
    text.push_str("...")?;
    Ok(text)
}
