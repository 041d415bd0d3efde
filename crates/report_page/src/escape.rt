//! Texts inside HTML.
use frac128::Memory;
use report_table::{short_name, shown_name};
use std::alloc::Global;

/// Appends a text that is HTML already.
pub(crate) fn put(out: &mut Vec<u8>, text: &str) -> Result<(), Memory> {
    out.extend_from_slice(text.as_bytes())?;
    Ok(())
}

/// What stands for a byte that would be HTML.
fn entity(byte: u8) -> Option<&'static str> {
    match byte {
        b'&' => Some("&amp;"),
        b'<' => Some("&lt;"),
        b'>' => Some("&gt;"),
        b'"' => Some("&quot;"),
        b'\'' => Some("&#39;"),
        _ => None,
    }
}

/// Appends a text as itself.
pub(crate) fn put_escaped(out: &mut Vec<u8>, text: &[u8]) -> Result<(), Memory> {
    for byte in text {
        match entity(*byte) {
            Some(text) => put(out, text)?,
            None => out.push(*byte)?,
        }
    }
    Ok(())
}

/// Appends a name as itself.
pub(crate) fn put_name(alloc: Global, out: &mut Vec<u8>, name: &[u8]) -> Result<(), Memory> {
    let shown = shown_name(alloc, name)?;
    put_escaped(out, shown.as_bytes())
}

/// Appends a name as itself, cut where it takes more than so many columns of a terminal.
pub(crate) fn put_short_name(
    alloc: Global,
    out: &mut Vec<u8>,
    name: &[u8],
    most: usize,
) -> Result<(), Memory> {
    let shown = short_name(alloc, name, most)?;
    put_escaped(out, shown.as_bytes())
}
