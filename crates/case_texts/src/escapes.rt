//! The lines of a block, in which a backslash says that a byte follows that can't stand in a text.
use crate::faults::Wrong;
use std::fmt::Write;

/// How much of an escape was read.
#[derive(Clone, Copy)]
enum Begun {
    Nothing,
    Backslash,
    /// `\x`.
    Hex,
    /// `\x` and a digit.
    Digit(u8),
}

/// The value of a hexadecimal digit.
fn digit(byte: u8) -> Result<u8, Wrong> {
    match byte {
        b'0'..=b'9' => Ok(byte - b'0'),
        b'a'..=b'f' => Ok(byte - b'a' + 10),
        _ => Err(Wrong::Said("behind \\x stand two digits, 0 to 9 or a to f")),
    }
}

/// Appends what the byte behind a backslash stands for; `count` is the number of the repetition.
fn put_escaped(bytes: &mut Vec<u8>, byte: u8, count: u64) -> Result<Begun, Wrong> {
    match byte {
        b't' => bytes.push(b'\t')?,
        b'r' => bytes.push(b'\r')?,
        b'n' => bytes.push(b'\n')?,
        b'\\' | b'.' => bytes.push(byte)?,
        b'#' => put_count(bytes, count)?,
        b'x' => return Ok(Begun::Hex),
        _ => {
            return Err(Wrong::Said(
                "behind a backslash stands t, r, n, x, #, a full stop or a backslash",
            ));
        }
    }
    Ok(Begun::Nothing)
}

/// Appends a number in digits.
fn put_count(bytes: &mut Vec<u8>, count: u64) -> Result<(), Wrong> {
    let mut digits = String::new(*bytes.allocator());
    write!(digits, "{count}")?;
    bytes.extend_from_slice(digits.as_bytes())?;
    Ok(())
}

/// Appends what a byte stands for.
fn put_byte(bytes: &mut Vec<u8>, begun: Begun, byte: u8, count: u64) -> Result<Begun, Wrong> {
    match begun {
        Begun::Nothing if byte == b'\\' => Ok(Begun::Backslash),
        Begun::Nothing => {
            bytes.push(byte)?;
            Ok(Begun::Nothing)
        }
        Begun::Backslash => put_escaped(bytes, byte, count),
        Begun::Hex => Ok(Begun::Digit(digit(byte)?)),
        Begun::Digit(high) => {
            bytes.push(high.wrapping_mul(16).wrapping_add(digit(byte)?))?;
            Ok(Begun::Nothing)
        }
    }
}

/// Appends what a piece of a line stands for. Whether it ends without a backslash.
fn put_piece(bytes: &mut Vec<u8>, piece: &str, count: u64) -> Result<bool, Wrong> {
    let mut begun = Begun::Nothing;
    for byte in piece.bytes() {
        begun = put_byte(bytes, begun, byte, count)?;
    }
    match begun {
        Begun::Nothing => Ok(true),
        Begun::Backslash => Ok(false),
        Begun::Hex | Begun::Digit(_) => Err(Wrong::Said("behind \\x stand two digits")),
    }
}

/// Appends what a piece of a line stands for.
pub fn put_unescaped(bytes: &mut Vec<u8>, piece: &str) -> Result<(), Wrong> {
    let _ = put_piece(bytes, piece, 0)?;
    Ok(())
}

/// Appends what a line stands for, and a line feed where it doesn't end with a backslash.
pub fn put_line(bytes: &mut Vec<u8>, line: &str, count: u64) -> Result<(), Wrong> {
    if put_piece(bytes, line, count)? {
        bytes.push(b'\n')?;
    }
    Ok(())
}
