//! Which number of a file has the most digits.
use file_lines::{Line, is_blank, kind_of};
use frac128::parse;
use std::alloc::AllocError;
use std::fmt::Write;
use visible_text::push_line;

/// A number of a file, where it stands, and how many digits it has.
#[derive(Clone, Copy, Drop)]
struct LongNumber<'a> {
    word: &'a [u8],
    /// The number of its line, counted from 1.
    line: u64,
    digits: usize,
}

/// So many digits of a number are nothing to speak of.
const FEW: usize = 2;

/// Appends which number of a file has the most digits behind this beginning, where it has more than two; the first of several.
pub fn put_most_digits(text: &mut String, start: &str, file: &[u8]) -> Result<(), AllocError> {
    let Some(longest) = longest_number(file) else {
        return Ok(());
    };
    let line = longest.line;
    let digits = longest.digits;
    text.push_str(start)?;
    write!(text, ", line {line}: '")?;
    push_line(text, longest.word)?;
    writeln!(
        text,
        "' has {digits} digits, and no number of the file has more"
    )
}

fn longest_number(file: &[u8]) -> Option<LongNumber<'_>> {
    let mut found: Option<LongNumber<'_>> = None;
    for (before, line) in file.split(|byte| *byte == b'\n').enumerate() {
        match kind_of(line) {
            Line::Header(b"ENDATA") => break,
            Line::Data => found = longest_of_line(found, line, (before as u64).saturating_add(1)),
            Line::Header(_) | Line::Skipped => {}
        }
    }
    found
}

/// The one with the most digits of a number and those of a line.
fn longest_of_line<'a>(
    so_far: Option<LongNumber<'a>>,
    line: &'a [u8],
    number: u64,
) -> Option<LongNumber<'a>> {
    let mut found = so_far;
    for word in line.split(|byte| is_blank(*byte)) {
        let digits = digit_count(word);
        let most = match found {
            Some(longest) => longest.digits,
            None => FEW,
        };
        if digits > most && parse(word).is_ok() {
            found = Some(LongNumber {
                word,
                line: number,
                digits,
            });
        }
    }
    found
}

/// How many digits a number has, of a fraction above and below together, without zeros in front and an exponent.
fn digit_count(word: &[u8]) -> usize {
    let mut count: usize = 0;
    let mut is_counted = false;
    for byte in word {
        match *byte {
            b'1'..=b'9' => is_counted = true,
            b'0' => {}
            b'.' | b'-' | b'+' => continue,
            b'/' => is_counted = false,
            _ => break,
        }
        if is_counted {
            count = count.saturating_add(1);
        }
    }
    count
}
