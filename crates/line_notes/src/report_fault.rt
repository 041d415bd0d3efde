//! What is wrong with a line of a report.
use file_lines::{end_field, raw_line};

const NO_END: &str = "the file ends there within a report, whose last line is END";

const NO_LINE_FEED: &str =
    "the file ends within that line: its line feed is missing, or the file is cut off";

const EMPTY: &str = "that line is empty, and a report has no empty lines";

const RETURN: &str =
    "that line has a carriage return, as lines of Windows do; lines of a report end with a line feed alone";

const BLANKS: &str =
    "fields of a report are separated by one space, with no blank before the first or after the last";

const DECIMAL: &str =
    "that line's number has a point or an exponent; a report has fractions in lowest terms, as 27/10";

const HEAD: &str =
    "no report begins so there: REPORT, its number, NODES, how many, SCENARIOS, how many, without zeros in front; \
the one before it ends with END, reports have the numbers 1, 2 and so on, \
and there is one for each SOLVE of the edit list, or one without a list";

const LISTED: &str =
    "no list has that line there: a list has as many lines as its count says, by node and then in the order of the core file, \
each with a node, a name of the core and a fraction in lowest terms that isn't 0";

const OTHER: &str =
    "a report has another line there: docs/FORMATS.md, \"Reports\", has its lines in their order; \
a list has as many lines as its count says, and numbers are fractions in lowest terms";

/// What is to be looked at where the line with this number isn't one that a report of the text has there.
pub fn report_fault(text: &[u8], number: u32) -> &'static str {
    let Some((line, is_last)) = raw_line(text, number) else {
        return NO_END;
    };
    match line {
        [] if is_last => NO_END,
        _ if is_last => NO_LINE_FEED,
        [] => EMPTY,
        _ if line.contains(&b'\r') => RETURN,
        _ if has_odd_blank(line) => BLANKS,
        _ if has_point(end_field(line)) => DECIMAL,
        [b'0'..=b'9', ..] => LISTED,
        _ if line.starts_with(b"REPORT") => HEAD,
        _ => OTHER,
    }
}

/// Whether fields of a line are separated by more than one space, or by another blank.
fn has_odd_blank(line: &[u8]) -> bool {
    line.split(|byte| *byte == b' ')
        .any(|field| field.is_empty() || field.contains(&b'\t'))
}

/// Whether a field is a number with a point or an exponent.
fn has_point(field: &[u8]) -> bool {
    matches!(field, [b'0'..=b'9' | b'-' | b'+' | b'.', ..])
        && field
            .iter()
            .any(|byte| matches!(byte, b'.' | b'E' | b'e' | b'D' | b'd'))
}
