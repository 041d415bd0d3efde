//! The examples of documents, which stand between two lines of three backquotes.
use crate::cases::{Case, Part};
use crate::faults::Wrong;
use std::alloc::Global;

/// What stands between an example and the line that is printed for it.
const PRINTS: &str = "\nprints `";

/// The text of a document.
fn text_of(document: &[u8]) -> Result<&str, Wrong> {
    match str::from_utf8(document) {
        Ok(text) => Ok(text),
        Err(_) => Err(Wrong::Said("the document isn't UTF-8")),
    }
}

/// The first block behind the first place of these words.
pub fn behind<'a>(document: &'a [u8], words: &[u8]) -> Result<&'a [u8], Wrong> {
    let Some((_, rest)) = text_of(document)?.split_once(text_of(words)?) else {
        return Err(Wrong::Said("the document hasn't those words"));
    };
    match rest.split_once("```\n") {
        Some((_, rest)) => match rest.split_once("```") {
            Some((block, _)) => Ok(block.as_bytes()),
            None => Err(Wrong::Said("the block has no end")),
        },
        None => Err(Wrong::Said("no block stands behind those words")),
    }
}

/// Looks whether a document has these words.
pub fn has(document: &[u8], words: &str) -> Result<(), Wrong> {
    if text_of(document)?.contains(words) {
        Ok(())
    } else {
        Err(Wrong::Said("the document hasn't those words"))
    }
}

/// A case for each example that the document says is refused with a line: the example is the file F.
pub fn examples(alloc: Global, document: &[u8], begun: &Case) -> Result<Vec<Case>, Wrong> {
    let mut cases = Vec::new(alloc);
    let mut example: &[u8] = &[];
    for part in text_of(document)?.split("```\n") {
        if let Some(line) = printed_line(part) {
            cases.push(example_case(alloc, begun, example, line)?)?;
        }
        example = part.as_bytes();
    }
    Ok(cases)
}

/// The line that is printed for the example before this part of the document.
fn printed_line(part: &str) -> Option<&str> {
    let (line, _) = part.strip_prefix(PRINTS)?.split_once('`')?;
    Some(line)
}

/// A case of this example, for which this line is printed.
fn example_case(alloc: Global, begun: &Case, example: &[u8], line: &str) -> Result<Case, Wrong> {
    let mut case = begun.titled(alloc, line)?;
    case.words = String::from_str(alloc, words_for(line))?;
    case.put_file(alloc, "F", example.to_vec(alloc)?)?;
    case.want(Part::Status, true, b"3\n".to_vec(alloc)?)?;
    let output = format!(in alloc; "{line}\n")?;
    case.want(Part::Output, true, output.into_bytes())?;
    Ok(case)
}

/// The words whose file F is the one that this line refuses. A core file is solved by itself; any other is read with the files C, T and S
/// before it.
fn words_for(line: &str) -> &'static str {
    if line.starts_with("refused time") {
        "show --core C --time F"
    } else if line.starts_with("refused stoch") {
        "show --core C --time T --stoch F"
    } else if line.starts_with("refused edits") {
        "show --core C --time T --stoch S --edits F"
    } else if line.starts_with("refused report") {
        "check --core C --time T --stoch S --report F"
    } else if line.starts_with("refused basis") {
        "solve --core C --time T --stoch S --basis F"
    } else {
        "solve --core F"
    }
}
