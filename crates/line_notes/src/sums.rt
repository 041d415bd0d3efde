//! Whose probabilities don't add up to 1 in a stoch file: those of a file that is refused, and those that are divided by their sum.
use file_lines::{Line, end_field, field, field_count, kind_of};
use frac128::{Frac, Memory, parse, print};
use smps_words::Names;
use std::alloc::{AllocError, Global};
use std::fmt::Write;
use visible_text::push_line;

/// The cases of a block, of an entry of INDEP, or all scenarios.
#[derive(Clone, Copy, Drop)]
struct Cases {
    /// The numbers of the first line and of the last, counted from 1.
    from: u64,
    to: u64,
    sum: Frac,
}

/// All cases of a stoch file, by what they belong to.
#[derive(Drop)]
struct Groups {
    names: Names,
    cases: Vec<Cases>,
}

/// The cases that a stoch file states.
fn groups_of(alloc: Global, stoch: &[u8]) -> Result<Groups, AllocError> {
    let mut names = Names::empty(alloc);
    let mut cases: Vec<Cases> = Vec::new(alloc);
    let mut section: &[u8] = &[];
    for (before, line) in stoch.split(|byte| *byte == b'\n').enumerate() {
        match kind_of(line) {
            Line::Header(b"ENDATA") => break,
            Line::Header(word) => section = word,
            Line::Data => {
                let number = (before as u64).saturating_add(1);
                add_line(alloc, &mut names, &mut cases, section, line, number)?;
            }
            Line::Skipped => {}
        }
    }
    Ok(Groups { names, cases })
}

/// Appends whose probabilities add up to this sum first, and where they stand; nothing where that isn't sure.
pub fn put_sum(
    alloc: Global,
    text: &mut String,
    stoch: &[u8],
    sum: Frac,
) -> Result<(), AllocError> {
    let groups = groups_of(alloc, stoch)?;
    for (place, cases) in groups.cases.iter().enumerate() {
        if cases.sum == sum && place < groups.names.len() {
            put_owner(text, groups.names.name(place))?;
            return put_lines(text, cases.from, cases.to);
        }
    }
    Ok(())
}

/// Appends whose probabilities were divided by their sum, since it isn't 1, behind this beginning.
/// The first are named, and others counted.
/// The file has been read without a fault.
pub fn put_divided(
    alloc: Global,
    text: &mut String,
    start: &str,
    stoch: &[u8],
) -> Result<(), AllocError> {
    let groups = groups_of(alloc, stoch)?;
    let count = groups
        .cases
        .iter()
        .filter(|cases| !cases.sum.is_one())
        .count() as u64;
    for (place, cases) in groups.cases.iter().enumerate() {
        if !cases.sum.is_one() && place < groups.names.len() {
            text.push_str(start)?;
            put_lines(text, cases.from, cases.to)?;
            text.push_str(": probabilities are divided by their sum, ")?;
            put_number(alloc, text, cases.sum)?;
            put_owner(text, groups.names.name(place))?;
            return put_others(text, count);
        }
    }
    Ok(())
}

/// Appends how many others there are beside the first, and the end of the line.
fn put_others(text: &mut String, count: u64) -> Result<(), AllocError> {
    if count > 1 {
        let others = count - 1;
        write!(text, ", and those of {others} more likewise")?;
    }
    text.push_str("\n")
}

/// Appends a number.
fn put_number(alloc: Global, text: &mut String, number: Frac) -> Result<(), AllocError> {
    let mut digits = Vec::new(alloc);
    match print(alloc, number, &mut digits) {
        Ok(()) => push_line(text, &digits),
        Err(Memory) => Err(AllocError),
    }
}

/// Adds a line that states a case to those that it goes with.
fn add_line(
    alloc: Global,
    names: &mut Names,
    groups: &mut Vec<Cases>,
    section: &[u8],
    line: &[u8],
    number: u64,
) -> Result<(), AllocError> {
    let owner = owner_of(alloc, section, line)?;
    match chance_of(section, line) {
        Some(chance) if !owner.is_empty() => {
            add_chance(names, groups, owner.as_slice(), number, chance)
        }
        _ => Ok(()),
    }
}

/// Whom the case of a line belongs to: `BLOCKS` with the block, `INDEP` with column and row, `SCENARIOS`, each behind a blank. Empty where
/// the line states no case.
fn owner_of(alloc: Global, section: &[u8], line: &[u8]) -> Result<Vec<u8>, AllocError> {
    let mut owner = Vec::new(alloc);
    let shown = match (section, field(line, 0), field_count(line)) {
        (b"INDEP", _, 4 | 5) => 0..2,
        (b"BLOCKS", Some(b"BL"), 4) => 1..2,
        (b"SCENARIOS", Some(b"SC"), 5) => 0..1,
        _ => return Ok(owner),
    };
    owner.extend_from_slice(section)?;
    for place in shown {
        owner.push(b' ')?;
        owner.extend_from_slice(field(line, place).unwrap_or(&[]))?;
    }
    Ok(owner)
}

/// The probability of a line that states a case.
fn chance_of(section: &[u8], line: &[u8]) -> Option<Frac> {
    let word = if section == b"SCENARIOS".as_slice() {
        field(line, 3)?
    } else {
        end_field(line)
    };
    parse(word).ok()
}

/// Adds the probability of a line to those of the same owner.
fn add_chance(
    names: &mut Names,
    groups: &mut Vec<Cases>,
    owner: &[u8],
    number: u64,
    chance: Frac,
) -> Result<(), AllocError> {
    match names.place(owner) {
        Some(place) => {
            if let Some(cases) = groups.get_mut(place) {
                raise(cases, number, chance);
            }
            Ok(())
        }
        None => {
            names.add(owner)?;
            groups.push(Cases {
                from: number,
                to: number,
                sum: chance,
            })?;
            Ok(())
        }
    }
}

/// Adds a line and a probability to cases. A sum that doesn't fit into 128 bits stays as it was, so that it isn't found.
fn raise(cases: &mut Cases, line: u64, chance: Frac) {
    cases.to = line;
    cases.sum = cases.sum.add(chance).unwrap_or(cases.sum);
}

/// Appends whose probabilities are meant.
fn put_owner(text: &mut String, owner: &[u8]) -> Result<(), AllocError> {
    let word = match field(owner, 0) {
        Some(b"SCENARIOS") => return text.push_str(": those of all scenarios"),
        Some(b"BLOCKS") => "block",
        _ => "entry",
    };
    write!(text, ": those of the {word}")?;
    for name in owner.split(|byte| *byte == b' ').skip(1) {
        text.push_str(" '")?;
        push_line(text, name)?;
        text.push_str("'")?;
    }
    Ok(())
}

/// Appends the lines from the one to the other.
fn put_lines(text: &mut String, from: u64, to: u64) -> Result<(), AllocError> {
    if from == to {
        write!(text, ", line {from}")
    } else {
        write!(text, ", lines {from} to {to}")
    }
}
