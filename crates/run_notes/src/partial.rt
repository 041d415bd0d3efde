//! Cases of a block that leave out an entry which other cases of it set.
use file_lines::{Line, field, field_count, kind_of};
use smps_words::Names;
use std::alloc::{AllocError, Global};
use std::fmt::Write;
use visible_text::push_line;

/// A case of a block.
#[derive(Clone, Copy, Drop)]
struct Case {
    /// The number of its line `BL`, counted from 1.
    line: u64,
    /// The number of its block, from 0 on.
    block: usize,
    /// How many entries it sets.
    count: u64,
}

/// The blocks of a stoch file, with their cases, and the entries that they set.
#[derive(Drop)]
struct Blocks {
    names: Names,
    /// How many entries the cases of each block set together.
    totals: Vec<u64>,
    cases: Vec<Case>,
    /// The numbers of blocks, columns and rows, with blanks between them.
    entries: Names,
}

/// Appends that a case of a block leaves out an entry which another one sets, behind this beginning; the first of several. The file has
/// been read without a fault.
pub fn put_partial(
    alloc: Global,
    text: &mut String,
    start: &str,
    stoch: &[u8],
) -> Result<(), AllocError> {
    let blocks = blocks_of(alloc, stoch)?;
    for case in &blocks.cases {
        let total = blocks.totals.get(case.block).copied().unwrap_or(0);
        if case.count < total && case.block < blocks.names.len() {
            return put_case(text, start, case.line, blocks.names.name(case.block));
        }
    }
    Ok(())
}

fn put_case(text: &mut String, start: &str, line: u64, block: &[u8]) -> Result<(), AllocError> {
    text.push_str(start)?;
    write!(text, ", line {line}: this case of '")?;
    push_line(text, block)?;
    text.push_str(
        "' leaves out an entry that another case sets, which then has its value in the first case, or else that of the core file\n",
    )
}

/// The blocks that a stoch file states.
fn blocks_of(alloc: Global, stoch: &[u8]) -> Result<Blocks, AllocError> {
    let mut blocks = Blocks {
        names: Names::empty(alloc),
        totals: Vec::new(alloc),
        cases: Vec::new(alloc),
        entries: Names::empty(alloc),
    };
    let mut is_here = false;
    for (before, line) in stoch.split(|byte| *byte == b'\n').enumerate() {
        match kind_of(line) {
            Line::Header(b"ENDATA") => break,
            Line::Header(word) => is_here = word == b"BLOCKS".as_slice(),
            Line::Data if is_here => {
                add_line(alloc, &mut blocks, line, (before as u64).saturating_add(1))?;
            }
            Line::Data | Line::Skipped => {}
        }
    }
    Ok(blocks)
}

/// Adds a line of BLOCKS.
fn add_line(
    alloc: Global,
    blocks: &mut Blocks,
    line: &[u8],
    number: u64,
) -> Result<(), AllocError> {
    if field(line, 0) == Some(b"BL") && field_count(line) == 4 {
        return begin_case(blocks, field(line, 1).unwrap_or(&[]), number);
    }
    for place in [1, 3] {
        if let Some(row) = field(line, place) {
            add_entry(alloc, blocks, field(line, 0).unwrap_or(&[]), row)?;
        }
    }
    Ok(())
}

/// Adds a case of a block.
fn begin_case(blocks: &mut Blocks, name: &[u8], line: u64) -> Result<(), AllocError> {
    let block = match blocks.names.place(name) {
        Some(block) => block,
        None => {
            let block = blocks.names.len();
            blocks.names.add(name)?;
            blocks.totals.push(0)?;
            block
        }
    };
    blocks.cases.push(Case {
        line,
        block,
        count: 0,
    })?;
    Ok(())
}

/// Adds an entry to the last case.
fn add_entry(
    alloc: Global,
    blocks: &mut Blocks,
    column: &[u8],
    row: &[u8],
) -> Result<(), AllocError> {
    let Some(case) = blocks.cases.last_mut() else {
        return Ok(());
    };
    case.count = case.count.saturating_add(1);
    let block = case.block;
    let key = key_of(alloc, block, column, row)?;
    if blocks.entries.place(&key).is_some() {
        return Ok(());
    }
    if let Some(total) = blocks.totals.get_mut(block) {
        *total = (*total).saturating_add(1);
    }
    add_new(&mut blocks.entries, &key)
}

/// Adds a name, where it isn't there.
fn add_new(names: &mut Names, name: &[u8]) -> Result<(), AllocError> {
    match names.place(name) {
        Some(_) => Ok(()),
        None => names.add(name),
    }
}

/// A block, a column and a row as one name.
fn key_of(alloc: Global, block: usize, column: &[u8], row: &[u8]) -> Result<Vec<u8>, AllocError> {
    let number = format!(in alloc; "{block}")?;
    let mut key = Vec::from_slice(alloc, number.as_bytes())?;
    key.push(b' ')?;
    key.extend_from_slice(column)?;
    key.push(b' ')?;
    key.extend_from_slice(row)?;
    Ok(key)
}
