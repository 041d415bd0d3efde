//! Lines of cells under one another.
use frac128::Memory;
use std::alloc::Global;
use unicode_width::UnicodeWidthStr;

/// Lines of cells.
#[derive(Drop)]
pub(crate) struct Lines {
    lines: Vec<Vec<Vec<u8>>>,
}

/// How many columns of a terminal a text takes.
fn width(text: &[u8]) -> usize {
    match std::str::from_utf8(text) {
        Ok(text) => text.width(),
        Err(_) => text.len(),
    }
}

/// Appends so many spaces.
fn put_spaces(out: &mut Vec<u8>, count: usize) -> Result<(), Memory> {
    for _ in 0..count {
        out.push(b' ')?;
    }
    Ok(())
}

/// Makes the widths at least those of the cells of a line.
fn widen(widths: &mut Vec<usize>, line: &[Vec<u8>]) -> Result<(), Memory> {
    for (place, cell) in line.iter().enumerate() {
        let width = width(cell);
        if place < widths.len() {
            widths[place] = widths[place].max(width);
        } else {
            widths.push(width)?;
        }
    }
    Ok(())
}

/// Appends a line, each cell but the last as wide as its column.
fn put_line(out: &mut Vec<u8>, line: &[Vec<u8>], widths: &[usize]) -> Result<(), Memory> {
    for (place, cell) in line.iter().enumerate() {
        out.extend_from_slice(b"  ")?;
        out.extend_from_slice(cell)?;
        if place.saturating_add(1) < line.len() && place < widths.len() {
            put_spaces(out, widths[place].saturating_sub(width(cell)))?;
        }
    }
    out.push(b'\n')?;
    Ok(())
}

impl Lines {
    /// No lines.
    pub(crate) fn new(alloc: Global) -> Lines {
        Lines {
            lines: Vec::new(alloc),
        }
    }

    /// Adds a line of cells.
    pub(crate) fn push(&mut self, cells: Vec<Vec<u8>>) -> Result<(), Memory> {
        self.lines.push(cells)?;
        Ok(())
    }

    /// Appends the lines, with the cells of each column under one another.
    pub(crate) fn print(&self, alloc: Global, out: &mut Vec<u8>) -> Result<(), Memory> {
        let mut widths = Vec::new(alloc);
        for line in &self.lines {
            widen(&mut widths, line)?;
        }
        for line in &self.lines {
            put_line(out, line, &widths)?;
        }
        Ok(())
    }
}
