//! The basis that a file states.

use crate::named::{AtNode, at_node};
use bounded_basis::Standing;
use indexmap::IndexMap;
use scen_defs::{Node, Program};
use scen_nodes::find;
use std::alloc::{AllocError, Global};

/// How the columns and rows at nodes stand that a file names.
#[derive(Drop)]
pub struct GivenBasis {
    columns: IndexMap<AtNode, Standing>,
    rows: IndexMap<AtNode, Standing>,
}

/// Whether a node has a column.
fn has_column(program: &Program, node: &Node, column: u32) -> bool {
    let place = column as usize;
    place < program.columns.len() && program.columns[place].stage == node.stage
}

/// Whether a node has a row.
fn has_row(node: &Node, row: u32) -> bool {
    for other in &node.rows {
        if other.row == row {
            return true;
        }
    }
    false
}

/// The column of a name, where the program has it.
fn column_named(program: &Program, name: &[u8]) -> Option<AtNode> {
    let at = at_node(b'C', name)?;
    let node = find(&program.nodes, at.node as u64)?;
    if has_column(program, node, at.number) {
        Some(at)
    } else {
        None
    }
}

/// The row of a name, where the program has it.
fn row_named(program: &Program, name: &[u8]) -> Option<AtNode> {
    let at = at_node(b'R', name)?;
    let node = find(&program.nodes, at.node as u64)?;
    if has_row(node, at.number) {
        Some(at)
    } else {
        None
    }
}

/// Puts how a column or row stands. False where it is there already, or is none.
fn put(
    standings: &mut IndexMap<AtNode, Standing>,
    at: Option<AtNode>,
    standing: Standing,
) -> Result<bool, AllocError> {
    let Some(at) = at else {
        return Ok(false);
    };
    if standings.get(&at).is_some() {
        return Ok(false);
    }
    standings.insert(at, standing)?;
    Ok(true)
}

impl GivenBasis {
    /// No column is basic, and every row is.
    pub(crate) fn empty(alloc: Global) -> GivenBasis {
        GivenBasis {
            columns: IndexMap::new(alloc),
            rows: IndexMap::new(alloc),
        }
    }

    /// How a column stands at a node: at its low bound where the file doesn't name it.
    pub fn column(&self, node: u32, column: u32) -> Standing {
        let at = AtNode {
            node,
            number: column,
        };
        match self.columns.get(&at) {
            Some(standing) => *standing,
            None => Standing::Low,
        }
    }

    /// How a row stands at a node: basic where the file doesn't name it.
    pub fn row(&self, node: u32, row: u32) -> Standing {
        let at = AtNode { node, number: row };
        match self.rows.get(&at) {
            Some(standing) => *standing,
            None => Standing::Basic,
        }
    }

    /// Puts how a column of that name stands. False where the program has none, or the name came before.
    pub(crate) fn put_column(
        &mut self,
        program: &Program,
        name: &[u8],
        standing: Standing,
    ) -> Result<bool, AllocError> {
        put(&mut self.columns, column_named(program, name), standing)
    }

    /// Puts how a row of that name stands. False where the program has none, or the name came before.
    pub(crate) fn put_row(
        &mut self,
        program: &Program,
        name: &[u8],
        standing: Standing,
    ) -> Result<bool, AllocError> {
        put(&mut self.rows, row_named(program, name), standing)
    }
}
