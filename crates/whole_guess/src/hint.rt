//! What a guess leaves to the next.

use crate::layout::Layout;
use basis_guess::{FloatProgram, Standing};
use frac128::Memory;
use scen_defs::{Node, Program};
use std::alloc::Global;
use std::marker::Model;

/// So many programs of which nothing was found are known at most.
const MOST_FAILED: usize = 1000;

/// How the columns and rows of a node stood.
#[derive(Drop)]
struct NodeStandings {
    columns: Vec<Standing>,
    rows: Vec<Standing>,
}

/// How the columns and rows of the whole program stood where it was last solved, which is where the next solve begins, also behind an
/// edit: a node that has come since has none, and those of a node that is gone aren't used. A program of which nothing was found isn't
/// tried again. To a contract all hints are the same.
#[derive(Drop)]
pub struct WholeHint {
    nodes: Vec<NodeStandings>,
    /// Of programs of which nothing was found, what their numbers come to.
    failed: Vec<u64>,
}

impl Model for WholeHint {
    ghost Value = { Unit {0} };

    ghost view = { λ _. tt };
}

/// The standing at a place, if there is one.
fn standing_at(standings: &[Standing], place: usize) -> Option<Standing> {
    if place < standings.len() {
        Some(standings[place])
    } else {
        None
    }
}

/// Some standings, from a place on.
fn part(
    alloc: Global,
    standings: &[Standing],
    first: usize,
    count: usize,
) -> Result<Vec<Standing>, Memory> {
    let mut part = Vec::new(alloc);
    for standing in standings.iter().skip(first).take(count) {
        part.push(*standing)?;
    }
    Ok(part)
}

impl WholeHint {
    /// Before the first guess.
    pub fn empty(alloc: Global) -> WholeHint {
        WholeHint {
            nodes: Vec::new(alloc),
            failed: Vec::new(alloc),
        }
    }

    /// Whether nothing was found of a program whose numbers come to this.
    pub(crate) fn has_failed(&self, digest: u64) -> bool {
        for failed in &self.failed {
            if *failed == digest {
                return true;
            }
        }
        false
    }

    /// Nothing was found of a program whose numbers come to this.
    pub(crate) fn note_failure(&mut self, digest: u64) -> Result<(), Memory> {
        if self.failed.len() < MOST_FAILED {
            self.failed.push(digest)?;
        }
        Ok(())
    }

    /// How a column of a node stood, by its place among those of its period.
    fn column(&self, node: usize, place: usize) -> Option<Standing> {
        if node < self.nodes.len() {
            standing_at(&self.nodes[node].columns, place)
        } else {
            None
        }
    }

    /// How a row of a node stood, by its place.
    fn row(&self, node: usize, place: usize) -> Option<Standing> {
        if node < self.nodes.len() {
            standing_at(&self.nodes[node].rows, place)
        } else {
            None
        }
    }

    /// Puts how the columns of a node begin behind the others.
    fn put_columns(
        &self,
        floats: &FloatProgram,
        node: usize,
        count: usize,
        standings: &mut Vec<Standing>,
    ) -> Result<(), Memory> {
        for place in 0..count {
            let at = standings.len();
            let standing = match self.column(node, place) {
                Some(standing) => standing,
                None => floats.rest(at),
            };
            standings.push(standing)?;
        }
        Ok(())
    }

    /// Puts how the rows of a node begin behind the others.
    fn put_rows(
        &self,
        node: usize,
        count: usize,
        standings: &mut Vec<Standing>,
    ) -> Result<(), Memory> {
        for place in 0..count {
            standings.push(self.row(node, place).unwrap_or(Standing::Basic))?;
        }
        Ok(())
    }

    /// How all columns and then all rows begin.
    pub(crate) fn standings(
        &self,
        alloc: Global,
        program: &Program,
        layout: &Layout,
        floats: &FloatProgram,
    ) -> Result<Vec<Standing>, Memory> {
        let mut standings = Vec::new(alloc);
        for (number, node) in program.nodes.iter().enumerate() {
            if let Some(node) = node {
                let count = layout.columns(node.stage).len();
                self.put_columns(floats, number, count, &mut standings)?;
            }
        }
        for (number, node) in program.nodes.iter().enumerate() {
            if let Some(node) = node {
                self.put_rows(number, node.rows.len(), &mut standings)?;
            }
        }
        Ok(standings)
    }

    /// Keeps how the columns and rows of a node stand, which begin at these places, and gives the places behind them.
    fn keep_node(
        &mut self,
        alloc: Global,
        layout: &Layout,
        node: &Option<Node>,
        standings: &[Standing],
        from: (usize, usize),
    ) -> Result<(usize, usize), Memory> {
        let (columns, rows) = match node {
            Some(node) => (layout.columns(node.stage).len(), node.rows.len()),
            None => (0, 0),
        };
        let kept = NodeStandings {
            columns: part(alloc, standings, from.0, columns)?,
            rows: part(alloc, standings, from.1, rows)?,
        };
        self.nodes.push(kept)?;
        Ok((from.0.saturating_add(columns), from.1.saturating_add(rows)))
    }

    /// Keeps how all columns and rows stand; the rows begin behind so many columns.
    pub(crate) fn keep(
        &mut self,
        alloc: Global,
        program: &Program,
        layout: &Layout,
        standings: &[Standing],
        columns: usize,
    ) -> Result<(), Memory> {
        self.nodes = Vec::new(alloc);
        let mut from = (0, columns);
        for node in &program.nodes {
            from = self.keep_node(alloc, layout, node, standings, from)?;
        }
        Ok(())
    }
}
