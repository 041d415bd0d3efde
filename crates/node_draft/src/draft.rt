//! A node's program as it is guessed: cuts become rows as they are needed.

use crate::floats::{FloatCut, FloatCuts, distance};
use crate::groups::{Group, groups_of};
use crate::hint::{HeldCuts, Hint};
use crate::split::{place_of, split_form};
use basis_factors::Entry;
use basis_guess::Standing;
use basis_values::ExactProgram;
use cut_defs::CutKind;
use cut_proof::{ChildCuts, Cut, SharedCut};
use decimals::float;
use frac128::{ArithmeticFault, Frac, Memory};
use node_lp::Task;
use scen_defs::{Kind, NodeRow};
use std::alloc::Global;

/// So many times as many rows as there are columns and own rows, and so many more, are kept.
const LONG: usize = 3;

const MANY: usize = 40;

/// A node's program: its own columns and, where the children are priced, the costs of their groups; its own rows, and behind them
/// those of cuts.
#[derive(Drop)]
pub struct Draft {
    pub program: ExactProgram,
    /// Of the columns and then of the rows.
    pub standings: Vec<Standing>,
    /// How many own columns there are.
    pub own: usize,
    /// The groups of children that are priced.
    pub groups: Vec<Group>,
    /// How many own rows there are.
    pub rows: usize,
    /// The cuts that are rows, in the order of their rows.
    pub held: HeldCuts,
    /// All cuts, by child.
    pub children: Vec<FloatCuts>,
}

/// Whether the children have costs of their own: not in a Feasible run.
pub fn is_priced(task: &Task) -> bool {
    match task.kind {
        Kind::Feasible => false,
        Kind::Recession | Kind::Cost => true,
    }
}

/// Whether a program takes a cut.
pub fn is_taken(priced: bool, kind: CutKind) -> bool {
    match kind {
        CutKind::Bound => priced,
        CutKind::Ray => true,
    }
}

/// Adds the own columns, which cost nothing in a Feasible run, and the costs of groups.
fn push_columns(program: &mut ExactProgram, task: &Task, groups: &[Group]) -> Result<(), Memory> {
    let priced = is_priced(task);
    for bound in task.datum.bounds() {
        let cost = if priced {
            task.datum.cost().get(bound.column as u64)
        } else {
            Frac::zero()
        };
        program.push_column(bound.lower, bound.upper, cost)?;
    }
    for group in groups {
        program.push_column(None, None, group.price)?;
    }
    Ok(())
}

/// An end less what the other columns come to.
fn less(end: Option<Frac>, outer: Frac) -> Result<Option<Frac>, ArithmeticFault> {
    match end {
        Some(end) => Ok(Some(end.sub(outer)?)),
        None => Ok(None),
    }
}

/// Adds an own row at the trial.
fn push_row(
    alloc: Global,
    program: &mut ExactProgram,
    task: &Task,
    row: &NodeRow,
) -> Result<(), ArithmeticFault> {
    let parts = split_form(alloc, task.datum.bounds(), &task.trial, row.entries.terms())?;
    let low = less(row.low, parts.outer)?;
    let high = less(row.high, parts.outer)?;
    program.push_row(parts.entries, low, high)?;
    Ok(())
}

/// Adds the own rows.
fn push_rows(
    alloc: Global,
    program: &mut ExactProgram,
    task: &Task,
) -> Result<(), ArithmeticFault> {
    for row in task.datum.rows() {
        push_row(alloc, program, task, row)?;
    }
    Ok(())
}

/// The standing at a place of a list, if it has one.
fn standing_at(list: &[Standing], place: usize, other: Standing) -> Standing {
    if place < list.len() {
        list[place]
    } else {
        other
    }
}

/// Where the columns and own rows stood, or where they rest.
fn first_standings(
    alloc: Global,
    program: &ExactProgram,
    task: &Task,
    groups: &[Group],
    hint: &Hint,
) -> Result<Vec<Standing>, Memory> {
    let count = program.column_count().saturating_add(program.row_count());
    let mut all = Vec::with_capacity(alloc, count)?;
    for (column, _bound) in task.datum.bounds().iter().enumerate() {
        let rest = program.floats().rest(column);
        all.push(standing_at(&hint.columns, column, rest))?;
    }
    for (number, _group) in groups.iter().enumerate() {
        all.push(standing_at(&hint.costs, number, Standing::Free))?;
    }
    for (row, _row) in task.datum.rows().iter().enumerate() {
        all.push(standing_at(&hint.rows, row, Standing::Basic))?;
    }
    Ok(all)
}

/// A cut that the program doesn't take.
fn left_out(kind: CutKind, end: usize) -> FloatCut {
    FloatCut {
        kind,
        is_taken: false,
        base: 0.0,
        size: 0.0,
        end,
        row: None,
    }
}

/// A cut in floats; its entries are added to its child's list.
fn float_cut(task: &Task, cut: &Cut, entries: &mut Vec<Entry<f64>>) -> Result<FloatCut, Memory> {
    let kind = cut.kind();
    if !is_taken(is_priced(task), kind) {
        return Ok(left_out(kind, entries.len()));
    }
    let mut base = float(cut.constant());
    let mut size = 1.0 + distance(base);
    for term in cut.form().terms() {
        let value = float(term.value);
        match place_of(task.datum.bounds(), term.column) {
            Some(at) => entries.push(Entry { at, value })?,
            None => {
                let product = value * float(task.trial.get(term.column));
                base += product;
                size += distance(product);
            }
        }
    }
    Ok(FloatCut {
        kind,
        is_taken: true,
        base,
        size,
        end: entries.len(),
        row: None,
    })
}

/// The cuts about a child in floats.
fn float_cuts(alloc: Global, task: &Task, cuts: &[SharedCut]) -> Result<FloatCuts, Memory> {
    let mut entries = Vec::with_capacity(alloc, cuts.len())?;
    let mut all = Vec::with_capacity(alloc, cuts.len())?;
    for cut in cuts {
        all.push(float_cut(task, cut.cut(), &mut entries)?)?;
    }
    Ok(FloatCuts { entries, cuts: all })
}

/// Those about all children.
fn float_children(alloc: Global, task: &Task) -> Result<Vec<FloatCuts>, Memory> {
    let mut all = Vec::with_capacity(alloc, task.children.len())?;
    for child in &task.children {
        all.push(float_cuts(alloc, task, &child.cuts)?)?;
    }
    Ok(all)
}

/// The groups of priced children, which have so many children each.
fn priced_groups(alloc: Global, task: &Task, size: usize) -> Result<Vec<Group>, Memory> {
    if is_priced(task) {
        groups_of(alloc, task, size)
    } else {
        Ok(Vec::new(alloc))
    }
}

/// The program without cuts, where groups have so many children.
pub fn first_draft(
    alloc: Global,
    task: &Task,
    hint: &Hint,
    size: usize,
) -> Result<Draft, ArithmeticFault> {
    let groups = priced_groups(alloc, task, size)?;
    let columns = task.datum.bounds().len().saturating_add(groups.len());
    let cuts = hint.cuts.rows.len().saturating_add(groups.len());
    let rows = task.datum.rows().len().saturating_add(cuts);
    let mut program = ExactProgram::sized(alloc, columns, rows)?;
    push_columns(&mut program, task, &groups)?;
    push_rows(alloc, &mut program, task)?;
    let standings = first_standings(alloc, &program, task, &groups, hint)?;
    let children = float_children(alloc, task)?;
    Ok(Draft {
        program,
        standings,
        own: task.datum.bounds().len(),
        groups,
        rows: task.datum.rows().len(),
        held: HeldCuts::new(alloc),
        children,
    })
}

impl Draft {
    /// Whether there are many more rows than a basis needs.
    pub fn is_long(&self) -> bool {
        let least = self.program.column_count().saturating_add(self.rows);
        self.program.row_count() > least.saturating_mul(LONG).saturating_add(MANY)
    }

    /// No cut is a row.
    pub fn clear_cuts(
        &mut self,
        alloc: Global,
        task: &Task,
        hint: &Hint,
    ) -> Result<(), ArithmeticFault> {
        let mut program = ExactProgram::new(alloc);
        push_columns(&mut program, task, &self.groups)?;
        push_rows(alloc, &mut program, task)?;
        self.standings = first_standings(alloc, &program, task, &self.groups, hint)?;
        self.program = program;
        self.held = HeldCuts::new(alloc);
        for group in self.groups.iter_mut() {
            group.has_row = false;
        }
        for child in self.children.iter_mut() {
            unmark(&mut child.cuts);
        }
        Ok(())
    }
}

/// No cut of these is a row.
fn unmark(cuts: &mut [FloatCut]) {
    for cut in cuts.iter_mut() {
        cut.row = None;
    }
}

/// The cut with this number about the child at a place.
pub fn cut_at(children: &[ChildCuts], child: usize, number: usize) -> Option<&Cut> {
    if child >= children.len() {
        return None;
    }
    let cuts = &children[child].cuts;
    if number < cuts.len() {
        Some(cuts[number].cut())
    } else {
        None
    }
}
