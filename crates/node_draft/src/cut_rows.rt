//! Cuts that become rows.

use crate::draft::{Draft, cut_at};
use crate::groups::{Group, group_at, group_factor};
use crate::hint::{HeldCuts, Hint};
use crate::split::{place_of, split_form};
use basis_factors::Entry;
use basis_guess::Standing;
use cut_defs::CutKind;
use cut_proof::Cut;
use frac128::{ArithmeticFault, Frac, Memory, Passed};
use node_lp::Task;
use std::alloc::Global;

/// The entries with the other signs and, in a cut that bounds it, the child's cost.
fn entries_of(
    alloc: Global,
    entries: &[Entry<Frac>],
    kind: CutKind,
    cost: usize,
) -> Result<Vec<Entry<Frac>>, ArithmeticFault> {
    let mut all = Vec::with_capacity(alloc, entries.len().saturating_add(1))?;
    for entry in entries {
        all.push(Entry {
            at: entry.at,
            value: entry.value.neg(),
        })?;
    }
    match (kind, u32::try_from(cost)) {
        (CutKind::Bound, Ok(at)) => all.push(Entry {
            at,
            value: Frac::one(),
        })?,
        _ => {}
    }
    Ok(all)
}

/// Adds the row of a cut: the child's cost, or 0, less the cut's form is at least its constant.
fn push_cut(
    alloc: Global,
    task: &Task,
    draft: &mut Draft,
    cut: &Cut,
    group: usize,
) -> Result<(), ArithmeticFault> {
    let parts = split_form(alloc, task.datum.bounds(), &task.trial, cut.form().terms())?;
    let low = cut.constant().add(parts.outer)?;
    let cost = draft.own.saturating_add(group);
    let entries = entries_of(alloc, &parts.entries, cut.kind(), cost)?;
    draft.program.push_row(entries, Some(low), None)?;
    Ok(())
}

/// A sum of cuts: by own column what they take off, and their constants at the trial.
#[derive(Drop)]
struct CutSum {
    columns: Vec<Frac>,
    low: Frac,
}

impl CutSum {
    /// Takes a multiple of a number off a column.
    fn take(&mut self, place: usize, by: Frac, value: Frac) -> Result<(), Passed> {
        if place < self.columns.len() {
            self.columns[place] = self.columns[place].less_product(by, value)?;
        }
        Ok(())
    }

    /// Adds a multiple of a cut.
    fn add(&mut self, task: &Task, cut: &Cut, by: Frac) -> Result<(), Passed> {
        let mut low = cut.constant();
        for term in cut.form().terms() {
            match place_of(task.datum.bounds(), term.column) {
                Some(place) => self.take(place as usize, by, term.value)?,
                None => {
                    low = low.add_product(term.value, task.trial.get(term.column))?;
                }
            }
        }
        self.low = self.low.add_product(by, low)?;
        Ok(())
    }

    /// The entries, and 1 in a column behind them.
    fn entries(&self, alloc: Global, cost: usize) -> Result<Vec<Entry<Frac>>, Memory> {
        let mut all = Vec::new(alloc);
        for (place, value) in self.columns.iter().enumerate() {
            match u32::try_from(place) {
                Ok(at) if !value.is_zero() => all.push(Entry { at, value: *value })?,
                _ => {}
            }
        }
        if let Ok(at) = u32::try_from(cost) {
            all.push(Entry {
                at,
                value: Frac::one(),
            })?;
        }
        Ok(all)
    }
}

/// Adds the row of a group's cuts: the group's cost less the forms of the cuts is at least their constants.
fn push_sum(
    alloc: Global,
    task: &Task,
    draft: &mut Draft,
    number: usize,
    group: &Group,
    cuts: &[u32],
) -> Result<(), ArithmeticFault> {
    let mut columns = Vec::new(alloc);
    columns.resize(draft.own, Frac::zero())?;
    let mut sum = CutSum {
        columns,
        low: Frac::zero(),
    };
    for (place, cut) in cuts.iter().enumerate() {
        let child = group.first.saturating_add(place);
        if let Some(cut) = cut_at(&task.children, child, *cut as usize) {
            sum.add(task, cut, group_factor(task, group, child))?;
        }
    }
    let entries = sum.entries(alloc, draft.own.saturating_add(number))?;
    draft.program.push_row(entries, Some(sum.low), None)?;
    Ok(())
}

/// Notes of a cut that it is the row with this number among the cuts that are.
fn note(draft: &mut Draft, child: usize, number: usize, row: usize) {
    if child < draft.children.len() {
        let cuts = &mut draft.children[child].cuts;
        if number < cuts.len() {
            cuts[number].row = Some(row);
        }
    }
}

/// The kind of a cut, if the program takes it.
fn kind_of(draft: &Draft, child: usize, number: usize) -> Option<CutKind> {
    if child >= draft.children.len() {
        return None;
    }
    let cuts = &draft.children[child].cuts;
    if number < cuts.len() && cuts[number].is_taken {
        Some(cuts[number].kind)
    } else {
        None
    }
}

/// Whether a cut is a row by itself.
fn is_row(draft: &Draft, child: usize, number: usize) -> bool {
    if child >= draft.children.len() {
        return false;
    }
    let cuts = &draft.children[child].cuts;
    number < cuts.len() && cuts[number].row.is_some()
}

/// Whether all these cuts bound costs.
fn are_bounds(draft: &Draft, first: usize, cuts: &[u32]) -> bool {
    for (place, cut) in cuts.iter().enumerate() {
        match kind_of(draft, first.saturating_add(place), *cut as usize) {
            Some(CutKind::Bound) => {}
            _ => {
                return false;
            }
        }
    }
    true
}

/// Makes one cut a row, unless it is one.
fn add_cut(
    alloc: Global,
    task: &Task,
    draft: &mut Draft,
    child: usize,
    number: usize,
) -> Result<bool, ArithmeticFault> {
    if is_row(draft, child, number) {
        return Ok(false);
    }
    let Some(cut) = cut_at(&task.children, child, number) else {
        return Ok(false);
    };
    match kind_of(draft, child, number) {
        Some(CutKind::Ray) => push_cut(alloc, task, draft, cut, 0)?,
        Some(CutKind::Bound) => {
            let Some(group) = group_at(&draft.groups, child, 1) else {
                return Ok(false);
            };
            push_cut(alloc, task, draft, cut, group)?;
            mark(draft, group);
        }
        None => {
            return Ok(false);
        }
    }
    let row = draft.held.rows.len();
    note(draft, child, number, row);
    Ok(true)
}

/// Notes of a group that it has a row.
fn mark(draft: &mut Draft, group: usize) {
    if group < draft.groups.len() {
        draft.groups[group].has_row = true;
    }
}

/// Makes the sum of a group's cuts a row, unless it is one.
fn add_sum(
    alloc: Global,
    task: &Task,
    draft: &mut Draft,
    first: u32,
    cuts: &[u32],
) -> Result<bool, ArithmeticFault> {
    let Some(number) = group_at(&draft.groups, first as usize, cuts.len()) else {
        return Ok(false);
    };
    if !are_bounds(draft, first as usize, cuts) || draft.held.has(first, cuts) {
        return Ok(false);
    }
    if number < draft.groups.len() {
        let group = draft.groups[number];
        push_sum(alloc, task, draft, number, &group, cuts)?;
        mark(draft, number);
        return Ok(true);
    }
    Ok(false)
}

/// Makes cuts a row, unless they are one: one by itself, or those about the children of a group.
pub(crate) fn add_row(
    alloc: Global,
    task: &Task,
    draft: &mut Draft,
    child: u32,
    cuts: &[u32],
    standing: Standing,
) -> Result<(), ArithmeticFault> {
    let is_added = if cuts.len() == 1 {
        add_cut(alloc, task, draft, child as usize, cuts[0] as usize)?
    } else {
        add_sum(alloc, task, draft, child, cuts)?
    };
    if is_added {
        draft.held.push(child, cuts, standing)?;
        draft.standings.push(standing)?;
    }
    Ok(())
}

/// Makes cuts rows.
pub fn add_rows(
    alloc: Global,
    task: &Task,
    draft: &mut Draft,
    cuts: &HeldCuts,
) -> Result<(), ArithmeticFault> {
    for held in &cuts.rows {
        let numbers = cuts.numbers_of(held);
        add_row(alloc, task, draft, held.child, numbers, held.standing)?;
    }
    Ok(())
}

/// The last cut that bounds the cost of a child, or the first one.
fn end_bound(draft: &Draft, child: usize, is_first: bool) -> Option<u32> {
    if child >= draft.children.len() {
        return None;
    }
    let mut found = None;
    for (number, cut) in draft.children[child].cuts.iter().enumerate() {
        if cut.kind == CutKind::Bound && cut.is_taken {
            found = u32::try_from(number).ok();
            if is_first {
                return found;
            }
        }
    }
    found
}

/// The last cuts that bound the costs of a group's children, or the first ones; none where a child has none.
pub fn end_bounds(
    alloc: Global,
    draft: &Draft,
    group: &Group,
    is_first: bool,
) -> Result<Vec<u32>, Memory> {
    let mut all = Vec::new(alloc);
    for place in 0..group.count {
        match end_bound(draft, group.first.saturating_add(place), is_first) {
            Some(number) => all.push(number)?,
            None => {
                all.clear();
                return Ok(all);
            }
        }
    }
    Ok(all)
}

/// Makes the last cuts about a group's children a row, where it has none.
fn add_last(
    alloc: Global,
    task: &Task,
    draft: &mut Draft,
    number: usize,
) -> Result<(), ArithmeticFault> {
    if number >= draft.groups.len() || draft.groups[number].has_row {
        return Ok(());
    }
    let group = draft.groups[number];
    let cuts = end_bounds(alloc, draft, &group, false)?;
    let Ok(first) = u32::try_from(group.first) else {
        return Ok(());
    };
    if !cuts.is_empty() {
        add_row(alloc, task, draft, first, &cuts, Standing::Low)?;
        let cost = draft.own.saturating_add(number);
        if cost < draft.standings.len() {
            draft.standings[cost] = Standing::Basic;
        }
    }
    Ok(())
}

/// Makes those cuts rows that a guess begins with: those of the hint and, of each group of which it has none that bounds the
/// cost, the last such cuts.
pub fn add_first(
    alloc: Global,
    task: &Task,
    draft: &mut Draft,
    hint: &Hint,
) -> Result<(), ArithmeticFault> {
    add_rows(alloc, task, draft, &hint.cuts)?;
    for number in 0..draft.groups.len() {
        add_last(alloc, task, draft, number)?;
    }
    Ok(())
}
