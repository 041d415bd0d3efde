//! Which cuts become rows: those that a point breaks.

use basis_guess::Standing;
use cut_defs::CutKind;
use cut_proof::Cut;
use decimals::float;
use frac128::{ArithmeticFault, Frac, Memory, Passed};
use node_draft::{
    Draft, FloatCut, FloatCuts, Group, HeldCuts, Sum, cut_at, distance, end_bounds, float_at,
    group_factor, place_of, value_at,
};
use node_lp::Task;
use std::alloc::Global;

/// So far above the limit a cut has to lie, beside what was added up.
const BROKEN: f64 = 0.000000001;

/// So far from the limit a cut may lie that is looked at exactly.
const NEAR: f64 = 0.0000001;

/// Whether a cut may become a row.
fn is_open(cut: &FloatCut) -> bool {
    cut.is_taken && cut.row.is_none()
}

/// How far a sum is above its limit, beside what was added up; below 0 where it isn't.
fn over(sum: Sum, limit: f64) -> f64 {
    (sum.value - limit) / (sum.size + distance(limit))
}

/// The cut of a kind about a child that a point breaks most.
fn most_broken(cuts: &FloatCuts, kind: CutKind, limit: f64, point: &[f64]) -> Option<usize> {
    let mut most = 0.0;
    let mut best = None;
    let mut from = 0;
    for (number, cut) in cuts.cuts.iter().enumerate() {
        if cut.kind == kind && is_open(cut) {
            let sum = value_at(cut, &cuts.entries, from, point);
            let beyond = sum.value - limit;
            if over(sum, limit) > BROKEN && beyond > most {
                most = beyond;
                best = Some(number);
            }
        }
        from = cut.end;
    }
    best
}

/// A cut and its value.
#[derive(Clone, Copy)]
struct Best {
    number: usize,
    sum: Sum,
}

/// The cut that bounds a child's cost with the greatest value.
fn greatest(cuts: &FloatCuts, point: &[f64]) -> Option<Best> {
    let mut best: Option<Best> = None;
    let mut from = 0;
    for (number, cut) in cuts.cuts.iter().enumerate() {
        if cut.kind == CutKind::Bound && cut.is_taken {
            let sum = value_at(cut, &cuts.entries, from, point);
            let is_greater = match &best {
                Some(other) => sum.value > other.sum.value,
                None => true,
            };
            if is_greater {
                best = Some(Best { number, sum });
            }
        }
        from = cut.end;
    }
    best
}

/// Adds a cut to a list, as a row that is basic.
fn push_cut(all: &mut HeldCuts, child: usize, number: usize) -> Result<(), Memory> {
    match (u32::try_from(child), u32::try_from(number)) {
        (Ok(child), Ok(number)) => all.push(child, &[number], Standing::Basic),
        _ => Ok(()),
    }
}

/// Adds a group's cuts to a list, as a row that is basic, unless they are a row.
fn push_sum(
    all: &mut HeldCuts,
    draft: &Draft,
    group: &Group,
    numbers: &[u32],
) -> Result<(), Memory> {
    match u32::try_from(group.first) {
        Ok(first) if !numbers.is_empty() && !draft.held.has(first, numbers) => {
            all.push(first, numbers, Standing::Basic)
        }
        _ => Ok(()),
    }
}

/// Adds the greatest cuts about a group's children, where together they are above the group's cost.
fn push_group(
    alloc: Global,
    all: &mut HeldCuts,
    task: &Task,
    draft: &Draft,
    group: &Group,
    limit: f64,
    point: &[f64],
) -> Result<(), Memory> {
    let mut numbers = Vec::with_capacity(alloc, group.count)?;
    let mut sum = Sum {
        value: 0.0,
        size: 0.0,
    };
    for (place, cuts) in draft
        .children
        .iter()
        .enumerate()
        .skip(group.first)
        .take(group.count)
    {
        let Some(best) = greatest(cuts, point) else {
            return Ok(());
        };
        let by = if group.is_plain {
            1.0
        } else {
            float(group_factor(task, group, place))
        };
        sum.value += by * best.sum.value;
        sum.size += by * best.sum.size;
        match u32::try_from(best.number) {
            Ok(number) => numbers.push(number)?,
            Err(_) => {
                return Ok(());
            }
        }
    }
    if over(sum, limit) > BROKEN {
        push_sum(all, draft, group, &numbers)?;
    }
    Ok(())
}

/// Of each group the cuts that bound its cost, and of each child the Ray cut, that a point breaks most.
pub(crate) fn broken(
    alloc: Global,
    task: &Task,
    draft: &Draft,
    point: &[f64],
) -> Result<HeldCuts, Memory> {
    let mut all = HeldCuts::new(alloc);
    for (number, group) in draft.groups.iter().enumerate() {
        let limit = float_at(point, draft.own.saturating_add(number));
        if group.count != 1 {
            push_group(alloc, &mut all, task, draft, group, limit, point)?;
        } else if group.first < draft.children.len() {
            let cuts = &draft.children[group.first];
            if let Some(cut) = most_broken(cuts, CutKind::Bound, limit, point) {
                push_cut(&mut all, group.first, cut)?;
            }
        }
    }
    for (child, cuts) in draft.children.iter().enumerate() {
        if let Some(number) = most_broken(cuts, CutKind::Ray, 0.0, point) {
            push_cut(&mut all, child, number)?;
        }
    }
    Ok(all)
}

/// Adds the cuts of a kind about a child that aren't rows.
fn push_open(
    all: &mut HeldCuts,
    child: usize,
    kind: CutKind,
    cuts: &[FloatCut],
) -> Result<(), Memory> {
    for (number, cut) in cuts.iter().enumerate() {
        if cut.kind == kind && is_open(cut) {
            push_cut(all, child, number)?;
        }
    }
    Ok(())
}

/// All cuts that aren't rows; of groups the first and the last ones.
pub(crate) fn open(alloc: Global, draft: &Draft) -> Result<HeldCuts, Memory> {
    let mut all = HeldCuts::new(alloc);
    for group in &draft.groups {
        if group.count != 1 {
            let first = end_bounds(alloc, draft, group, true)?;
            push_sum(&mut all, draft, group, &first)?;
            let last = end_bounds(alloc, draft, group, false)?;
            push_sum(&mut all, draft, group, &last)?;
        } else if group.first < draft.children.len() {
            let cuts = &draft.children[group.first].cuts;
            push_open(&mut all, group.first, CutKind::Bound, cuts)?;
        }
    }
    for (child, cuts) in draft.children.iter().enumerate() {
        push_open(&mut all, child, CutKind::Ray, &cuts.cuts)?;
    }
    Ok(all)
}

/// The number at a place, 0 where there is none.
fn exact_at(numbers: &[Frac], place: usize) -> Frac {
    if place < numbers.len() {
        numbers[place]
    } else {
        Frac::zero()
    }
}

/// The value of a cut at an exact point.
fn exact_value(task: &Task, cut: &Cut, point: &[Frac]) -> Result<Frac, Passed> {
    let mut sum = cut.constant();
    for term in cut.form().terms() {
        let value = match place_of(task.datum.bounds(), term.column) {
            Some(place) => exact_at(point, place as usize),
            None => task.trial.get(term.column),
        };
        sum = sum.add_product(term.value, value)?;
    }
    Ok(sum)
}

/// Whether an exact point breaks a cut about the child at a place. One whose value passes isn't broken.
fn is_broken(task: &Task, child: usize, number: usize, limit: Frac, point: &[Frac]) -> bool {
    let Some(cut) = cut_at(&task.children, child, number) else {
        return false;
    };
    match exact_value(task, cut, point) {
        Ok(value) => value > limit,
        Err(_) => false,
    }
}

/// Adds the cuts of a kind about a child that an exact point breaks; those are looked at that floats can't tell from their limit.
fn push_broken(
    all: &mut HeldCuts,
    task: &Task,
    child: usize,
    kind: CutKind,
    cuts: &FloatCuts,
    limit: Frac,
    near: &[f64],
    point: &[Frac],
) -> Result<(), Memory> {
    let mut from = 0;
    let close = float(limit);
    for (number, cut) in cuts.cuts.iter().enumerate() {
        if cut.kind == kind && is_open(cut) {
            let sum = value_at(cut, &cuts.entries, from, near);
            if over(sum, close) > -NEAR && is_broken(task, child, number, limit, point) {
                push_cut(all, child, number)?;
            }
        }
        from = cut.end;
    }
    Ok(())
}

/// The numbers as floats.
fn floats(alloc: Global, numbers: &[Frac]) -> Result<Vec<f64>, Memory> {
    let mut all = Vec::with_capacity(alloc, numbers.len())?;
    for number in numbers {
        all.push(float(*number))?;
    }
    Ok(all)
}

/// A cut and its exact value.
#[derive(Clone, Copy)]
struct ExactBest {
    number: usize,
    value: Frac,
}

/// The cut that bounds a child's cost with the greatest value at an exact point; those are looked at that floats can't tell from it.
fn exactly_greatest(
    task: &Task,
    child: usize,
    cuts: &FloatCuts,
    near: &[f64],
    point: &[Frac],
) -> Result<Option<ExactBest>, Passed> {
    let Some(close) = greatest(cuts, near) else {
        return Ok(None);
    };
    let mut best: Option<ExactBest> = None;
    let mut from = 0;
    for (number, cut) in cuts.cuts.iter().enumerate() {
        if cut.kind == CutKind::Bound && cut.is_taken {
            let sum = value_at(cut, &cuts.entries, from, near);
            if over(sum, close.sum.value) > -NEAR {
                if let Some(whole) = cut_at(&task.children, child, number) {
                    let value = exact_value(task, whole, point)?;
                    let is_greater = match &best {
                        Some(other) => value > other.value,
                        None => true,
                    };
                    if is_greater {
                        best = Some(ExactBest { number, value });
                    }
                }
            }
        }
        from = cut.end;
    }
    Ok(best)
}

/// What an exact point breaks, and the costs of all children there.
#[derive(Drop)]
pub(crate) struct Tested {
    pub(crate) wanting: HeldCuts,
    pub(crate) costs: Vec<Frac>,
}

/// Adds the costs of a group's children, and their greatest cuts where these are above the group's cost.
fn test_group(
    alloc: Global,
    tested: &mut Tested,
    task: &Task,
    draft: &Draft,
    group: &Group,
    limit: Frac,
    near: &[f64],
    point: &[Frac],
) -> Result<(), ArithmeticFault> {
    let mut numbers = Vec::with_capacity(alloc, group.count)?;
    let mut sum = Frac::zero();
    for (place, cuts) in draft
        .children
        .iter()
        .enumerate()
        .skip(group.first)
        .take(group.count)
    {
        match exactly_greatest(task, place, cuts, near, point)? {
            Some(best) => {
                sum = sum.add_product(group_factor(task, group, place), best.value)?;
                tested.costs.push(best.value)?;
                if let Ok(number) = u32::try_from(best.number) {
                    numbers.push(number)?;
                }
            }
            None => tested.costs.push(Frac::zero())?,
        }
    }
    if sum > limit && numbers.len() == group.count {
        push_sum(&mut tested.wanting, draft, group, &numbers)?;
    }
    Ok(())
}

/// Tests an exact point.
pub(crate) fn exactly_tested(
    alloc: Global,
    task: &Task,
    draft: &Draft,
    point: &[Frac],
) -> Result<Tested, ArithmeticFault> {
    let near = floats(alloc, point)?;
    let mut tested = Tested {
        wanting: HeldCuts::new(alloc),
        costs: Vec::new(alloc),
    };
    for (number, group) in draft.groups.iter().enumerate() {
        let limit = exact_at(point, draft.own.saturating_add(number));
        if group.count != 1 {
            test_group(alloc, &mut tested, task, draft, group, limit, &near, point)?;
        } else if group.first < draft.children.len() {
            let cuts = &draft.children[group.first];
            let wanting = &mut tested.wanting;
            push_broken(
                wanting,
                task,
                group.first,
                CutKind::Bound,
                cuts,
                limit,
                &near,
                point,
            )?;
            tested.costs.push(limit)?;
        }
    }
    let zero = Frac::zero();
    for (child, cuts) in draft.children.iter().enumerate() {
        push_broken(
            &mut tested.wanting,
            task,
            child,
            CutKind::Ray,
            cuts,
            zero,
            &near,
            point,
        )?;
    }
    Ok(tested)
}
