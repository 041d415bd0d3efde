//! What is guessed, in the form in which it is tested.
ghost use Rattle.std.specs.Prelude.{IsTrue};
ghost use Rattle.rationals.specs.Sparse.{Ascending};
ghost use Rattle.rationals.specs.Forms.{EndsBelow};

use cut_defs::ColumnBounds;
use frac128::{ArithmeticFault, Form, Frac, Memory, Passed, Term};
use node_draft::{Draft, FloatCut, FloatCuts, HeldCut, group_at, group_factor};
use node_lp::{Guess, Multipliers, Task};
use scen_defs::NodeRow;
use std::alloc::Global;

/// Whether a column is above the last one.
#[tactic(auto, using(cut_sums::proofs::TallyLaws::ends_below))]
fn is_above(terms: &[Term], column: u64) -> bool
    requires { Ascending 0 terms.now }
    ensures { IsTrue result → EndsBelow column terms.now }
{
    let len = terms.len();
    if len == 0 {
        return true;
    }
    let last = terms[len - 1];
    last.column < column
}

/// Adds a number in a column above all others, unless it is 0.
fn put(form: &mut Form, column: u64, value: Frac) -> Result<(), Memory> {
    form.keeps_order();
    if !value.is_zero() && is_above(form.terms(), column) {
        form.push(column, value)?;
    }
    Ok(())
}

/// The numbers of the own columns that aren't 0.
fn own_point(alloc: Global, bounds: &[ColumnBounds], point: &[Frac]) -> Result<Form, Memory> {
    let mut form = Form::empty(alloc);
    for (bound, value) in bounds.iter().zip(point.iter()) {
        put(&mut form, bound.column as u64, *value)?;
    }
    Ok(form)
}

/// The multipliers of the own rows that aren't 0.
fn own_multipliers(alloc: Global, rows: &[NodeRow], numbers: &[Frac]) -> Result<Form, Memory> {
    let mut form = Form::empty(alloc);
    for (row, value) in rows.iter().zip(numbers.iter()) {
        put(&mut form, row.row as u64, *value)?;
    }
    Ok(form)
}

/// The number at a place, 0 where there is none.
fn at(numbers: &[Frac], place: usize) -> Frac {
    if place < numbers.len() {
        numbers[place]
    } else {
        Frac::zero()
    }
}

/// How many of these cuts the program takes.
fn taken_count(cuts: &[FloatCut]) -> usize {
    let mut count: usize = 0;
    for cut in cuts {
        if cut.is_taken {
            count = count.saturating_add(1);
        }
    }
    count
}

/// How many of the cuts before one the program takes.
fn taken_before(cuts: &[FloatCut], number: usize) -> usize {
    if number <= cuts.len() {
        taken_count(&cuts[..number])
    } else {
        0
    }
}

/// Where the weights of the cuts about each child begin, and behind all children how many there are.
fn starts(alloc: Global, children: &[FloatCuts]) -> Result<Vec<usize>, Memory> {
    let mut all = Vec::with_capacity(alloc, children.len().saturating_add(1))?;
    let mut count: usize = 0;
    for child in children {
        all.push(count)?;
        count = count.saturating_add(taken_count(&child.cuts));
    }
    all.push(count)?;
    Ok(all)
}

/// The place of a cut's weight.
fn weight_place(draft: &Draft, starts: &[usize], child: usize, number: usize) -> usize {
    if child < starts.len() && child < draft.children.len() {
        starts[child].saturating_add(taken_before(&draft.children[child].cuts, number))
    } else {
        usize::MAX
    }
}

/// Adds to a number of a list.
fn add_at(list: &mut [Frac], place: usize, by: Frac, value: Frac) -> Result<(), Passed> {
    if place < list.len() {
        list[place] = list[place].add_product(by, value)?;
    }
    Ok(())
}

/// By what the cut about a child counts in a row of so many cuts that begins at another one.
fn factor_in(task: &Task, draft: &Draft, first: usize, count: usize, child: usize) -> Frac {
    match group_at(&draft.groups, first, count) {
        Some(number) if count != 1 && number < draft.groups.len() => {
            group_factor(task, &draft.groups[number], child)
        }
        _ => Frac::one(),
    }
}

/// Adds the weights of a row's cuts.
fn add_weights(
    all: &mut [Frac],
    task: &Task,
    draft: &Draft,
    starts: &[usize],
    held: &HeldCut,
    multiplier: Frac,
) -> Result<(), Passed> {
    let first = held.child as usize;
    let cuts = draft.held.numbers_of(held);
    for (place, number) in cuts.iter().enumerate() {
        let child = first.saturating_add(place);
        let by = factor_in(task, draft, first, cuts.len(), child);
        let at = weight_place(draft, starts, child, *number as usize);
        add_at(all, at, by, multiplier)?;
    }
    Ok(())
}

/// The weights of all cuts that the program takes, child by child.
fn weights(
    alloc: Global,
    task: &Task,
    draft: &Draft,
    numbers: &[Frac],
) -> Result<Vec<Frac>, ArithmeticFault> {
    let starts = starts(alloc, &draft.children)?;
    let count = match starts.last() {
        Some(count) => *count,
        None => 0,
    };
    let mut all = Vec::new(alloc);
    all.resize(count, Frac::zero())?;
    for (row, held) in draft.held.rows.iter().enumerate() {
        let multiplier = at(numbers, draft.rows.saturating_add(row));
        if !multiplier.is_zero() {
            add_weights(&mut all, task, draft, &starts, held, multiplier)?;
        }
    }
    Ok(all)
}

/// The multipliers and weights of the rows' numbers.
fn multipliers(
    alloc: Global,
    task: &Task,
    draft: &Draft,
    numbers: &[Frac],
) -> Result<Multipliers, ArithmeticFault> {
    let rows = own_multipliers(alloc, task.datum.rows(), numbers)?;
    let weights = weights(alloc, task, draft, numbers)?;
    Ok(Multipliers { rows, weights })
}

/// A point with its children's costs, and the multipliers that show that none is cheaper.
pub(crate) fn point_guess(
    alloc: Global,
    task: &Task,
    draft: &Draft,
    numbers: &[Frac],
    costs: Vec<Frac>,
    duals: &[Frac],
) -> Result<Guess, ArithmeticFault> {
    let point = own_point(alloc, task.datum.bounds(), numbers)?;
    let multipliers = multipliers(alloc, task, draft, duals)?;
    Ok(Guess::Point {
        point,
        costs,
        multipliers,
    })
}

/// A point of a node without children, with the multipliers that show that none is cheaper.
pub(crate) fn lone_guess(
    alloc: Global,
    task: &Task,
    numbers: &[Frac],
    duals: &[Frac],
) -> Result<Guess, Memory> {
    let point = own_point(alloc, task.datum.bounds(), numbers)?;
    let rows = own_multipliers(alloc, task.datum.rows(), duals)?;
    Ok(Guess::Point {
        point,
        costs: Vec::new(alloc),
        multipliers: Multipliers {
            rows,
            weights: Vec::new(alloc),
        },
    })
}

/// Multipliers that show that there is no point.
pub(crate) fn ray_guess(
    alloc: Global,
    task: &Task,
    draft: &Draft,
    numbers: &[Frac],
) -> Result<Guess, ArithmeticFault> {
    Ok(Guess::NoPoint(multipliers(alloc, task, draft, numbers)?))
}
