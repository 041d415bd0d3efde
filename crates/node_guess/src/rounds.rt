//! The guess: a basis in floats, round by round with the cuts that it breaks, and then its exact numbers.

use crate::answers::{point_guess, ray_guess};
use crate::broken::{Tested, broken, exactly_tested, open};
use basis_guess::{End, Ended, Standing, solve};
use basis_values::{Guessed, Solution, guess_from};
use frac128::{ArithmeticFault, Memory};
use node_draft::{Draft, HeldCuts, Hint, add_first, add_rows, first_draft, size_of};
use node_lp::{Guess, Task};
use std::alloc::Global;
use std::mem::replace;

/// So many times cuts become rows in one guess.
const ROUNDS: u32 = 200;

/// What a round comes to.
enum Next {
    /// Cuts have become rows.
    Again,
    /// What is guessed, if anything is.
    Ended(Option<Guess>),
}

/// The cuts that are wanting where floats end: those that the point breaks; all, where the cost falls for ever.
fn wanting(alloc: Global, task: &Task, draft: &Draft, ended: &Ended) -> Result<HeldCuts, Memory> {
    match ended.end {
        End::Optimal => broken(alloc, task, draft, &ended.point),
        End::Unbounded => open(alloc, draft),
        _ => Ok(HeldCuts::new(alloc)),
    }
}

/// What is guessed at exact numbers, unless these break a cut that isn't a row.
fn with_point(
    alloc: Global,
    task: &Task,
    draft: &mut Draft,
    solution: &Solution,
) -> Result<Next, ArithmeticFault> {
    let Tested { wanting, costs } = exactly_tested(alloc, task, draft, &solution.point)?;
    if !wanting.rows.is_empty() {
        add_rows(alloc, task, draft, &wanting)?;
        return Ok(Next::Again);
    }
    let guess = point_guess(
        alloc,
        task,
        draft,
        &solution.point,
        costs,
        &solution.multipliers,
    )?;
    Ok(Next::Ended(Some(guess)))
}

/// The exact numbers where floats end, and what they tell.
fn finish(
    alloc: Global,
    task: &Task,
    draft: &mut Draft,
    ended: Ended,
    work: &mut u64,
) -> Result<Next, ArithmeticFault> {
    match guess_from(alloc, &draft.program, ended, &mut draft.standings, work)? {
        Guessed::Optimal(solution) => with_point(alloc, task, draft, &solution),
        Guessed::Infeasible(numbers) => {
            let guess = ray_guess(alloc, task, draft, &numbers)?;
            Ok(Next::Ended(Some(guess)))
        }
        Guessed::Unbounded | Guessed::Nothing => Ok(Next::Ended(None)),
    }
}

/// Rows of cuts that are basic are rows no more.
fn shorten(alloc: Global, task: &Task, draft: &mut Draft) -> Result<(), ArithmeticFault> {
    let hint = hint_of(alloc, draft)?;
    draft.clear_cuts(alloc, task, &hint)?;
    add_first(alloc, task, draft, &hint)
}

/// Solves in floats; then cuts become rows, or it ends.
fn round(
    alloc: Global,
    task: &Task,
    draft: &mut Draft,
    work: &mut u64,
) -> Result<Next, ArithmeticFault> {
    let mut ended = solve(alloc, draft.program.floats(), &draft.standings, *work)?;
    *work = ended.work_left;
    let wanting = wanting(alloc, task, draft, &ended)?;
    if wanting.rows.is_empty() {
        return finish(alloc, task, draft, ended, work);
    }
    draft.standings = replace(&mut ended.standings, Vec::new(alloc));
    if draft.is_long() {
        shorten(alloc, task, draft)?;
    }
    add_rows(alloc, task, draft, &wanting)?;
    Ok(Next::Again)
}

/// Rounds until one ends.
fn rounds(
    alloc: Global,
    task: &Task,
    draft: &mut Draft,
    work: u64,
) -> Result<Option<Guess>, ArithmeticFault> {
    let mut left = work;
    for _round in 0..ROUNDS {
        match round(alloc, task, draft, &mut left)? {
            Next::Again => {}
            Next::Ended(guess) => {
                return Ok(guess);
            }
        }
    }
    Ok(None)
}

/// So many standings from a place on.
fn standings_from(
    alloc: Global,
    standings: &[Standing],
    from: usize,
    count: usize,
) -> Result<Vec<Standing>, Memory> {
    let mut all = Vec::new(alloc);
    for standing in standings.iter().skip(from).take(count) {
        all.push(*standing)?;
    }
    Ok(all)
}

/// The rows of cuts that aren't basic, whose standings begin at a place.
fn kept_cuts(alloc: Global, draft: &Draft, from: usize) -> Result<HeldCuts, Memory> {
    let mut all = HeldCuts::new(alloc);
    for (held, standing) in draft
        .held
        .rows
        .iter()
        .zip(draft.standings.iter().skip(from))
    {
        if *standing != Standing::Basic {
            all.push(held.child, draft.held.numbers_of(held), *standing)?;
        }
    }
    Ok(all)
}

/// What the node's next guess begins with.
fn hint_of(alloc: Global, draft: &Draft) -> Result<Hint, Memory> {
    let columns = draft.own.saturating_add(draft.groups.len());
    let all = columns.saturating_add(draft.rows);
    Ok(Hint {
        columns: standings_from(alloc, &draft.standings, 0, draft.own)?,
        costs: standings_from(alloc, &draft.standings, draft.own, draft.groups.len())?,
        rows: standings_from(alloc, &draft.standings, columns, draft.rows)?,
        cuts: kept_cuts(alloc, draft, all)?,
    })
}

/// What is guessed, and what the next guess begins with.
#[derive(Drop)]
pub(crate) struct Attempt {
    pub(crate) guess: Option<Guess>,
    pub(crate) hint: Option<Hint>,
}

/// A guess that begins with a hint, where no number passes; groups have so many children.
fn attempted(
    alloc: Global,
    task: &Task,
    hint: &Hint,
    work: u64,
    size: usize,
) -> Result<Attempt, ArithmeticFault> {
    let mut draft = first_draft(alloc, task, hint, size)?;
    add_first(alloc, task, &mut draft, hint)?;
    let guess = match rounds(alloc, task, &mut draft, work) {
        Ok(guess) => guess,
        Err(ArithmeticFault::Passed(_)) => None,
        Err(ArithmeticFault::Memory) => {
            return Err(ArithmeticFault::Memory);
        }
    };
    let hint = hint_of(alloc, &draft)?;
    Ok(Attempt {
        guess,
        hint: Some(hint),
    })
}

/// As `attempted`; none where a number passes.
fn tried(
    alloc: Global,
    task: &Task,
    hint: &Hint,
    work: u64,
    size: usize,
) -> Result<Attempt, Memory> {
    match attempted(alloc, task, hint, work, size) {
        Ok(attempt) => Ok(attempt),
        Err(ArithmeticFault::Passed(_)) => Ok(Attempt {
            guess: None,
            hint: None,
        }),
        Err(ArithmeticFault::Memory) => Err(Memory),
    }
}

/// A guess that takes so much work at most. There is none where a number passes or the work is spent. Where groups of children give none,
/// each child stands alone.
pub(crate) fn try_guess(
    alloc: Global,
    task: &Task,
    hint: Option<Hint>,
    work: u64,
) -> Result<Attempt, Memory> {
    let from = hint.unwrap_or(Hint::blank(alloc));
    let size = size_of(task.datum.shares().len());
    let first = tried(alloc, task, &from, work, size)?;
    if size == 1 || first.guess.is_some() {
        return Ok(first);
    }
    tried(alloc, task, &Hint::blank(alloc), work, 1)
}
