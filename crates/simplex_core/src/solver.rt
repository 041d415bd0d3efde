//! Solves a program.
ghost use Rattle.std.specs.Prelude.{◌≡◌, ◌≤◌, ◌+◌, ◌-◌, ◌*◌, ◌^◌, length, IfOk};
ghost use Rattle.lp_defs.specs.Basis.{point, ray};
ghost use Rattle.lp_defs.specs.Path.{Done, path};
ghost use Rattle.lp_defs.specs.Phases.{driven, unit_duals};
ghost use Rattle.lp_defs.specs.Placed.{BasicsDiffer};
ghost use Rattle.lp_defs.specs.Program.{EndsInUnits};
ghost use Rattle.lp_defs.specs.Solution.{Optimum, Endless, first_end, between, second, second_end, solution};
ghost use Rattle.lp_defs.specs.Stages.{First, Driving, DrivenOut, Second};
ghost use Rattle.lp_defs.specs.Trace.{NotIn};
ghost use Rattle.simplex_core.specs.Told.{Tells, TellsFault, Shows, IsNotInfeasible, IsNotPivotsEnded};

use crate::costs::first_objective;
use crate::drive::{Driven, drive, has_artificial_above};
use crate::duals::{first_duals, unit_duals};
use crate::outcome::Outcome;
use crate::point::{point, ray};
use crate::standard::Standard;
use crate::start::{artificial_rows, price};
use crate::tableau::{End, Tableau};
use frac128::{ArithmeticFault, Memory, Term};
use std::alloc::Global;

/// The outcome at a fault in a pivot.
fn stopped(fault: ArithmeticFault, pivot: u64) -> Result<Outcome, Memory>
    ensures { TellsFault fault pivot result }
{
    match fault {
        ArithmeticFault::Passed(passed) => Ok(Outcome::Passed(pivot, passed)),
        ArithmeticFault::Memory => Err(Memory),
    }
}

/// The outcome at an optimal tableau: its point, and the duals of its objective row.
fn optimal(alloc: Global, program: &Standard, tableau: &Tableau) -> Result<Outcome, Memory>
    requires { BasicsDiffer tableau.now.rows }
    ensures { IfOk result (Tells (Optimum (point tableau.now.rows)
        (unit_duals program.now.columns (length program.now.rows) tableau.now.objective))) }
{
    let point = point(alloc, tableau.rows())?;
    let count = program.rows().len() as u64;
    let duals = unit_duals(alloc, tableau.objective(), program.columns(), count)?;
    Ok(Outcome::Optimal { point, duals })
}

/// The outcome where a column may grow without end: the tableau's point, and the ray along the column.
fn unbounded(alloc: Global, tableau: &Tableau, column: u64) -> Result<Outcome, Memory>
    requires differ { BasicsDiffer tableau.now.rows }
    requires apart { NotIn column tableau.now.rows }
    ensures { IfOk result (Tells (Endless (point tableau.now.rows) (ray column tableau.now.rows))) }
{
    let point = point(alloc, tableau.rows())?;
    let ray = ray(alloc, tableau.rows(), column)?;
    Ok(Outcome::Unbounded { point, ray })
}

/// Follows the path of phase two to its end.
fn finish(
    alloc: Global,
    program: &Standard,
    mut tableau: Tableau,
    pivots: u64,
    made: u64,
    spare: &mut Vec<Term>,
) -> Result<Outcome, Memory>
    requires within { made ≤ pivots }
    requires ready { Second program.now tableau }
    ensures { IfOk result (Tells (second_end program.now (path program.now.columns (pivots - made) made tableau))) }
{
    match tableau.follow(program.columns(), pivots, made, spare)? {
        End::Done(_last) => optimal(alloc, program, &tableau),
        End::Open(column) => unbounded(alloc, &tableau, column),
        End::PivotsEnded => Ok(Outcome::PivotsEnded),
        End::Passed(pivot, passed) => Ok(Outcome::Passed(pivot, passed)),
    }
}

/// Phase two: its objective row, which counts to the pivot before it, and its path.
fn second_phase(
    alloc: Global,
    program: &Standard,
    tableau: Tableau,
    pivots: u64,
    made: u64,
    spare: &mut Vec<Term>,
) -> Result<Outcome, Memory>
    requires within { made ≤ pivots }
    requires ready { DrivenOut program.now tableau }
    ensures { IfOk result (Tells (second program.now pivots made tableau)) }
{
    let _columns = program.columns();
    match price(alloc, program.cost().terms(), tableau.rows(), spare) {
        Ok(objective) => {
            let tableau = tableau.with_objective(objective);
            finish(alloc, program, tableau, pivots, made, spare)
        }
        Err(fault) => stopped(fault, made),
    }
}

/// The pivots on artificial columns that are left, and phase two.
fn drive_out(
    alloc: Global,
    program: &Standard,
    mut tableau: Tableau,
    pivots: u64,
    made: u64,
    spare: &mut Vec<Term>,
) -> Result<Outcome, Memory>
    requires within { made ≤ pivots }
    requires ready { Driving program.now tableau }
    ensures { IfOk result (Tells (between program.now pivots
        (driven program.now.columns (length tableau.rows) 0 (pivots - made) made tableau))) }
{
    match drive(&mut tableau, program.columns(), pivots, made, spare)? {
        Driven::Out(last) => second_phase(alloc, program, tableau, pivots, last, spare),
        Driven::PivotsEnded => Ok(Outcome::PivotsEnded),
        Driven::Passed(pivot, passed) => Ok(Outcome::Passed(pivot, passed)),
    }
}

/// Behind phase one: its duals where an artificial column is basic above 0.
fn feasible_or_not(
    alloc: Global,
    program: &Standard,
    tableau: Tableau,
    pivots: u64,
    made: u64,
    spare: &mut Vec<Term>,
) -> Result<Outcome, Memory>
    requires within { made ≤ pivots }
    requires ready { First program.now tableau }
    ensures { IfOk result (Tells (first_end program.now pivots (Done made tableau))) }
{
    let columns = program.columns();
    if !has_artificial_above(tableau.rows(), columns) {
        return drive_out(alloc, program, tableau, pivots, made, spare);
    }
    let count = program.rows().len() as u64;
    match first_duals(alloc, tableau.objective(), columns, count) {
        Ok(duals) => Ok(Outcome::Infeasible { duals }),
        Err(fault) => stopped(fault, made),
    }
}

/// Follows the path of phase one to its end, and what comes behind it.
fn first_phase(
    alloc: Global,
    program: &Standard,
    mut tableau: Tableau,
    pivots: u64,
    spare: &mut Vec<Term>,
) -> Result<Outcome, Memory>
    requires { First program.now tableau }
    ensures { IfOk result (Tells (first_end program.now pivots (path program.now.columns pivots 0 tableau))) }
{
    match tableau.follow(program.columns(), pivots, 0, spare)? {
        End::Done(made) => feasible_or_not(alloc, program, tableau, pivots, made, spare),
        End::Open(_column) => unreachable!("the sum of the artificial columns is at least 0"),
        End::PivotsEnded => Ok(Outcome::PivotsEnded),
        End::Passed(pivot, passed) => Ok(Outcome::Passed(pivot, passed)),
    }
}

/// The whole path, from the artificial columns on.
fn answer(alloc: Global, program: &Standard, pivots: u64) -> Result<Outcome, Memory>
    ensures { IfOk result (Tells (solution program.now pivots)) }
{
    let columns = program.columns();
    let count = program.rows().len() as u64;
    let rows = artificial_rows(alloc, program.rows(), program.right(), columns)?;
    match first_objective(alloc, rows.as_slice(), columns, count) {
        Ok(objective) => {
            let tableau = Tableau::new(rows, objective);
            let mut spare = Vec::new(alloc);
            first_phase(alloc, program, tableau, pivots, &mut spare)
        }
        Err(fault) => stopped(fault, 0),
    }
}

/// Minimises a program by the simplex method in two phases with Bland's rule (Bland 1977), in at most
/// `pivots` pivots.
///
/// Each row gets an artificial column, numbered after all others; they are the first basis. Phase one
/// minimises their sum. The entering column is the least that isn't artificial with a reduced cost below 0.
/// The leaving row has the least quotient of right side and entry among entries above 0; among equals, the
/// least basic column. Where an artificial column is basic above 0 at its end, the outcome is `Infeasible`; a
/// dual is 1 less the reduced cost of its row's artificial column. Else each row in order whose basic column is artificial is pivoted
/// on its least nonzero column that isn't, where it has one. Phase two minimises the cost by the same
/// rules; a dual is the negative reduced cost of its row's artificial column.
///
/// A pivot takes the quotients of the ratio test by row, then the pivot row's entries by column and its
/// right side, each divided by the pivot, then for each other row in order each entry by column and the right
/// side, and last each entry of the objective row by column, less factor times pivot row. Each of these
/// differences is a step: only its value has to fit. The objective row has no right side. Phase one's objective row is the
/// artificial costs less each row in order, phase two's the costs less, for each row in order, its basic
/// column's cost times the row. The first of all these operations that passes 128 bits ends the path:
/// `Passed` has it and the number of its pivot. The rows made before the first pivot count to 0; phase two's
/// objective row counts to the pivot before it, and so do the duals of phase one.
///
/// All pivots are counted together. `PivotsEnded` comes exactly where the path has more of them than
/// `pivots`, and no operation up to the last of these passes. A path never has more than twice as many
/// pivots as there are sets of columns and artificial columns, and one more for each row.
pub fn solve(alloc: Global, program: &Standard, pivots: u64) -> Result<Outcome, Memory>
    ensures exact { IfOk result (Tells (solution program.now pivots)) }
    ensures certified { IfOk result (Shows program.now) }
    ensures feasible { EndsInUnits program.now → IfOk result IsNotInfeasible }
    ensures bounded { 2 * 2 ^ (program.now.columns + length program.now.rows) + length program.now.rows ≤ pivots
        → IfOk result IsNotPivotsEnded }
{
    let _columns = program.columns();
    let outcome = answer(alloc, program, pivots)?;
    Ok(outcome)
}
