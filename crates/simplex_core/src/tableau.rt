//! Tableaus, and the path from one to the next.
ghost use Rattle.std.specs.Prelude.{◌≡◌, ◌≢◌, ◌<◌, ◌≤◌, ◌-◌, length, IfOk, None};
ghost use Rattle.rationals.specs.Rational.{zero_ℚ};
ghost use Rattle.lp_defs.specs.Lines.{value_at};
ghost use Rattle.lp_defs.specs.Path.{Tableau, Row, entering, pivoted, path, row_at};
ghost use Rattle.simplex_core.specs.Gives.{Gives};
ghost use Rattle.simplex_core.specs.Reached.{Steps, Stops, Reached, EndsWithin};

use crate::choice::{has_above_zero, leave};
use crate::entries::Entries;
use crate::row::{Row, clear_all};
use crate::sign::is_below_zero;
use frac128::{ArithmeticFault, Memory, Passed, Term};
use std::marker::Model;

/// What one step does.
#[derive(Drop)]
pub enum Step {
    /// No column enters.
    Done,
    /// This column enters, and no row bounds it.
    Open(u64),
    Pivoted,
}

/// How a path ends.
#[derive(Drop)]
pub enum End {
    /// After so many pivots no column enters.
    Done(u64),
    /// This column enters, and no row bounds it.
    Open(u64),
    /// One more pivot than allowed would follow.
    PivotsEnded,
    /// In the pivot of this number.
    Passed(u64, Passed),
}

/// The rows with their basic columns, and the objective row: the reduced costs, with no right side.
#[derive(Drop)]
pub struct Tableau {
    rows: Vec<Row>,
    objective: Entries,
}

impl Model for Tableau {
    ghost use Rattle.lp_defs.specs.Path.{Tableau};

    ghost Value = { Tableau };

    ghost view = { λ t. record { rows = t.rows.items; objective = t.objective } };
}

/// The least column below `columns` with a reduced cost below 0.
fn enter(entries: &[Term], columns: u64) -> Option<u64>
    ensures { result ≡ entering columns entries.now }
{
    for term in entries {
        if is_below_zero(term.value) && term.column < columns {
            return Some(term.column);
        }
    }
    None
}

/// How a path ends at a fault in a pivot.
fn stopped(fault: ArithmeticFault, pivot: u64) -> Result<End, Memory>
    ensures { Stops fault pivot result }
{
    match fault {
        ArithmeticFault::Passed(passed) => Ok(End::Passed(pivot, passed)),
        ArithmeticFault::Memory => Err(Memory),
    }
}

impl Tableau {
    pub fn new(rows: Vec<Row>, objective: Entries) -> Tableau
        ensures { result ≡ record { rows = rows.items; objective = objective } }
    {
        Tableau { rows, objective }
    }

    pub fn rows(&self) -> &[Row]
        ensures { result.now ≡ self.now.rows }
    {
        self.rows.as_slice()
    }

    pub fn objective(&self) -> &Entries
        ensures { result.now ≡ self.now.objective }
    {
        &self.objective
    }

    /// The rows with another objective row.
    pub fn with_objective(self, objective: Entries) -> Tableau
        ensures { result ≡ record { rows = self.rows; objective = objective } }
    {
        Tableau {
            rows: self.rows,
            objective,
        }
    }

    /// Makes `column` basic in the row at `index`.
    pub fn pivot(
        &mut self,
        column: u64,
        index: usize,
        spare: &mut Vec<Term>,
    ) -> Result<(), ArithmeticFault>
        requires within { index < length self.old.rows }
        requires nonzero { value_at (row_at self.old.rows index).line.entries column ≢ zero_ℚ }
        ensures { Gives (pivoted column index self.old) result self.new }
    {
        let mut pivot = self.rows.remove(index).into_line();
        pivot.divide(pivot.value_at(column))?;
        clear_all(self.rows.as_mut_slice(), column, &pivot, spare)?;
        let factor = self.objective.value_at(column);
        self.objective.clear(factor, pivot.entries(), spare)?;
        self.rows.insert(index, Row::new(column, pivot))?;
        Ok(())
    }

    /// One pivot by Bland's rule, where there is one.
    fn step(&mut self, columns: u64, spare: &mut Vec<Term>) -> Result<Step, ArithmeticFault>
        ensures { Steps columns self.old result self.new }
    {
        let Some(column) = enter(self.objective.terms(), columns) else {
            return Ok(Step::Done);
        };
        let Some(best) = leave(self.rows.as_slice(), column)? else {
            return Ok(Step::Open(column));
        };
        self.pivot(column, best.index, spare)?;
        Ok(Step::Pivoted)
    }

    /// How the path ends where no pivot is left.
    fn end(&self, columns: u64, made: u64) -> End
        ensures { Reached (path columns 0 made self.now) result self.now }
    {
        match enter(self.objective.terms(), columns) {
            None => End::Done(made),
            Some(column) => {
                if has_above_zero(self.rows.as_slice(), column) {
                    End::PivotsEnded
                } else {
                    End::Open(column)
                }
            }
        }
    }

    /// Follows the path, of which `made` pivots are made, to its end or up to pivot number `pivots`.
    pub fn follow(
        &mut self,
        columns: u64,
        pivots: u64,
        made: u64,
        spare: &mut Vec<Term>,
    ) -> Result<End, Memory>
        requires { made ≤ pivots }
        ensures reached { IfOk result (λ end. Reached (path columns (pivots - made) made self.old) end self.new) }
        ensures within { IfOk result (EndsWithin pivots) }
    {
        for before in made..pivots {
            match self.step(columns, spare) {
                Ok(Step::Done) => return Ok(End::Done(before)),
                Ok(Step::Open(column)) => return Ok(End::Open(column)),
                Ok(Step::Pivoted) => {}
                Err(fault) => return stopped(fault, before + 1),
            }
        }
        Ok(self.end(columns, pivots))
    }
}
