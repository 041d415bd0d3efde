//! Rows of a tableau.
ghost use Rattle.std.specs.Prelude.{◌≡◌, []};
ghost use Rattle.lp_defs.specs.Path.{cleared_rows};
ghost use Rattle.simplex_core.specs.Gives.{Gives, less_row};

use crate::line::Line;
use crate::sign::is_zero;
use frac128::{ArithmeticFault, Frac, Term};
use std::marker::Model;

/// A row of a tableau and its basic column.
#[derive(Drop)]
pub struct Row {
    basic: u64,
    line: Line,
}

impl Model for Row {
    ghost use Rattle.lp_defs.specs.Path.{Row};

    ghost Value = { Row };

    ghost view = { λ r. record { basic = r.basic; line = r.line } };
}

impl Row {
    pub fn new(basic: u64, line: Line) -> Row
        ensures { result ≡ record { basic = basic; line = line } }
    {
        Row { basic, line }
    }

    pub fn basic(&self) -> u64
        ensures { result ≡ self.now.basic }
    {
        self.basic
    }

    pub fn line(&self) -> &Line
        ensures { result.now ≡ self.now.line }
    {
        &self.line
    }

    pub fn into_line(self) -> Line
        ensures { result ≡ self.line }
    {
        self.line
    }

    /// Takes `factor` times the pivot's row away, where `factor` isn't 0.
    pub fn clear(
        &mut self,
        factor: Frac,
        pivot: &Line,
        spare: &mut Vec<Term>,
    ) -> Result<(), ArithmeticFault>
        ensures { Gives (less_row factor pivot.now self.old) result self.new }
    {
        self.line.clear(factor, pivot, spare)
    }
}

/// Clears a column of all rows. Rows that have nothing there aren't called: most have nothing.
pub fn clear_all(
    rows: &mut [Row],
    column: u64,
    pivot: &Line,
    spare: &mut Vec<Term>,
) -> Result<(), ArithmeticFault>
    ensures { Gives (cleared_rows column pivot.now rows.old []) result rows.new }
{
    for k in 0..rows.len() {
        let factor = rows[k].line().value_at(column);
        if !is_zero(factor) {
            rows[k].clear(factor, pivot, spare)?;
        }
    }
    Ok(())
}
