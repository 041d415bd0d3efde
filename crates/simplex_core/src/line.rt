//! Lines of a tableau.
ghost use Rattle.std.specs.Prelude.{◌≡◌, ◌≢◌};
ghost use Rattle.rationals.specs.Rational.{zero_ℚ};
ghost use Rattle.lp_defs.specs.Lines.{value_at, divided, cleared_by};
ghost use Rattle.simplex_core.specs.Gives.{Gives};

use crate::entries::{Entries, over};
use crate::sign::is_zero;
use frac128::{ArithmeticFault, Frac, Term};
use std::marker::Model;

/// A sparse row of a tableau with its right side.
#[derive(Drop)]
pub struct Line {
    entries: Entries,
    right: Frac,
}

impl Model for Line {
    ghost use Rattle.lp_defs.specs.Lines.{Line};

    ghost Value = { Line };

    ghost view = { λ l. record { entries = l.entries; right = l.right } };
}

impl Line {
    pub fn new(entries: Entries, right: Frac) -> Line
        ensures { result ≡ record { entries = entries; right = right } }
    {
        Line { entries, right }
    }

    pub fn entries(&self) -> &Entries
        ensures { result.now ≡ self.now.entries }
    {
        &self.entries
    }

    pub fn right(&self) -> Frac
        ensures { result ≡ self.now.right }
    {
        self.right
    }

    #[inline(always)]
    pub fn value_at(&self, column: u64) -> Frac
        ensures { result ≡ value_at self.now.entries column }
    {
        self.entries.value_at(column)
    }

    pub fn divide(&mut self, by: Frac) -> Result<(), ArithmeticFault>
        requires { by ≢ zero_ℚ }
        ensures { Gives (divided by self.old) result self.new }
    {
        self.entries.divide(by)?;
        self.right = over(self.right, by)?;
        Ok(())
    }

    /// Takes `factor` times the pivot's row away, where `factor` isn't 0.
    pub fn clear(
        &mut self,
        factor: Frac,
        pivot: &Line,
        spare: &mut Vec<Term>,
    ) -> Result<(), ArithmeticFault>
        ensures { Gives (cleared_by factor pivot.now self.old) result self.new }
    {
        if is_zero(factor) {
            return Ok(());
        }
        self.entries.subtract(factor, &pivot.entries, spare)?;
        self.right = self.right.less_product(factor, pivot.right)?;
        Ok(())
    }
}
