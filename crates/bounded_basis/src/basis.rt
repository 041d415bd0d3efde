//! A basis of a program, with all that is known beside it.

use crate::inverse::Inverse;
use crate::program::{FloatProgram, Standing, narrow};
use crate::spots::{NOWHERE, Spot, set_standing, spot_at, spot_of};
use crate::turned::Turned;
use crate::vectors::constant;
use std::alloc::{AllocError, Global};

/// The basic columns by position, the values and reduced costs of all columns, and the row of the tableau that was
/// made last.
#[derive(Drop)]
pub struct Basis {
    /// Of the columns and then of the rows' activities.
    pub spots: Vec<Spot>,
    /// The basic columns.
    pub head: Vec<u32>,
    pub inverse: Inverse,
    /// The program's entries by column.
    pub turned: Turned,
    /// A right side by row, 0 between two solves, and the rows that may be other than 0.
    pub right: Vec<f64>,
    pub given: Vec<u32>,
    /// Costs by position, 0 between two solves, and the positions that may be other than 0.
    pub costs: Vec<f64>,
    pub wanted: Vec<u32>,
    /// The row of the tableau by column, and its columns that may be other than 0.
    pub alpha: Vec<f64>,
    pub touched: Vec<u32>,
    /// How many columns there are, without the rows' activities, and how many entries.
    pub columns: usize,
    pub entries: usize,
    /// What is left of the work that is allowed: one for each entry that is looked at.
    pub work_left: u64,
}

/// How a column is to stand. Where the list ends before it, a row's activity is basic, and other columns aren't.
fn standing_of(program: &FloatProgram, standings: &[Standing], column: usize) -> Standing {
    if column < standings.len() {
        standings[column]
    } else if column < program.column_count() {
        program.rest(column)
    } else {
        Standing::Basic
    }
}

impl Basis {
    /// The columns that are to be basic, as many as there are rows, and activities of rows where they are too few.
    /// It isn't factored yet.
    pub fn new(
        alloc: Global,
        program: &FloatProgram,
        standings: &[Standing],
        work: u64,
    ) -> Result<Basis, AllocError> {
        let turned = Turned::of(alloc, program)?;
        let mut basis = Basis {
            spots: Vec::new(alloc),
            head: Vec::new(alloc),
            inverse: Inverse::new(alloc),
            entries: turned.len(),
            turned,
            right: Vec::new(alloc),
            given: Vec::new(alloc),
            costs: Vec::new(alloc),
            wanted: Vec::new(alloc),
            alpha: Vec::new(alloc),
            touched: Vec::new(alloc),
            columns: program.column_count(),
            work_left: work,
        };
        basis.prepare(alloc, program, standings)?;
        Ok(basis)
    }

    fn prepare(
        &mut self,
        alloc: Global,
        program: &FloatProgram,
        standings: &[Standing],
    ) -> Result<(), AllocError> {
        let rows = program.row_count();
        let all = self.columns.saturating_add(rows);
        self.right = constant(alloc, 0.0, rows)?;
        self.costs = constant(alloc, 0.0, rows)?;
        self.alpha = constant(alloc, 0.0, all)?;
        self.take_columns(program, standings, all, rows)?;
        self.fill_up(rows)
    }

    /// Takes all columns as they are to stand; no more basic ones than there are rows.
    fn take_columns(
        &mut self,
        program: &FloatProgram,
        standings: &[Standing],
        all: usize,
        rows: usize,
    ) -> Result<(), AllocError> {
        for column in 0..all {
            let standing = standing_of(program, standings, column);
            let mut taken = spot_of(program, column, standing);
            if taken.is_basic() && self.head.len() >= rows {
                taken.standing = taken.rest();
            }
            if taken.is_basic() {
                self.head.push(narrow(column))?;
            }
            self.spots.push(taken)?;
        }
        Ok(())
    }

    /// Makes activities of rows basic until there are enough.
    fn fill_up(&mut self, rows: usize) -> Result<(), AllocError> {
        for row in 0..rows {
            let column = self.columns.saturating_add(row);
            if self.head.len() < rows && !self.spot(column).is_basic() {
                set_standing(&mut self.spots, column, Standing::Basic, 0.0);
                self.head.push(narrow(column))?;
            }
        }
        Ok(())
    }

    /// What is known of a column.
    #[inline(always)]
    pub fn spot(&self, column: usize) -> Spot {
        spot_at(&self.spots, column)
    }

    /// The basic column at a position.
    #[inline(always)]
    pub fn at(&self, position: usize) -> usize {
        if position < self.head.len() {
            self.head[position] as usize
        } else {
            usize::MAX
        }
    }

    /// What is known of the basic column at a position.
    #[inline(always)]
    pub fn basic(&self, position: usize) -> Spot {
        if position < self.head.len() {
            spot_at(&self.spots, self.head[position] as usize)
        } else {
            NOWHERE
        }
    }

    /// Takes work off what is left, at least 1.
    pub fn spend(&mut self, work: usize) {
        let work = (work as u64).saturating_add(1);
        self.work_left = self.work_left.saturating_sub(work);
    }

    /// Whether no work is left.
    pub fn is_spent(&self) -> bool {
        self.work_left == 0
    }

    /// Whether the basis had better be factored anew.
    pub fn is_due(&self) -> bool {
        self.inverse.is_due(self.head.len())
    }

    /// Whether all basic columns are within their bounds.
    pub fn is_feasible(&self) -> bool {
        for column in &self.head {
            if self.spot(*column as usize).excess() != 0.0 {
                return false;
            }
        }
        true
    }

    /// Whether no reduced cost has the wrong sign.
    pub fn is_priced(&self, tolerance: f64) -> bool {
        for spot in &self.spots {
            if spot.is_wrong(tolerance) {
                return false;
            }
        }
        true
    }
}
