//! The linear program of a core file.
ghost use Rattle.std.specs.Prelude.{◌≡◌, map};
ghost use Rattle.core_defs.specs.Core.{IsCore};
ghost use Rattle.core_defs.specs.CoreProofs.{is_core_prop};

use crate::parts::{ColumnDef, RowDef};
use smps_words::{Name, Names};

/// A linear program with one objective, which is to be as small as possible.
#[derive(Drop)]
pub struct Core {
    /// The first N row.
    pub objective: Name,
    /// The N rows after the first, of which nothing is kept.
    pub skipped: Vec<Name>,
    /// The name of the set of right-hand sides.
    pub rhs_set: Name,
    /// The constraints, numbered from 0.
    pub rows: Vec<RowDef>,
    /// The columns, numbered from 0.
    pub columns: Vec<ColumnDef>,
    row_names: Names,
    column_names: Names,
    /// The names of the constraints are kept apart to be found.
    ghost rows_named: { row_names ≡ map (λ row. row.name) rows.items },
    /// The names of the columns are kept apart to be found.
    ghost columns_named: { column_names ≡ map (λ column. column.name) columns.items },
    /// What every core keeps.
    ghost keeps: { IsCore rows.items columns.items } by { is_core_prop rows.items columns.items },
}

impl Core {
    ghost use Rattle.smps_words.specs.Names.{place_of};
    ghost use Rattle.core_defs.specs.Core.{row_names, column_names};

    /// The core of these parts, with the names of the constraints and of the columns.
    pub fn of_parts(
        objective: Name,
        skipped: Vec<Name>,
        rhs_set: Name,
        rows: (Names, Vec<RowDef>),
        columns: (Names, Vec<ColumnDef>),
    ) -> Core
        requires rows { rows.0 ≡ row_names rows.1.items }
        requires columns { columns.0 ≡ column_names columns.1.items }
        requires keeps { IsCore rows.1.items columns.1.items }
        ensures objective { result.objective ≡ objective }
        ensures skipped { result.skipped ≡ skipped }
        ensures rhs_set { result.rhs_set ≡ rhs_set }
        ensures rows { result.rows ≡ rows.1 }
        ensures columns { result.columns ≡ columns.1 }
    {
        Core {
            objective,
            skipped,
            rhs_set,
            rows: rows.1,
            columns: columns.1,
            row_names: rows.0,
            column_names: columns.0,
        }
    }

    /// The number of the constraint with this name.
    pub fn row(&self, name: &[u8]) -> Option<u32>
        ensures { result ≡ place_of (row_names self.now.rows.items) name.now }
    {
        match self.row_names.place(name) {
            Some(place) => Some(place as u32),
            None => None,
        }
    }

    /// The number of the column with this name.
    pub fn column(&self, name: &[u8]) -> Option<u32>
        ensures { result ≡ place_of (column_names self.now.columns.items) name.now }
    {
        match self.column_names.place(name) {
            Some(place) => Some(place as u32),
            None => None,
        }
    }
}
