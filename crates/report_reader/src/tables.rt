//! The names of a program by number.
ghost use Rattle.std.specs.Prelude.{◌≡◌, IfOk};
ghost use Rattle.scen_defs.specs.Valid.{Differ};
ghost use Rattle.scen_defs.specs.Names.{column_names, row_names};
ghost use Rattle.report_reader.specs.Lines.{names_of};
ghost use Rattle.report_reader.specs.Reports.{tables_of};

use crate::draft::ListKind;
use frac128::Memory;
use scen_defs::Program;
use smps_words::Names;
use std::alloc::Global;

/// The names of the columns and of the rows, and how many reports there may be.
#[derive(Drop)]
pub(crate) struct Tables {
    pub columns: Names,
    pub rows: Names,
    pub most: u32,
}

/// The names of the numbers in a list.
pub(crate) fn names_of(tables: &Tables, kind: ListKind) -> &Names
    ensures { result.now ≡ names_of tables.now kind }
{
    match kind {
        ListKind::Policy => &tables.columns,
        ListKind::Direction => &tables.columns,
        ListKind::Dual => &tables.rows,
        ListKind::Ray => &tables.rows,
    }
}

fn column_table(alloc: Global, program: &Program) -> Result<Names, Memory>
    requires { Differ (column_names program.now.columns.items) }
    ensures { IfOk result (λ names. names ≡ column_names program.now.columns.items) }
{
    let mut names = Names::empty(alloc);
    for column in &program.columns {
        names.add(column.name.as_bytes())?;
    }
    Ok(names)
}

fn row_table(alloc: Global, program: &Program) -> Result<Names, Memory>
    requires { Differ (row_names program.now.rows.items) }
    ensures { IfOk result (λ names. names ≡ row_names program.now.rows.items) }
{
    let mut names = Names::empty(alloc);
    for row in &program.rows {
        names.add(row.name.as_bytes())?;
    }
    Ok(names)
}

/// The names of a program, of which so many reports may be there.
pub(crate) fn tables_of(alloc: Global, program: &Program, most: u32) -> Result<Tables, Memory>
    ensures { IfOk result (λ tables. tables ≡ tables_of most program.now) }
{
    let columns = column_table(alloc, program)?;
    let rows = row_table(alloc, program)?;
    Ok(Tables {
        columns,
        rows,
        most,
    })
}
