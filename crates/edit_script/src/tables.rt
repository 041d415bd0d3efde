// The names of a program in tables.
ghost use Rattle.std.specs.Prelude.{◌≡◌, IfOk, OnOk};
ghost use Rattle.scen_defs.specs.Program.{content};
ghost use Rattle.scen_defs.specs.Valid.{Differ};
ghost use Rattle.scen_defs.specs.Names.{column_names, row_names};
ghost use Rattle.edit_script.specs.Tables.{HasTables};

use edit_defs::{Edit, place_near};
use frac128::Memory;
use indexmap::IndexMap;
use scen_defs::{Column, Program, Row, Scenario};
use smps_words::{Line, Names};
use std::alloc::{AllocError, Global};

/// The names of a program's columns and rows by their numbers, and where its scenarios may stand.
#[derive(Drop)]
pub(crate) struct Tables {
    alloc: Global,
    pub(crate) columns: Names,
    pub(crate) rows: Names,
    /// By the name of each scenario, a place at which it stands or stood. Where it still stands it is at that place, or, as others
    /// before it went, at one before.
    guesses: IndexMap<Vec<u8>, usize>,
}

fn column_table(alloc: Global, columns: &[Column]) -> Result<Names, Memory>
    requires { Differ (column_names columns.now) }
    ensures { IfOk result (λ names. names ≡ column_names columns.now) }
{
    let mut names = Names::empty(alloc);
    for column in columns {
        names.add(column.name.as_bytes())?;
    }
    Ok(names)
}

fn row_table(alloc: Global, rows: &[Row]) -> Result<Names, Memory>
    requires { Differ (row_names rows.now) }
    ensures { IfOk result (λ names. names ≡ row_names rows.now) }
{
    let mut names = Names::empty(alloc);
    for row in rows {
        names.add(row.name.as_bytes())?;
    }
    Ok(names)
}

/// The places of scenarios by their names.
fn scenario_table(
    alloc: Global,
    scenarios: &[Scenario],
) -> Result<IndexMap<Vec<u8>, usize>, Memory> {
    let mut guesses = IndexMap::new(alloc);
    for (place, scenario) in scenarios.iter().enumerate() {
        let name = Vec::from_slice(alloc, scenario.name.as_bytes())?;
        guesses.insert(name, place)?;
    }
    Ok(guesses)
}

impl Tables {
    /// The tables of a program.
    pub(crate) fn of(alloc: Global, program: &Program) -> Result<Tables, Memory>
        ensures { IfOk result (HasTables (content program.now)) }
    {
        Ok(Tables {
            alloc,
            columns: column_table(alloc, &program.columns)?,
            rows: row_table(alloc, &program.rows)?,
            guesses: scenario_table(alloc, &program.scenarios)?,
        })
    }

    /// Where the scenario that a line names in its second field stands, and 0 where none of the name was found.
    pub(crate) fn place(&self, scenarios: &[Scenario], line: &Line) -> usize {
        let name = line.fields[1];
        let Some(guess) = self.guesses.get(name) else {
            return 0;
        };
        match place_near(scenarios, *guess, name) {
            Some(place) => place,
            None => 0,
        }
    }

    /// Notes where the new scenario of an edit stands behind it: it is the last one.
    pub(crate) fn note(&mut self, edit: &Edit, scenarios: &[Scenario]) -> Result<(), AllocError>
        ensures columns { self.new.columns ≡ self.old.columns }
        ensures rows { self.new.rows ≡ self.old.rows }
    {
        let Edit::Add { name, .. } = edit else {
            return Ok(());
        };
        let name = Vec::from_slice(self.alloc, name.as_bytes())?;
        self.guesses
            .insert(name, scenarios.len().saturating_sub(1))?;
        Ok(())
    }
}
