// A program whose decisions of the first period are fixed.
ghost use Rattle.std.specs.Prelude.{◌≡◌, eqb, IfOk};
ghost use Rattle.rationals.specs.Choices.{pick};
ghost use Rattle.scen_defs.specs.Program.{content};
ghost use Rattle.value_programs.specs.Fixed.{fixed_program, held_at, held_from};

use frac128::Memory;
use scen_copies::copied_name;
use scen_defs::{Column, Kind, Program, Values};
use scen_nodes::derive;
use std::alloc::Global;

/// A column with this number; one of the first period with both bounds at its value at the first node.
fn held_column(
    alloc: Global,
    values: &Values,
    number: u64,
    column: &Column,
) -> Result<Column, Memory>
    ensures { IfOk result (λ held. held ≡ pick (eqb column.now.stage 0) (held_at values.now number column.now) column.now) }
{
    let name = copied_name(alloc, &column.name)?;
    let stage = column.stage;
    let mut lower = column.lower;
    let mut upper = column.upper;
    if stage == 0 {
        let value = values.get(0, number);
        lower = Some(value);
        upper = Some(value);
    }
    Ok(Column {
        name,
        stage,
        lower,
        upper,
    })
}

/// Columns, those of the first period with both bounds at their values.
fn held_columns(alloc: Global, values: &Values, columns: &[Column]) -> Result<Vec<Column>, Memory>
    ensures { IfOk result (λ all. all.items ≡ held_from values.now 0 columns.now) }
{
    let mut all = Vec::new(alloc);
    for (number, column) in columns.iter().enumerate() {
        let held = held_column(alloc, values, number as u64, column)?;
        all.push(held)?;
    }
    Ok(all)
}

/// The program with both bounds of each column of the first period at its value at the first node, which is 0 where the values don't
/// have it.
pub fn fixed_program(alloc: Global, program: &Program, values: &Values) -> Result<Program, Memory>
    ensures { IfOk result (λ held. content held ≡ fixed_program (content program.now) values.now) }
{
    let columns = held_columns(alloc, values, &program.columns)?;
    let copy = derive(alloc, program, Kind::Cost)?;
    let Program {
        objective,
        rhs,
        periods,
        rows,
        nodes,
        scenarios,
        ..
    } = copy;
    Ok(Program::of_parts(objective, rhs, periods, columns, rows, nodes, scenarios))
}
