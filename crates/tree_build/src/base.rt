//! What the core states of the nodes of each stage.
ghost use Rattle.std.specs.Prelude.{◌≡◌, ◌<◌, ◌^◌, [], length, map, get_or, IfOk};
ghost use Rattle.core_defs.specs.declared.program.Core.{Core as CoreOf};
ghost use Rattle.stoch_defs.specs.Entries.{no_column, no_row};
ghost use Rattle.build_defs.specs.Nodes.{rows_at, form_at};
ghost use Rattle.build_defs.specs.Scenarios.{stages_from};
ghost use Rattle.smps_build.specs.Gathered.{forms_from};
ghost use Rattle.time_defs.specs.Periods.{stages};
ghost use Rattle.tree_build.specs.Values.{row_values, values_of, all_content};
ghost use Rattle.tree_build.specs.Base.{base_costs, base_rows};

use crate::parts::{RowValues, Values};
use core_defs::{ColumnDef, Core, RowDef};
use frac128::{Form, Frac, Memory};
use smps_build::{put, row_forms};
use std::alloc::Global;
use time_defs::Periods;

/// The cost of a column, 0 where there is none of that number.
fn cost_of(columns: &[ColumnDef], place: usize) -> Frac
    ensures { result ≡ (get_or columns.now place no_column).cost }
{
    if place < columns.len() {
        columns[place].cost
    } else {
        Frac::zero()
    }
}

/// The right-hand side of a row, 0 where there is none of that number.
fn rhs_of(rows: &[RowDef], place: usize) -> Frac
    ensures { result ≡ (get_or rows.now place no_row).rhs }
{
    if place < rows.len() {
        rows[place].rhs
    } else {
        Frac::zero()
    }
}

/// The costs of the columns of a stage, by the stages of all columns.
fn costs(alloc: Global, columns: &[ColumnDef], stages: &[u32], stage: usize) -> Result<Form, Memory>
    ensures { IfOk result (λ form. form ≡ base_costs columns.now stage 0 stages.now) }
{
    let mut form = Form::empty(alloc);
    for (place, at) in stages.iter().enumerate() {
        if *at as usize == stage {
            put(&mut form, place as u64, cost_of(columns, place))?;
        }
    }
    Ok(form)
}

/// The rows of a stage, by the stages of all rows and their forms.
fn rows(
    alloc: Global,
    defs: &[RowDef],
    forms: &[Form],
    stages: &[u32],
    stage: usize,
) -> Result<Vec<RowValues>, Memory>
    requires { length stages.now < 2 ^ 32 }
    ensures { IfOk result (λ rows. rows.items ≡ base_rows defs.now forms.now stage 0 stages.now) }
{
    let mut rows = Vec::new(alloc);
    for (place, at) in stages.iter().enumerate() {
        if *at as usize == stage && place < forms.len() {
            let entries = forms[place].copy(alloc)?;
            let row = place as u32;
            let rhs = rhs_of(defs, place);
            rows.push(RowValues { row, entries, rhs })?;
        }
    }
    Ok(rows)
}

/// What the core states of the nodes of each stage.
pub(crate) fn base(alloc: Global, core: &Core, periods: &Periods) -> Result<Vec<Values>, Memory>
    requires { length periods.now.row_stage.items ≡ length core.now.rows.items }
    ensures { IfOk result (λ all. all_content all.items ≡ map (values_of core.now (stages periods.now) [])
        (stages_from 0 (length periods.now.names.items))) }
{
    let forms = row_forms(alloc, &core.columns, &core.rows)?;
    let mut all = Vec::new(alloc);
    for stage in 0..periods.names.len() {
        let cost = costs(alloc, &core.columns, &periods.column_stage, stage)?;
        let rows = rows(alloc, &core.rows, &forms, &periods.row_stage, stage)?;
        all.push(Values { cost, rows })?;
    }
    Ok(all)
}
