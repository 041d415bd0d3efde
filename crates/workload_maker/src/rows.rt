//! The rows of the core, their right-hand sides, and the periods.
ghost use Rattle.std.specs.Prelude.{◌≡◌, ◌<◌, ◌≤◌, OnOk};
ghost use Rattle.workload_maker.specs.Page.{upto};
ghost use Rattle.workload_maker.specs.Lines.{demand_row, rows_of, capacity_of, period_of};
ghost use Rattle.workload_maker.specs.Views.{page_view, shape_view};

use crate::lines::{Shape, name, number, put_2, put_3, staged};
use crate::page::Page;
use frac128::Memory;
use std::alloc::Global;

fn put_demand_row(alloc: Global, page: &mut Page, stage: u64, item: u64) -> Result<(), Memory>
    ensures { OnOk result (page_view page.new ≡ demand_row stage item (page_view page.old)) }
{
    let demand = name(alloc, "D", stage, item)?;
    put_2(alloc, page, "E", demand.as_str())
}

fn put_demand_rows(alloc: Global, page: &mut Page, stage: u64, size: u64) -> Result<(), Memory>
    ensures { OnOk result (page_view page.new ≡ upto (demand_row stage) size (page_view page.old)) }
{
    for before in 0..size {
        put_demand_row(alloc, page, stage, before + 1)?;
    }
    Ok(())
}

/// Appends the rows of a period.
fn put_rows_of(alloc: Global, page: &mut Page, shape: Shape, stage: u64) -> Result<(), Memory>
    ensures { OnOk result (page_view page.new ≡ rows_of (shape_view shape) stage (page_view page.old)) }
{
    if 1 < stage {
        put_demand_rows(alloc, page, stage, shape.size)?;
    }
    if stage < shape.stages {
        let capacity = staged(alloc, "C", stage)?;
        put_2(alloc, page, "L", capacity.as_str())?;
    }
    Ok(())
}

/// Appends the rows of all periods.
pub(crate) fn put_rows(alloc: Global, page: &mut Page, shape: Shape) -> Result<(), Memory>
    ensures { OnOk result (page_view page.new ≡ upto (rows_of (shape_view shape)) shape.stages (page_view page.old)) }
{
    for before in 0..shape.stages {
        put_rows_of(alloc, page, shape, before + 1)?;
    }
    Ok(())
}

/// Appends the right-hand side of the L row of a period.
fn put_capacity(alloc: Global, page: &mut Page, shape: Shape, stage: u64) -> Result<(), Memory>
    requires { shape.size < 4294967296 }
    ensures { OnOk result (page_view page.new ≡ capacity_of (shape_view shape) stage (page_view page.old)) }
{
    if stage < shape.stages {
        let capacity = staged(alloc, "C", stage)?;
        let amount = number(alloc, 20 * shape.size)?;
        put_3(alloc, page, "RHS", capacity.as_str(), amount.as_str())?;
    }
    Ok(())
}

/// Appends the right-hand sides.
pub(crate) fn put_capacities(alloc: Global, page: &mut Page, shape: Shape) -> Result<(), Memory>
    requires { shape.size < 4294967296 }
    ensures { OnOk result (page_view page.new ≡ upto (capacity_of (shape_view shape)) shape.stages (page_view page.old)) }
{
    for before in 0..shape.stages {
        put_capacity(alloc, page, shape, before + 1)?;
    }
    Ok(())
}

/// Appends the line of a period.
fn put_period(alloc: Global, page: &mut Page, stage: u64) -> Result<(), Memory>
    ensures { OnOk result (page_view page.new ≡ period_of stage (page_view page.old)) }
{
    if 1 < stage {
        let column = name(alloc, "Y", stage, 1)?;
        let row = name(alloc, "D", stage, 1)?;
        let period = staged(alloc, "P", stage)?;
        put_3(alloc, page, column.as_str(), row.as_str(), period.as_str())
    } else {
        put_3(alloc, page, "X1_1", "COST", "P1")
    }
}

/// Appends the lines of all periods.
pub(crate) fn put_periods(alloc: Global, page: &mut Page, stages: u64) -> Result<(), Memory>
    ensures { OnOk result (page_view page.new ≡ upto period_of stages (page_view page.old)) }
{
    for before in 0..stages {
        put_period(alloc, page, before + 1)?;
    }
    Ok(())
}
