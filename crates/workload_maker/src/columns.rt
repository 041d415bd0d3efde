//! The columns of the core.
ghost use Rattle.std.specs.Prelude.{◌≡◌, ◌<◌, OnOk};
ghost use Rattle.workload_maker.specs.Page.{upto};
ghost use Rattle.workload_maker.specs.Lines.{x_column, y_column, z_column, item_columns, columns_of};
ghost use Rattle.workload_maker.specs.Views.{page_view, shape_view};

use crate::lines::{Shape, name, number, put_3, staged};
use crate::page::Page;
use frac128::Memory;
use std::alloc::Global;

fn put_y(alloc: Global, page: &mut Page, stage: u64, item: u64) -> Result<(), Memory>
    ensures { OnOk result (page_view page.new ≡ y_column stage item (page_view page.old)) }
{
    let column = name(alloc, "Y", stage, item)?;
    let demand = name(alloc, "D", stage, item)?;
    let cost = number(alloc, 10 + page.draw(10) as u64)?;
    put_3(alloc, page, column.as_str(), "COST", cost.as_str())?;
    put_3(alloc, page, column.as_str(), demand.as_str(), "1")
}

fn put_z(alloc: Global, page: &mut Page, shape: Shape, stage: u64, item: u64) -> Result<(), Memory>
    ensures { OnOk result (page_view page.new ≡ z_column (shape_view shape) stage item (page_view page.old)) }
{
    let column = name(alloc, "Z", stage, item)?;
    let demand = name(alloc, "D", stage, item)?;
    put_3(alloc, page, column.as_str(), "COST", "1")?;
    put_3(alloc, page, column.as_str(), demand.as_str(), "-1")?;
    if stage < shape.stages {
        let later = name(alloc, "D", stage + 1, item)?;
        put_3(alloc, page, column.as_str(), later.as_str(), "1")?;
    }
    Ok(())
}

fn put_x(alloc: Global, page: &mut Page, stage: u64, item: u64) -> Result<(), Memory>
    requires { stage < 18446744073709551615 }
    ensures { OnOk result (page_view page.new ≡ x_column stage item (page_view page.old)) }
{
    let column = name(alloc, "X", stage, item)?;
    let capacity = staged(alloc, "C", stage)?;
    let later = name(alloc, "D", stage + 1, item)?;
    let cost = number(alloc, 1 + page.draw(5) as u64)?;
    put_3(alloc, page, column.as_str(), "COST", cost.as_str())?;
    put_3(alloc, page, column.as_str(), capacity.as_str(), "1")?;
    put_3(alloc, page, column.as_str(), later.as_str(), "1")
}

/// Appends the columns of a period and an item.
fn put_item(
    alloc: Global,
    page: &mut Page,
    shape: Shape,
    stage: u64,
    item: u64,
) -> Result<(), Memory>
    ensures { OnOk result (page_view page.new ≡ item_columns (shape_view shape) stage item (page_view page.old)) }
{
    if 1 < stage {
        put_y(alloc, page, stage, item)?;
        put_z(alloc, page, shape, stage, item)?;
    }
    if stage < shape.stages {
        put_x(alloc, page, stage, item)?;
    }
    Ok(())
}

/// Appends the columns of a period.
fn put_columns_of(alloc: Global, page: &mut Page, shape: Shape, stage: u64) -> Result<(), Memory>
    ensures { OnOk result (page_view page.new ≡ columns_of (shape_view shape) stage (page_view page.old)) }
{
    for before in 0..shape.size {
        put_item(alloc, page, shape, stage, before + 1)?;
    }
    Ok(())
}

/// Appends the columns of all periods.
pub(crate) fn put_columns(alloc: Global, page: &mut Page, shape: Shape) -> Result<(), Memory>
    ensures { OnOk result (page_view page.new ≡ upto (columns_of (shape_view shape)) shape.stages (page_view page.old)) }
{
    for before in 0..shape.stages {
        put_columns_of(alloc, page, shape, before + 1)?;
    }
    Ok(())
}
