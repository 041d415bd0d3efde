//! The cases.
ghost use Rattle.std.specs.Prelude.{◌≡◌, ℕ, OnOk};
ghost use Rattle.workload_maker.specs.Page.{put, upto};
ghost use Rattle.workload_maker.specs.Lines.{demand_of, case_head, case_of, block_of};
ghost use Rattle.workload_maker.specs.Views.{page_view, shape_view};

use crate::lines::{Shape, name, number, put_3, staged};
use crate::page::Page;
use frac128::Memory;
use std::alloc::Global;

fn put_demand(alloc: Global, page: &mut Page, stage: u64, item: u64) -> Result<(), Memory>
    ensures { OnOk result (page_view page.new ≡ demand_of stage item (page_view page.old)) }
{
    let row = name(alloc, "D", stage, item)?;
    let demand = number(alloc, page.draw(20) as u64)?;
    put_3(alloc, page, "RHS", row.as_str(), demand.as_str())
}

fn put_demands(alloc: Global, page: &mut Page, stage: u64, size: u64) -> Result<(), Memory>
    ensures { OnOk result (page_view page.new ≡ upto (demand_of stage) size (page_view page.old)) }
{
    for before in 0..size {
        put_demand(alloc, page, stage, before + 1)?;
    }
    Ok(())
}

/// Appends the line that begins a case.
fn put_head(alloc: Global, page: &mut Page, shape: Shape, stage: u64) -> Result<(), Memory>
    ensures { OnOk result (page_view page.new ≡ put (case_head (shape_view shape) stage) (page_view page.old)) }
{
    let block = staged(alloc, "B", stage)?;
    let period = staged(alloc, "P", stage)?;
    let chance = staged(alloc, "1/", shape.branches)?;
    page.put(" BL")?;
    put_3(
        alloc,
        page,
        block.as_str(),
        period.as_str(),
        chance.as_str(),
    )
}

/// Appends a case of a period.
fn put_case(alloc: Global, page: &mut Page, shape: Shape, stage: u64) -> Result<(), Memory>
    ensures { OnOk result (page_view page.new ≡ case_of (shape_view shape) stage (page_view page.old)) }
{
    put_head(alloc, page, shape, stage)?;
    put_demands(alloc, page, stage, shape.size)
}

/// Appends the block of a period.
fn put_block(alloc: Global, page: &mut Page, shape: Shape, stage: u64) -> Result<(), Memory>
    ensures { OnOk result (page_view page.new ≡ block_of (shape_view shape) stage (page_view page.old)) }
{
    if 1 < stage {
        put_cases(alloc, page, shape, stage)?;
    }
    Ok(())
}

/// Appends the cases of a period.
fn put_cases(alloc: Global, page: &mut Page, shape: Shape, stage: u64) -> Result<(), Memory>
    ensures { OnOk result (page_view page.new
        ≡ upto (λ (case : ℕ). case_of (shape_view shape) stage) shape.branches (page_view page.old)) }
{
    for before in 0..shape.branches {
        put_case(alloc, page, shape, stage)?;
    }
    Ok(())
}

/// Appends the blocks of all periods.
pub(crate) fn put_blocks(alloc: Global, page: &mut Page, shape: Shape) -> Result<(), Memory>
    ensures { OnOk result (page_view page.new ≡ upto (block_of (shape_view shape)) shape.stages (page_view page.old)) }
{
    for before in 0..shape.stages {
        put_block(alloc, page, shape, before + 1)?;
    }
    Ok(())
}
