//! The texts of a workload.
ghost use Rattle.std.specs.Prelude.{◌≡◌, ◌<◌, IfOk};
ghost use Rattle.workload_maker.specs.Texts.{core_page, time_page, stoch_page, made_of, made_view};
ghost use Rattle.workload_maker.specs.Views.{page_view, shape_view};

use crate::columns::put_columns;
use crate::lines::Shape;
use crate::page::Page;
use crate::rows::{put_capacities, put_periods, put_rows};
use crate::stoch::put_blocks;
use frac128::Memory;
use std::alloc::Global;

/// The texts of a workload: a core, a time and a stoch file.
#[derive(Drop)]
pub struct Made {
    pub core: Vec<u8>,
    pub time: Vec<u8>,
    pub stoch: Vec<u8>,
}

/// The core; its costs are drawn from the start on.
fn core_page(alloc: Global, shape: Shape, start: u32) -> Result<Page, Memory>
    requires { shape.size < 4294967296 }
    ensures { IfOk result (λ page. page_view page ≡ core_page (shape_view shape) start) }
{
    let mut page = Page::empty(alloc, start);
    page.put("NAME MAKE\nROWS\n N COST\n")?;
    put_rows(alloc, &mut page, shape)?;
    page.put("COLUMNS\n")?;
    put_columns(alloc, &mut page, shape)?;
    page.put("RHS\n")?;
    put_capacities(alloc, &mut page, shape)?;
    page.put("ENDATA\n")?;
    Ok(page)
}

/// The periods.
fn time_page(alloc: Global, shape: Shape) -> Result<Page, Memory>
    ensures { IfOk result (λ page. page_view page ≡ time_page (shape_view shape)) }
{
    let mut page = Page::empty(alloc, 0);
    page.put("TIME MAKE\nPERIODS\n")?;
    put_periods(alloc, &mut page, shape.stages)?;
    page.put("ENDATA\n")?;
    Ok(page)
}

/// The cases; their demands are drawn from a state on.
fn stoch_page(alloc: Global, shape: Shape, state: u32) -> Result<Page, Memory>
    ensures { IfOk result (λ page. page_view page ≡ stoch_page (shape_view shape) state) }
{
    let mut page = Page::empty(alloc, state);
    page.put("STOCH MAKE\nBLOCKS DISCRETE\n")?;
    put_blocks(alloc, &mut page, shape)?;
    page.put("ENDATA\n")?;
    Ok(page)
}

/// The texts of a production plan: in each of `stages` periods `size` items are made or bought for a later or the present demand,
/// which has `branches` equally likely cases in each period behind the first. Costs and demands are drawn from `start` on. Any
/// numbers make texts; with 2 to 6 stages, 2 to 4 branches, a size of 1 to 20 and a start of at most 65536 they are within the limits.
pub fn make(
    alloc: Global,
    start: u32,
    stages: u32,
    branches: u32,
    size: u32,
) -> Result<Made, Memory>
    ensures { IfOk result (λ made. made_view made ≡ made_of (record { stages = stages; branches = branches; size = size }) start) }
{
    let shape = Shape {
        stages: stages as u64,
        branches: branches as u64,
        size: size as u64,
    };
    let core = core_page(alloc, shape, start)?;
    let time = time_page(alloc, shape)?;
    let stoch = stoch_page(alloc, shape, core.state)?;
    Ok(Made {
        core: core.text,
        time: time.text,
        stoch: stoch.text,
    })
}
