//! Where nodes and columns stand.
use frac128::Memory;
use scen_defs::{Program, Scenario};
use scen_nodes::{parent, stage};
use std::alloc::Global;

/// The columns of each stage, and of each column its seat: its place among the columns of its stage.
#[derive(Drop)]
pub(crate) struct Seating {
    pub(crate) own: Vec<Vec<u32>>,
    pub(crate) seats: Vec<usize>,
}

/// No columns yet, for each of so many stages.
fn empty_stages(alloc: Global, count: usize) -> Result<Vec<Vec<u32>>, Memory> {
    let mut own = Vec::with_capacity(alloc, count)?;
    for _stage in 0..count {
        own.push(Vec::new(alloc))?;
    }
    Ok(own)
}

/// Puts a column behind the others of its stage; gives its seat.
fn seat(own: &mut Vec<Vec<u32>>, stage: u32, column: u32) -> Result<usize, Memory> {
    let place = stage as usize;
    if place >= own.len() {
        return Ok(0);
    }
    let list = &mut own[place];
    let seat = list.len();
    list.push(column)?;
    Ok(seat)
}

impl Seating {
    /// That of a program.
    pub(crate) fn of(alloc: Global, program: &Program) -> Result<Seating, Memory> {
        let mut own = empty_stages(alloc, program.periods.len())?;
        let mut seats = Vec::with_capacity(alloc, program.columns.len())?;
        let mut number: u32 = 0;
        for column in &program.columns {
            seats.push(seat(&mut own, column.stage, number)?)?;
            number = number.saturating_add(1);
        }
        Ok(Seating { own, seats })
    }

    /// The columns of a stage, in their order.
    pub(crate) fn columns(&self, stage: u32) -> &[u32] {
        match self.own.get(stage as usize) {
            Some(columns) => columns.as_slice(),
            None => &[],
        }
    }

    /// The seat of a column.
    pub(crate) fn seat(&self, column: u64) -> usize {
        match self.seats.get(column as usize) {
            Some(seat) => *seat,
            None => 0,
        }
    }
}

/// The node of a node's path that stands at a stage.
pub(crate) fn above(program: &Program, node: u64, at: u32) -> u64 {
    let own = stage(program, node);
    let mut place = node;
    for _stage in at..own {
        place = parent(program, place);
    }
    place
}

/// The stage of a column, 0 where there is none.
pub(crate) fn column_stage(program: &Program, column: u64) -> u32 {
    match program.columns.get(column as usize) {
        Some(found) => found.stage,
        None => 0,
    }
}

/// Counts one more at each node of a path.
fn count_path(counts: &mut [u32], path: &[u32]) {
    for node in path {
        let place = *node as usize;
        if place < counts.len() {
            counts[place] = counts[place].saturating_add(1);
        }
    }
}

/// How many scenarios go through each node.
pub(crate) fn scenario_counts(
    alloc: Global,
    nodes: usize,
    scenarios: &[Scenario],
) -> Result<Vec<u32>, Memory> {
    let mut counts = vec![in alloc; 0u32; nodes]?;
    for scenario in scenarios {
        count_path(counts.as_mut_slice(), &scenario.path);
    }
    Ok(counts)
}
