// The columns of each stage, and of each column its seat: its place among the columns of its stage.
ghost use Rattle.std.specs.Prelude.{IsTrue, IfOk};
ghost use Rattle.scen_model.specs.Gathered.{lists_in, IsSeated, AreSeated, AreStages};

use frac128::Unfinished;
use scen_defs::{Column, Program};
use std::alloc::Global;

/// The columns by stage, each stage's in rising order, and by column its stage and its seat.
#[derive(Drop)]
pub struct Seating {
    pub own: Vec<Vec<u64>>,
    pub stages: Vec<u32>,
    pub seats: Vec<usize>,
}

/// The stages of columns.
fn stages(alloc: Global, columns: &[Column]) -> Result<Vec<u32>, Unfinished>
    ensures { IfOk result (λ stages. AreStages columns.now stages.items) }
{
    let mut stages = Vec::with_capacity(alloc, columns.len())?;
    for column in columns {
        stages.push(column.stage)?;
    }
    Ok(stages)
}

/// Puts a column behind the others of its stage; gives its seat.
fn put(own: &mut Vec<Vec<u64>>, stage: u32, column: u64) -> Result<usize, Unfinished> {
    let place = stage as usize;
    if place >= own.len() {
        return Err(Unfinished::Walk);
    }
    let list = &mut own[place];
    let seat = list.len();
    list.push(column)?;
    Ok(seat)
}

/// Whether a column stands at its seat.
fn is_seated(own: &[Vec<u64>], seats: &[usize], stage: u32, column: u64) -> bool
    ensures { IsTrue result → IsSeated (lists_in own.now) seats.now stage column }
{
    let row = stage as usize;
    let place = column as usize;
    if row >= own.len() || place >= seats.len() {
        return false;
    }
    let list = own[row].as_slice();
    let seat = seats[place];
    seat < list.len() && list[seat] == column
}

/// Whether each column stands at its seat.
fn are_seated(columns: &[Column], own: &[Vec<u64>], seats: &[usize]) -> bool
    ensures { IsTrue result → AreSeated columns.now (lists_in own.now) seats.now }
{
    for (place, column) in columns.iter().enumerate() {
        if !is_seated(own, seats, column.stage, place as u64) {
            return false;
        }
    }
    true
}

/// No columns yet, for each of so many stages.
fn no_columns(alloc: Global, count: usize) -> Result<Vec<Vec<u64>>, Unfinished> {
    let mut own = Vec::with_capacity(alloc, count)?;
    for _stage in 0..count {
        own.push(Vec::new(alloc))?;
    }
    Ok(own)
}

/// Puts each column behind the others of its stage; gives the seats.
fn seats(
    alloc: Global,
    columns: &[Column],
    own: &mut Vec<Vec<u64>>,
) -> Result<Vec<usize>, Unfinished> {
    let mut seats = Vec::with_capacity(alloc, columns.len())?;
    for (place, column) in columns.iter().enumerate() {
        seats.push(put(own, column.stage, place as u64)?)?;
    }
    Ok(seats)
}

/// The columns of each stage, and of each column its stage and its seat.
pub fn seated(alloc: Global, program: &Program) -> Result<Seating, Unfinished>
    ensures stages { IfOk result (λ s. AreStages program.now.columns.items s.stages.items) }
    ensures seated { IfOk result (λ s. AreSeated program.now.columns.items (lists_in s.own.items) s.seats.items) }
{
    let columns = program.columns.as_slice();
    let mut own = no_columns(alloc, program.periods.len())?;
    let seats = seats(alloc, columns, &mut own)?;
    if !are_seated(columns, own.as_slice(), seats.as_slice()) {
        return Err(Unfinished::Walk);
    }
    let stages = stages(alloc, columns)?;
    Ok(Seating { own, stages, seats })
}
