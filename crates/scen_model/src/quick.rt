// What multipliers are worth, with the totals of all nodes and the reduced costs of all nodes each taken at once.
ghost use Rattle.std.specs.Prelude.{◌≡◌, [], length, slice_index_or};
ghost use Rattle.scen_defs.specs.Values.{at};
ghost use Rattle.scen_defs.specs.Program.{content, view_of};
ghost use Rattle.scen_model.specs.Walks.{fold_walk, costs_of, all_columns, dual_by};
ghost use Rattle.scen_model.specs.Gathered.{AreTotals, lists_in, column_number, columns_with, Finishes};

use crate::charges::Costs;
use crate::ended::Ended;
use crate::ends::{add_worth, number_at};
use crate::reduced::{reduced_costs, seat_at};
use crate::rows::add_all_rows;
use crate::seats::seated;
use crate::stop::Stop;
use crate::totals::all_totals;
use frac128::Frac;
use scen_defs::{Program, Values};
use scen_nodes::stage;
use std::alloc::Global;

/// The list at a place, an empty one where there is none.
fn list_at(lists: &[Vec<Frac>], place: usize) -> &[Frac]
    ensures { result.now ≡ slice_index_or (lists_in lists.now) place [] }
{
    if place < lists.len() {
        lists[place].as_slice()
    } else {
        &[]
    }
}

/// The sum, and for each column of a node's stage the number at its seat times the bound that it uses.
fn add_numbers(
    program: &Program,
    seats: &[usize],
    numbers: &[Vec<Frac>],
    node: u64,
    start: Frac,
) -> Result<Frac, Stop>
    ensures { let v = view_of (content program.now) in
        result ≡ columns_with v (column_number (lists_in numbers.now) seats.now node) start node }
{
    let stage = stage(program, node);
    let list = list_at(numbers, node as usize);
    let mut sum = start;
    for (place, column) in program.columns.iter().enumerate() {
        if column.stage == stage {
            let number = number_at(list, seat_at(seats, place as u64));
            sum = add_worth(column.lower, column.upper, number, sum)?;
        }
    }
    Ok(sum)
}

/// What a part of the walk gives: an operation that passes is left to the walk.
fn followed(walk: Result<Frac, Stop>) -> Result<Frac, Ended>
    ensures { Finishes walk result }
{
    match walk {
        Ok(sum) => Ok(sum),
        Err(Stop::Decided) => Err(Ended::Decided),
        Err(Stop::Passed(_)) => Err(Ended::Walk),
    }
}

/// The sum, and for each column of each node's stage its reduced cost times the bound that it uses.
fn add_all_reduced(
    program: &Program,
    seats: &[usize],
    numbers: &[Vec<Frac>],
    start: Frac,
) -> Result<Frac, Stop>
    ensures { let v = view_of (content program.now) in
        result ≡ fold_walk (λ s n. columns_with v (column_number (lists_in numbers.now) seats.now n) s n) start v.live }
{
    let mut sum = start;
    for (place, slot) in program.nodes.iter().enumerate() {
        if slot.is_some() {
            sum = add_numbers(program, seats, numbers, place as u64, sum)?;
        }
    }
    Ok(sum)
}

/// The same, where the totals are known.
fn add_reduced(
    alloc: Global,
    program: &Program,
    costs: Costs,
    values: &Values,
    totals: &[Frac],
    start: Frac,
) -> Result<Frac, Ended>
    requires totals { AreTotals (view_of (content program.now)) totals.now }
    requires all_totals { length totals.now ≡ length program.now.nodes.items }
    ensures { let v = view_of (content program.now) in Finishes (all_columns (costs_of costs v) v (at values.now) start) result }
{
    let seating = seated(alloc, program)?;
    let numbers = reduced_costs(alloc, program, costs, values, totals, &seating)?;
    let seats = seating.seats.as_slice();
    followed(add_all_reduced(program, seats, numbers.as_slice(), start))
}

/// The totals, then the rows, then the columns.
pub(crate) fn quick_value(
    alloc: Global,
    program: &Program,
    costs: Costs,
    values: &Values,
) -> Result<Frac, Ended>
    ensures { let v = view_of (content program.now) in Finishes (dual_by (costs_of costs v) v (at values.now)) result }
{
    let totals = all_totals(alloc, program)?;
    match add_all_rows(program, values) {
        Ok(sum) => add_reduced(alloc, program, costs, values, totals.as_slice(), sum),
        Err(Stop::Decided) => Err(Ended::Decided),
        Err(Stop::Passed(_)) => Err(Ended::Walk),
    }
}
