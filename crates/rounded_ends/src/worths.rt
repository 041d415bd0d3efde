//! What multipliers are worth, rounded.
ghost use Rattle.std.specs.Prelude.{◌≡◌, IfOk, IfSome, [], length, slice_index_or};
ghost use Rattle.rationals.specs.Rational.{zero_ℚ, at_most};
ghost use Rattle.scen_defs.specs.Values.{at};
ghost use Rattle.scen_defs.specs.Ends.{used_end};
ghost use Rattle.scen_defs.specs.Program.{content, view_of};
ghost use Rattle.scen_model.specs.Gathered.{AreTotals, lists_in, column_number};
ghost use Rattle.rounded_sums.specs.Sides.{Beside};
ghost use Rattle.rounded_ends.specs.Runs.{Ran, IsWorth, row_good, row_worth, rows_good, rows_worth};
ghost use Rattle.rounded_ends.specs.Runs.{column_good, column_worth, columns_good, columns_worth};
ghost use Rattle.rounded_ends.specs.Worths.{IsWorthAll};

use frac128::{Frac, Memory, Unfinished};
use rounded_sums::{Side, SplitSum};
use scen_defs::{NodeRow, Program, Values};
use scen_model::{Costs, all_totals, number_at, reduced_costs, seat_at, seated};
use scen_nodes::stage;
use std::alloc::Global;

fn is_at_most(a: Frac, b: Frac) -> bool
    ensures { result ≡ at_most a b }
{
    a <= b
}

/// The low end for a multiplier above 0, the high end below 0, and 0 for 0.
fn used_end(low: Option<Frac>, high: Option<Frac>, multiplier: Frac) -> Option<Frac>
    ensures { result ≡ used_end low high multiplier }
{
    let zero = Frac::zero();
    if !is_at_most(multiplier, zero) {
        low
    } else if !is_at_most(zero, multiplier) {
        high
    } else {
        Some(zero)
    }
}

/// The sum, and a multiplier times the end that it uses.
fn add_worth(
    side: Side,
    low: Option<Frac>,
    high: Option<Frac>,
    multiplier: Frac,
    sum: SplitSum,
) -> Option<SplitSum>
    ensures { IfSome result (IsWorth side low high multiplier sum) }
{
    match used_end(low, high, multiplier) {
        Some(end) => sum.add_product(side, multiplier, end),
        None => None,
    }
}

/// The sum, and row by row the multiplier times the end that it uses.
fn add_rows(
    side: Side,
    rows: &[NodeRow],
    values: &Values,
    node: u64,
    near: &mut usize,
    start: SplitSum,
) -> Option<SplitSum>
    ensures { let y = at values.now node in IfSome result (Ran side (row_good y) (row_worth y) start rows.now) }
{
    let mut sum = start;
    for row in rows {
        let multiplier = values.get_near(node, row.row as u64, near);
        match add_worth(side, row.low, row.high, multiplier, sum) {
            Some(next) => sum = next,
            None => return None,
        }
    }
    Some(sum)
}

/// The rows of all nodes.
fn add_all_rows(side: Side, program: &Program, values: &Values) -> Option<SplitSum>
    ensures { let v = view_of (content program.now) in
        IfSome result (Ran side (rows_good v (at values.now)) (rows_worth v (at values.now)) zero_ℚ v.live) }
{
    let mut sum = SplitSum::zero();
    let mut near = 0;
    for (place, slot) in program.nodes.iter().enumerate() {
        if let Some(node) = slot {
            match add_rows(side, &node.rows, values, place as u64, &mut near, sum) {
                Some(next) => sum = next,
                None => return None,
            }
        }
    }
    Some(sum)
}

/// The list at a place, an empty one where there is none.
fn list_at(lists: &[Vec<Frac>], place: usize) -> &[Frac]
    ensures { result.now ≡ slice_index_or (lists_in lists.now) place [] }
{
    if place < lists.len() {
        lists[place].as_slice()
    } else {
        &[]
    }
}

/// The sum, and for each column of a node's stage the number at its seat times the bound that it uses.
fn add_columns(
    side: Side,
    program: &Program,
    seats: &[usize],
    numbers: &[Vec<Frac>],
    node: u64,
    start: SplitSum,
) -> Option<SplitSum>
    ensures { let v = view_of (content program.now) in
        let d = column_number (lists_in numbers.now) seats.now node in
        IfSome result (Ran side (column_good v d) (column_worth v d) start (v.columns (v.stage node))) }
{
    let stage = stage(program, node);
    let list = list_at(numbers, node as usize);
    let mut sum = start;
    for (place, column) in program.columns.iter().enumerate() {
        if column.stage == stage {
            let number = number_at(list, seat_at(seats, place as u64));
            match add_worth(side, column.lower, column.upper, number, sum) {
                Some(next) => sum = next,
                None => return None,
            }
        }
    }
    Some(sum)
}

/// The columns of all nodes.
fn add_all_columns(
    side: Side,
    program: &Program,
    seats: &[usize],
    numbers: &[Vec<Frac>],
    start: SplitSum,
) -> Option<SplitSum>
    ensures { let v = view_of (content program.now) in
        let d = column_number (lists_in numbers.now) seats.now in
        IfSome result (Ran side (columns_good v d) (columns_worth v d) start v.live) }
{
    let mut sum = start;
    for (place, slot) in program.nodes.iter().enumerate() {
        if slot.is_some() {
            match add_columns(side, program, seats, numbers, place as u64, sum) {
                Some(next) => sum = next,
                None => return None,
            }
        }
    }
    Some(sum)
}

/// What multipliers are worth where the totals are known; their reduced costs are exact.
fn worth_with(
    alloc: Global,
    side: Side,
    program: &Program,
    values: &Values,
    totals: &[Frac],
) -> Result<Option<Frac>, Unfinished>
    requires totals { AreTotals (view_of (content program.now)) totals.now }
    requires all_totals { length totals.now ≡ length program.now.nodes.items }
    ensures { let v = view_of (content program.now) in
        IfOk result (λ found. IfSome found (IsWorthAll side v (at values.now))) }
{
    let seating = seated(alloc, program)?;
    let numbers = reduced_costs(alloc, program, Costs::Own, values, totals, &seating)?;
    let seats = seating.seats.as_slice();
    match add_all_rows(side, program, values) {
        Some(sum) => match add_all_columns(side, program, seats, numbers.as_slice(), sum) {
            Some(worth) => Ok(worth.told(side)),
            None => Ok(None),
        },
        None => Ok(None),
    }
}

/// The same, where nothing is told of a sum that doesn't fit.
fn worth_or_none(
    alloc: Global,
    side: Side,
    program: &Program,
    values: &Values,
) -> Result<Option<Frac>, Unfinished>
    ensures { let v = view_of (content program.now) in
        IfOk result (λ found. IfSome found (IsWorthAll side v (at values.now))) }
{
    let totals = all_totals(alloc, program)?;
    worth_with(alloc, side, program, values, totals.as_slice())
}

/// A number that stands on a side of what multipliers are worth, which are good; none where an end that they use isn't finite, a reduced
/// cost doesn't fit, or even a rounded sum doesn't.
pub fn worth_beside(
    alloc: Global,
    side: Side,
    program: &Program,
    dual: &Values,
) -> Result<Option<Frac>, Memory>
    ensures { let v = view_of (content program.now) in
        IfOk result (λ found. IfSome found (IsWorthAll side v (at dual.now))) }
{
    match worth_or_none(alloc, side, program, dual) {
        Ok(found) => Ok(found),
        Err(Unfinished::Walk) => Ok(None),
        Err(Unfinished::Memory) => Err(Memory),
    }
}
