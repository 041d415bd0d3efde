// The reduced costs of all nodes' columns, in one pass over the rows of all nodes.
ghost use Rattle.std.specs.Prelude.{◌≡◌, true, length, IfOk, OnOk, slice_index_or};
ghost use Rattle.rationals.specs.Rational.{zero_ℚ};
ghost use Rattle.rationals.specs.Passes.{less_product_walk};
ghost use Rattle.rationals.specs.Sparse.{coefficient};
ghost use Rattle.scen_defs.specs.Values.{at};
ghost use Rattle.scen_defs.specs.Program.{content, is_live, view_of};
ghost use Rattle.scen_defs.specs.Lists.{passes_at};
ghost use Rattle.scen_defs.specs.Walks.{less_from};
ghost use Rattle.scen_model.specs.Walks.{less_all, costs_of, reduced_walk};
ghost use Rattle.scen_model.specs.Gathered.{lists_in, if_home, entry_from, entries_from};
ghost use Rattle.scen_model.specs.Gathered.{AreTotals, IsOnPath, AreStages, AreSeated, AreApart, LessAt, LessIn, AllMove};
ghost use Rattle.scen_model.specs.Gathered.{ArePriced, IsPriced, AllPriced, AreAll};

use crate::charges::{Costs, cost_at};
use crate::ends::number_at;
use crate::seats::Seating;
use frac128::{Frac, Term, Unfinished};
use scen_defs::{NodeRow, Program, Values};
use scen_nodes::{find, parent, stage as stage_of};
use std::alloc::Global;

/// The seat of a column, 0 where there is none.
pub fn seat_at(seats: &[usize], column: u64) -> usize
    ensures { result ≡ slice_index_or seats.now column 0 }
{
    let place = column as usize;
    if place < seats.len() { seats[place] } else { 0 }
}

/// Takes a product away from the number at a place.
fn less_at(
    numbers: &mut [Frac],
    place: usize,
    value: Frac,
    multiplier: Frac,
) -> Result<(), Unfinished>
    ensures { OnOk result (LessAt place value multiplier numbers.old numbers.new) }
{
    if place >= numbers.len() {
        return Err(Unfinished::Walk);
    }
    numbers[place] = numbers[place].less_product(value, multiplier)?;
    Ok(())
}

/// Takes a product away from the number at a seat of a node.
fn less_in(
    numbers: &mut [Vec<Frac>],
    node: u64,
    seat: usize,
    value: Frac,
    multiplier: Frac,
) -> Result<(), Unfinished>
    ensures { OnOk result (LessIn node seat value multiplier (lists_in numbers.old) (lists_in numbers.new)) }
{
    let place = node as usize;
    if place >= numbers.len() {
        return Err(Unfinished::Walk);
    }
    less_at(numbers[place].as_mut_slice(), seat, value, multiplier)?;
    Ok(())
}

/// The node of a stage on the path of a node of the stage `own`.
fn on_path(program: &Program, node: u64, own: u32, stage: u32) -> Result<u64, Unfinished>
    requires { own ≡ (view_of (content program.now)).stage node }
    ensures { IfOk result (λ at. IsOnPath (view_of (content program.now)) node stage at) }
{
    if stage == own {
        return Ok(node);
    }
    if stage > own {
        return Err(Unfinished::Walk);
    }
    let mut at = node;
    for _above in stage..own {
        at = parent(program, at);
    }
    if stage_of(program, at) == stage {
        Ok(at)
    } else {
        Err(Unfinished::Walk)
    }
}

/// Takes an entry of a node's row times a multiplier away from the number of its column, at the node of the path that decides it.
fn less_entry(
    numbers: &mut [Vec<Frac>],
    program: &Program,
    stages: &[u32],
    seats: &[usize],
    node: u64,
    own: u32,
    entry: Term,
    multiplier: Frac,
) -> Result<(), Unfinished>
    requires stages { AreStages program.now.columns.items stages.now }
    requires apart { AreApart program.now.columns.items seats.now }
    requires own { own ≡ (view_of (content program.now)).stage node }
    ensures { let v = view_of (content program.now) in
        OnOk result
        (AllMove v program.now.columns.items seats.now
        (λ k j s. if_home v node k j s (entry_from entry multiplier j s)) (lists_in numbers.old) (lists_in numbers.new)) }
{
    let place = entry.column as usize;
    if place >= stages.len() {
        return Err(Unfinished::Walk);
    }
    let at = on_path(program, node, own, stages[place])?;
    let seat = seat_at(seats, entry.column);
    less_in(numbers, at, seat, entry.value, multiplier)?;
    Ok(())
}

/// The same for entries in order.
fn less_entries(
    numbers: &mut [Vec<Frac>],
    program: &Program,
    stages: &[u32],
    seats: &[usize],
    node: u64,
    own: u32,
    entries: &[Term],
    multiplier: Frac,
) -> Result<(), Unfinished>
    requires stages { AreStages program.now.columns.items stages.now }
    requires apart { AreApart program.now.columns.items seats.now }
    requires own { own ≡ (view_of (content program.now)).stage node }
    ensures { let v = view_of (content program.now) in
        OnOk result
        (AllMove v program.now.columns.items seats.now
        (λ k j s. if_home v node k j s (entries_from multiplier j s entries.now)) (lists_in numbers.old) (lists_in numbers.new)) }
{
    for entry in entries {
        less_entry(
            numbers, program, stages, seats, node, own, *entry, multiplier,
        )?;
    }
    Ok(())
}

/// Takes a row times its multiplier away.
fn less_row(
    numbers: &mut [Vec<Frac>],
    program: &Program,
    stages: &[u32],
    seats: &[usize],
    node: u64,
    own: u32,
    row: &NodeRow,
    multiplier: Frac,
) -> Result<(), Unfinished>
    requires stages { AreStages program.now.columns.items stages.now }
    requires apart { AreApart program.now.columns.items seats.now }
    requires own { own ≡ (view_of (content program.now)).stage node }
    ensures { let v = view_of (content program.now) in
        OnOk result
        (AllMove v program.now.columns.items seats.now
        (λ k j s. if_home v node k j s (less_product_walk s (coefficient row.now.entries j) multiplier))
        (lists_in numbers.old) (lists_in numbers.new)) }
{
    if multiplier.is_zero() {
        return Ok(());
    }
    row.entries.keeps_order();
    less_entries(
        numbers,
        program,
        stages,
        seats,
        node,
        own,
        row.entries.terms(),
        multiplier,
    )?;
    Ok(())
}

/// Takes the rows of a node away.
fn less_rows(
    numbers: &mut [Vec<Frac>],
    program: &Program,
    stages: &[u32],
    seats: &[usize],
    rows: &[NodeRow],
    values: &Values,
    node: u64,
    near: &mut usize,
) -> Result<(), Unfinished>
    requires stages { AreStages program.now.columns.items stages.now }
    requires apart { AreApart program.now.columns.items seats.now }
    ensures { let v = view_of (content program.now) in
        OnOk result
        (AllMove v program.now.columns.items seats.now
        (λ k j s. if_home v node k j s (less_from j (at values.now node) s rows.now)) (lists_in numbers.old) (lists_in numbers.new)) }
{
    let own = stage_of(program, node);
    for row in rows {
        let multiplier = values.get_near(node, row.row as u64, near);
        less_row(numbers, program, stages, seats, node, own, row, multiplier)?;
    }
    Ok(())
}

/// Takes the rows of all nodes away.
fn less_all(
    numbers: &mut [Vec<Frac>],
    program: &Program,
    stages: &[u32],
    seats: &[usize],
    values: &Values,
) -> Result<(), Unfinished>
    requires stages { AreStages program.now.columns.items stages.now }
    requires apart { AreApart program.now.columns.items seats.now }
    ensures { let v = view_of (content program.now) in
        OnOk result
        (AllMove v program.now.columns.items seats.now
        (λ k j s. less_all v (at values.now) k j s) (lists_in numbers.old) (lists_in numbers.new)) }
{
    let mut near = 0;
    for (place, slot) in program.nodes.iter().enumerate() {
        if let Some(node) = slot {
            less_rows(
                numbers,
                program,
                stages,
                seats,
                &node.rows,
                values,
                place as u64,
                &mut near,
            )?;
        }
    }
    Ok(())
}

/// A node's total times the costs of the columns of its stage.
fn priced(
    alloc: Global,
    program: &Program,
    costs: Costs,
    node: u64,
    total: Frac,
    own: &[u64],
) -> Result<Vec<Frac>, Unfinished>
    ensures length { IfOk result (λ numbers. length numbers.items ≡ length own.now) }
    ensures priced { let v = view_of (content program.now) in
        IfOk result (λ numbers. ArePriced total (costs_of costs v node) own.now numbers.items) }
{
    let mut numbers = Vec::with_capacity(alloc, own.len())?;
    for column in own {
        let number = total.mul(cost_at(program, costs, node, *column))?;
        numbers.push(number)?;
    }
    Ok(numbers)
}

/// The same, where the node is live and the columns stand by stage; no numbers for a node that is not live.
fn node_priced(
    alloc: Global,
    program: &Program,
    costs: Costs,
    totals: &[Frac],
    own: &[Vec<u64>],
    node: u64,
) -> Result<Vec<Frac>, Unfinished>
    ensures { let v = view_of (content program.now) in
        IfOk result (λ numbers.
        passes_at is_live node (content program.now).nodes ≡ true → IsPriced v (costs_of costs v) totals.now (lists_in own.now) node
        numbers.items) }
{
    match find(&program.nodes, node) {
        Some(found) => {
            let row = found.stage as usize;
            if row >= own.len() {
                return Err(Unfinished::Walk);
            }
            let total = number_at(totals, node as usize);
            priced(alloc, program, costs, node, total, own[row].as_slice())
        }
        None => Ok(Vec::new(alloc)),
    }
}

/// The same for all nodes.
fn all_priced(
    alloc: Global,
    program: &Program,
    costs: Costs,
    totals: &[Frac],
    own: &[Vec<u64>],
) -> Result<Vec<Vec<Frac>>, Unfinished>
    ensures { let p = content program.now in
        IfOk result (λ numbers.
        AllPriced p (costs_of costs (view_of p)) totals.now (lists_in own.now) (length p.nodes) (lists_in numbers.items)) }
{
    let count = program.nodes.len();
    let mut numbers = Vec::with_capacity(alloc, count)?;
    for node in 0..count {
        let list = node_priced(alloc, program, costs, totals, own, node as u64)?;
        numbers.push(list)?;
    }
    Ok(numbers)
}

/// The reduced costs of all nodes' columns: each in the list of its node, at the seat of its column.
pub fn reduced_costs(
    alloc: Global,
    program: &Program,
    costs: Costs,
    values: &Values,
    totals: &[Frac],
    seating: &Seating,
) -> Result<Vec<Vec<Frac>>, Unfinished>
    requires totals { AreTotals (view_of (content program.now)) totals.now }
    requires all_totals { length totals.now ≡ length program.now.nodes.items }
    requires stages { AreStages program.now.columns.items seating.now.stages.items }
    requires seated { AreSeated program.now.columns.items (lists_in seating.now.own.items) seating.now.seats.items }
    ensures { let v = view_of (content program.now) in
        IfOk result (λ numbers.
        AreAll (content program.now) seating.now.seats.items (reduced_walk (costs_of costs v) v (at values.now)) (lists_in numbers.items)) }
{
    let own = seating.own.as_slice();
    let stages = seating.stages.as_slice();
    let seats = seating.seats.as_slice();
    let mut numbers = all_priced(alloc, program, costs, totals, own)?;
    less_all(numbers.as_mut_slice(), program, stages, seats, values)?;
    Ok(numbers)
}
