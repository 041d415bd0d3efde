//! Whether a policy meets all rows and bounds, where rows are summed up with rounding.
ghost use Rattle.std.specs.Prelude.{◌≡◌, IsTrue};
ghost use Rattle.rationals.specs.Intervals.{Between};
ghost use Rattle.scen_defs.specs.Lists.{Each};
ghost use Rattle.scen_defs.specs.Values.{at};
ghost use Rattle.scen_defs.specs.Flat.{along, Feasible};
ghost use Rattle.scen_defs.specs.Program.{content, view_of};
ghost use Rattle.rounded_ends.specs.Met.{RowsMet, BoundsMet};

use crate::rows::is_row_met;
use frac128::Frac;
use scen_defs::{NodeRow, Program, Values};
use scen_nodes::stage;

/// Whether each row of a node is met.
fn are_rows_met(
    program: &Program,
    rows: &[NodeRow],
    values: &Values,
    node: u64,
    near: &mut usize,
) -> bool
    ensures { IsTrue result → RowsMet (along (view_of (content program.now)) (at values.now) node) rows.now }
{
    for row in rows {
        if !is_row_met(program, row, values, node, near) {
            return false;
        }
    }
    true
}

/// Whether the rows of all nodes are met.
fn are_all_rows_met(program: &Program, values: &Values) -> bool
    ensures { let v = view_of (content program.now) in
        IsTrue result → Each (λ n. RowsMet (along v (at values.now) n) (v.rows n)) v.live }
{
    let mut near = 0;
    for (place, slot) in program.nodes.iter().enumerate() {
        if let Some(node) = slot {
            if !are_rows_met(program, &node.rows, values, place as u64, &mut near) {
                return false;
            }
        }
    }
    true
}

/// Whether a number lies between two bounds.
fn is_within(low: Option<Frac>, high: Option<Frac>, number: Frac) -> bool
    ensures { IsTrue result → Between low high number }
{
    let above = match low {
        Some(low) => low <= number,
        None => true,
    };
    let below = match high {
        Some(high) => number <= high,
        None => true,
    };
    above && below
}

/// Whether the values of a node's columns lie in their bounds.
fn are_bounds_met(program: &Program, values: &Values, node: u64, near: &mut usize) -> bool
    ensures { let v = view_of (content program.now) in
        IsTrue result → BoundsMet v (at values.now) node }
{
    let stage = stage(program, node);
    for (place, column) in program.columns.iter().enumerate() {
        if column.stage == stage {
            let value = values.get_near(node, place as u64, near);
            if !is_within(column.lower, column.upper, value) {
                return false;
            }
        }
    }
    true
}

/// Whether the values of all nodes lie in their bounds.
fn are_all_bounds_met(program: &Program, values: &Values) -> bool
    ensures { let v = view_of (content program.now) in
        IsTrue result → Each (BoundsMet v (at values.now)) v.live }
{
    let mut near = 0;
    for (place, slot) in program.nodes.iter().enumerate() {
        if slot.is_some() {
            if !are_bounds_met(program, values, place as u64, &mut near) {
                return false;
            }
        }
    }
    true
}

/// Whether a policy is shown to be feasible, with row sums that are rounded where they don't fit. Where the answer is no, it may be
/// feasible all the same.
pub fn is_feasible(program: &Program, policy: &Values) -> bool
    ensures { IsTrue result → Feasible (view_of (content program.now)) (at policy.now) }
{
    are_all_bounds_met(program, policy) && are_all_rows_met(program, policy)
}
