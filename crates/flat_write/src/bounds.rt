//! The section BOUNDS.
ghost use Rattle.std.specs.Prelude.{◌≡◌, ◌++◌, OnOk};
ghost use Rattle.std.specs.List.{flat_map};
ghost use Rattle.core_defs.specs.Bounds.{infinite, is_at_most};
ghost use Rattle.rationals.specs.Rational.{neg_ℚ};
ghost use Rattle.scen_defs.specs.Program.{column_at, content, view_of};
ghost use Rattle.flat_write.specs.FlatText.{fixed_bound_line, lower_bound_line, upper_bound_line, from_text, to_text, between_text};
ghost use Rattle.flat_write.specs.FlatText.{bounds_text, bound_text, all_bounds_text};

use crate::lists::columns_at;
use crate::pieces::{flat_name, put_nonzero, put_number, put_words};
use frac128::{Frac, Memory};
use scen_defs::{Column, Program};
use std::alloc::Global;

/// Ten to the thirtieth. From there on LO and UP state no bound, which FX does.
fn infinite() -> Frac
    ensures { result ≡ infinite }
{
    let Some(value) = Frac::new(1_000_000_000_000_000_000_000_000_000_000, 1) else {
        unreachable!();
    };
    value
}

fn is_at_most(one: Frac, other: Frac) -> bool
    ensures { result ≡ is_at_most one other }
{
    one <= other
}

/// Whether LO states no bound by that number.
fn is_far_below(low: Frac) -> bool
    ensures { result ≡ is_at_most low (neg_ℚ infinite) }
{
    is_at_most(low, infinite().neg())
}

/// Whether UP states no bound by that number.
fn is_far_above(high: Frac) -> bool
    ensures { result ≡ is_at_most infinite high }
{
    is_at_most(infinite(), high)
}

/// Appends the bounds of a column that is at least a number.
fn put_from(alloc: Global, out: &mut Vec<u8>, name: &str, low: Frac) -> Result<(), Memory>
    ensures { OnOk result (out.new.items ≡ out.old.items ++ from_text name.now low) }
{
    if is_far_below(low) {
        put_number(alloc, out, "FX BND", name, low)?;
        put_words(alloc, out, "PL BND", name)
    } else {
        put_nonzero(alloc, out, "LO BND", name, low)
    }
}

/// Appends the bounds of a column that is at most a number.
fn put_to(alloc: Global, out: &mut Vec<u8>, name: &str, high: Frac) -> Result<(), Memory>
    ensures { OnOk result (out.new.items ≡ out.old.items ++ to_text name.now high) }
{
    if is_far_above(high) {
        put_number(alloc, out, "FX BND", name, high)?;
        put_words(alloc, out, "MI BND", name)
    } else {
        put_words(alloc, out, "MI BND", name)?;
        put_number(alloc, out, "UP BND", name, high)
    }
}

/// Appends the bounds of a column between two numbers that differ.
fn put_between(
    alloc: Global,
    out: &mut Vec<u8>,
    name: &str,
    low: Frac,
    high: Frac,
) -> Result<(), Memory>
    ensures { OnOk result (out.new.items ≡ out.old.items ++ between_text name.now low high) }
{
    if is_far_above(high) {
        put_number(alloc, out, "FX BND", name, high)?;
        return put_number(alloc, out, "LO BND", name, low);
    }
    let kind = if is_far_below(low) {
        "FX BND"
    } else {
        "LO BND"
    };
    put_number(alloc, out, kind, name, low)?;
    put_number(alloc, out, "UP BND", name, high)
}

/// Appends the bounds of a column.
fn put_bounds_of(
    alloc: Global,
    out: &mut Vec<u8>,
    name: &str,
    lower: Option<Frac>,
    upper: Option<Frac>,
) -> Result<(), Memory>
    ensures { OnOk result (out.new.items ≡ out.old.items ++ bounds_text name.now lower upper) }
{
    match (lower, upper) {
        (None, None) => put_words(alloc, out, "FR BND", name),
        (Some(low), None) => put_from(alloc, out, name, low),
        (None, Some(high)) => put_to(alloc, out, name, high),
        (Some(low), Some(high)) => {
            if low == high {
                put_number(alloc, out, "FX BND", name, low)
            } else {
                put_between(alloc, out, name, low, high)
            }
        }
    }
}

/// The lower bound of a column, where there is one.
fn lower_of(columns: &[Column], column: u64) -> Option<Frac>
    ensures { result ≡ (column_at columns.now column).lower }
{
    let place = column as usize;
    if place < columns.len() {
        columns[place].lower
    } else {
        None
    }
}

/// The upper bound of a column, where there is one.
fn upper_of(columns: &[Column], column: u64) -> Option<Frac>
    ensures { result ≡ (column_at columns.now column).upper }
{
    let place = column as usize;
    if place < columns.len() {
        columns[place].upper
    } else {
        None
    }
}

/// Appends the bounds of a column at a node.
fn put_bound(
    alloc: Global,
    out: &mut Vec<u8>,
    program: &Program,
    node: u64,
    column: u64,
) -> Result<(), Memory>
    ensures { OnOk result (out.new.items ≡ out.old.items ++ bound_text (view_of (content program.now)) node column) }
{
    let name = flat_name(alloc, "C", node, column)?;
    let low = lower_of(&program.columns, column);
    let high = upper_of(&program.columns, column);
    put_bounds_of(alloc, out, name.as_str(), low, high)
}

/// Appends the bounds of columns at a node.
fn put_bounds_at(
    alloc: Global,
    out: &mut Vec<u8>,
    program: &Program,
    node: u64,
    columns: &[u64],
) -> Result<(), Memory>
    ensures { OnOk result (out.new.items ≡ out.old.items ++ flat_map (bound_text (view_of (content program.now)) node) columns.now) }
{
    for column in columns {
        put_bound(alloc, out, program, node, *column)?;
    }
    Ok(())
}

/// Appends the bounds of a node's columns.
fn put_node_bounds(
    alloc: Global,
    out: &mut Vec<u8>,
    program: &Program,
    node: u64,
) -> Result<(), Memory>
    ensures { let v = view_of (content program.now) in
        OnOk result (out.new.items ≡ out.old.items ++ flat_map (bound_text v node) (v.columns (v.stage node))) }
{
    let columns = columns_at(alloc, program, node)?;
    put_bounds_at(alloc, out, program, node, &columns)
}

/// Appends the bounds of the columns of all nodes.
pub(crate) fn put_bounds(
    alloc: Global,
    out: &mut Vec<u8>,
    program: &Program,
    live: &[u64],
) -> Result<(), Memory>
    requires { live.now ≡ (view_of (content program.now)).live }
    ensures { OnOk result (out.new.items ≡ out.old.items ++ all_bounds_text (view_of (content program.now))) }
{
    for node in live {
        put_node_bounds(alloc, out, program, *node)?;
    }
    Ok(())
}
