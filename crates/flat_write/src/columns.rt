//! The section COLUMNS.
ghost use Rattle.std.specs.Prelude.{◌≡◌, ◌++◌, OnOk};
ghost use Rattle.std.specs.List.{flat_map};
ghost use Rattle.scen_defs.specs.Program.{content, view_of};
ghost use Rattle.scen_defs.specs.Flat.{subtree};
ghost use Rattle.flat_write.specs.Operations.{or_zero, node_total};
ghost use Rattle.flat_write.specs.FlatText.{entry_text, column_text, columns_text};

use crate::lists::{columns_at, rows_at, subtree};
use crate::operations::{node_total, or_zero, price};
use crate::pieces::{flat_name, put_nonzero, put_number};
use frac128::{Frac, Memory};
use scen_defs::{NodeRow, Program};
use std::alloc::Global;

/// Appends the entry of a column in a row at a node, unless it is 0.
fn put_entry(
    alloc: Global,
    out: &mut Vec<u8>,
    name: &str,
    column: u64,
    node: u64,
    row: &NodeRow,
) -> Result<(), Memory>
    ensures { OnOk result (out.new.items ≡ out.old.items ++ entry_text name.now column node row.now) }
{
    let row_name = flat_name(alloc, "R", node, row.row as u64)?;
    put_nonzero(alloc, out, name, row_name.as_str(), row.entries.get(column))
}

/// Appends the entries of a column in rows at a node.
fn put_entries_at(
    alloc: Global,
    out: &mut Vec<u8>,
    name: &str,
    column: u64,
    node: u64,
    rows: &[NodeRow],
) -> Result<(), Memory>
    ensures { OnOk result (out.new.items ≡ out.old.items ++ flat_map (entry_text name.now column node) rows.now) }
{
    for row in rows {
        put_entry(alloc, out, name, column, node, row)?;
    }
    Ok(())
}

/// Appends the entries of a column in the rows of nodes.
fn put_entries(
    alloc: Global,
    out: &mut Vec<u8>,
    name: &str,
    program: &Program,
    column: u64,
    nodes: &[u64],
) -> Result<(), Memory>
    ensures { OnOk result (out.new.items ≡ out.old.items
        ++ flat_map (λ m. flat_map (entry_text name.now column m) ((view_of (content program.now)).rows m)) nodes.now) }
{
    for node in nodes {
        put_entries_at(alloc, out, name, column, *node, rows_at(program, *node))?;
    }
    Ok(())
}

/// Appends a column at a node: its cost, and its entries at the node and below it.
fn put_column(
    alloc: Global,
    out: &mut Vec<u8>,
    program: &Program,
    below: &[u64],
    total: Frac,
    node: u64,
    column: u64,
) -> Result<(), Memory>
    requires below { below.now ≡ subtree (view_of (content program.now)) node }
    requires total { total ≡ or_zero (node_total (view_of (content program.now)) node) }
    ensures { OnOk result (out.new.items ≡ out.old.items ++ column_text (view_of (content program.now)) node column) }
{
    let name = flat_name(alloc, "C", node, column)?;
    let cost = or_zero(price(program, total, node, column));
    put_number(alloc, out, name.as_str(), "COST", cost)?;
    put_entries(alloc, out, name.as_str(), program, column, below)
}

/// Appends columns at a node.
fn put_columns_of(
    alloc: Global,
    out: &mut Vec<u8>,
    program: &Program,
    below: &[u64],
    total: Frac,
    node: u64,
    columns: &[u64],
) -> Result<(), Memory>
    requires below { below.now ≡ subtree (view_of (content program.now)) node }
    requires total { total ≡ or_zero (node_total (view_of (content program.now)) node) }
    ensures { OnOk result (out.new.items ≡ out.old.items ++ flat_map (column_text (view_of (content program.now)) node) columns.now) }
{
    for column in columns {
        put_column(alloc, out, program, below, total, node, *column)?;
    }
    Ok(())
}

/// Appends the columns of a node.
fn put_columns_at(
    alloc: Global,
    out: &mut Vec<u8>,
    program: &Program,
    live: &[u64],
    node: u64,
) -> Result<(), Memory>
    requires { live.now ≡ (view_of (content program.now)).live }
    ensures { let v = view_of (content program.now) in
        OnOk result (out.new.items ≡ out.old.items ++ flat_map (column_text v node) (v.columns (v.stage node))) }
{
    let columns = columns_at(alloc, program, node)?;
    let below = subtree(alloc, program, live, node)?;
    let total = or_zero(node_total(program, node));
    put_columns_of(alloc, out, program, &below, total, node, &columns)
}

/// Appends the columns of all nodes.
pub(crate) fn put_columns(
    alloc: Global,
    out: &mut Vec<u8>,
    program: &Program,
    live: &[u64],
) -> Result<(), Memory>
    requires { live.now ≡ (view_of (content program.now)).live }
    ensures { OnOk result (out.new.items ≡ out.old.items ++ columns_text (view_of (content program.now))) }
{
    for node in live {
        put_columns_at(alloc, out, program, live, *node)?;
    }
    Ok(())
}
