//! What the sections ROWS, RHS and RANGES say of each row at each node.
ghost use Rattle.std.specs.Prelude.{◌≡◌, ◌++◌, OnOk};
ghost use Rattle.std.specs.List.{flat_map};
ghost use Rattle.scen_defs.specs.Program.{content, view_of};
ghost use Rattle.flat_write.specs.FlatText.{kind_letter, side_of, row_text, rows_text};

use crate::lists::rows_at;
use crate::operations::{or_zero, row_span};
use crate::pieces::{flat_name, put_nonzero, put_words};
use frac128::{Frac, Memory};
use scen_defs::{NodeRow, Program};
use std::alloc::Global;

/// What is said of a row.
#[derive(Clone, Copy)]
pub(crate) enum RowPart {
    /// Its kind, in ROWS.
    Kind,
    /// Its right-hand side, in RHS.
    Side,
    /// How far its interval reaches, in RANGES.
    Range,
}

fn kind_letter(low: Option<Frac>, high: Option<Frac>) -> &'static str
    ensures { result.now ≡ kind_letter low high }
{
    match (low, high) {
        (None, _) => "L",
        (Some(_), None) => "G",
        (Some(low), Some(high)) => { if low == high { "E" } else { "G" } }
    }
}

/// The low end, where there is one, else the high one.
fn side_of(low: Option<Frac>, high: Option<Frac>) -> Frac
    ensures { result ≡ side_of low high }
{
    match (low, high) {
        (Some(low), _) => low,
        (None, Some(high)) => high,
        (None, None) => Frac::zero(),
    }
}

/// Appends what a section says of a row at a node.
fn put_row(
    alloc: Global,
    out: &mut Vec<u8>,
    part: RowPart,
    node: u64,
    row: &NodeRow,
) -> Result<(), Memory>
    ensures { OnOk result (out.new.items ≡ out.old.items ++ row_text part node row.now) }
{
    let name = flat_name(alloc, "R", node, row.row as u64)?;
    match part {
        RowPart::Kind => put_words(alloc, out, kind_letter(row.low, row.high), name.as_str()),
        RowPart::Side => put_nonzero(alloc, out, "RHS", name.as_str(), side_of(row.low, row.high)),
        RowPart::Range => put_nonzero(alloc, out, "RNG", name.as_str(), or_zero(row_span(row))),
    }
}

/// Appends what a section says of rows at a node.
fn put_rows_at(
    alloc: Global,
    out: &mut Vec<u8>,
    part: RowPart,
    node: u64,
    rows: &[NodeRow],
) -> Result<(), Memory>
    ensures { OnOk result (out.new.items ≡ out.old.items ++ flat_map (row_text part node) rows.now) }
{
    for row in rows {
        put_row(alloc, out, part, node, row)?;
    }
    Ok(())
}

/// Appends what a section says of the rows of all nodes.
pub(crate) fn put_rows(
    alloc: Global,
    out: &mut Vec<u8>,
    part: RowPart,
    program: &Program,
    live: &[u64],
) -> Result<(), Memory>
    requires { live.now ≡ (view_of (content program.now)).live }
    ensures { OnOk result (out.new.items ≡ out.old.items ++ rows_text part (view_of (content program.now))) }
{
    for node in live {
        put_rows_at(alloc, out, part, *node, rows_at(program, *node))?;
    }
    Ok(())
}
