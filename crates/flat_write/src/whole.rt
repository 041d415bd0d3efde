//! The text of a program as one core file.
ghost use Rattle.std.specs.Prelude.{◌≡◌, ◌++◌, IfOk, OnOk, codes};
ghost use Rattle.rationals.specs.Replies.{IsReply, reply_by};
ghost use Rattle.scen_defs.specs.Program.{content, view_of};
ghost use Rattle.flat_write.specs.Flat.{written, flat_says};
ghost use Rattle.flat_write.specs.FlatText.{rows_text, all_bounds_text, section_text, front_text, flat_text};

use crate::bounds::put_bounds;
use crate::columns::put_columns;
use crate::fault::FlatFault;
use crate::limits::{FlatLimits, is_beyond};
use crate::lists::live_nodes;
use crate::operations::operations;
use crate::pieces::put;
use crate::rows::{RowPart, put_rows};
use frac128::Memory;
use scen_defs::Program;
use std::alloc::Global;

/// Appends a section, unless it has no line.
fn put_section(out: &mut Vec<u8>, header: &str, lines: &[u8]) -> Result<(), Memory>
    ensures { OnOk result (out.new.items ≡ out.old.items ++ section_text header.now lines.now) }
{
    if lines.is_empty() {
        return Ok(());
    }
    put(out, header)?;
    out.extend_from_slice(lines)?;
    Ok(())
}

/// Appends what a section says of the rows, unless it has no line.
fn put_row_section(
    alloc: Global,
    out: &mut Vec<u8>,
    header: &str,
    part: RowPart,
    program: &Program,
    live: &[u64],
) -> Result<(), Memory>
    requires { live.now ≡ (view_of (content program.now)).live }
    ensures { OnOk result (out.new.items ≡ out.old.items ++ section_text header.now (rows_text part (view_of (content program.now)))) }
{
    let mut lines = Vec::new(alloc);
    put_rows(alloc, &mut lines, part, program, live)?;
    put_section(out, header, &lines)
}

/// Appends the section of the bounds, unless it has no line.
fn put_bound_section(
    alloc: Global,
    out: &mut Vec<u8>,
    program: &Program,
    live: &[u64],
) -> Result<(), Memory>
    requires { live.now ≡ (view_of (content program.now)).live }
    ensures { OnOk result (out.new.items ≡ out.old.items
        ++ section_text (codes "BOUNDS\n") (all_bounds_text (view_of (content program.now)))) }
{
    let mut lines = Vec::new(alloc);
    put_bounds(alloc, &mut lines, program, live)?;
    put_section(out, "BOUNDS\n", &lines)
}

/// The text up to the columns.
fn front(alloc: Global, program: &Program, live: &[u64]) -> Result<Vec<u8>, Memory>
    requires { live.now ≡ (view_of (content program.now)).live }
    ensures { IfOk result (λ text. text.items ≡ front_text (view_of (content program.now))) }
{
    let mut out = Vec::new(alloc);
    put(&mut out, "NAME FLAT\nROWS\n N COST\n")?;
    put_rows(alloc, &mut out, RowPart::Kind, program, live)?;
    put(&mut out, "COLUMNS\n")?;
    put_columns(alloc, &mut out, program, live)?;
    Ok(out)
}

/// The whole text.
fn text(alloc: Global, program: &Program, live: &[u64]) -> Result<Vec<u8>, Memory>
    requires { live.now ≡ (view_of (content program.now)).live }
    ensures { IfOk result (λ text. text.items ≡ flat_text (view_of (content program.now))) }
{
    let mut out = front(alloc, program, live)?;
    put_row_section(alloc, &mut out, "RHS\n", RowPart::Side, program, live)?;
    put_row_section(alloc, &mut out, "RANGES\n", RowPart::Range, program, live)?;
    put_bound_section(alloc, &mut out, program, live)?;
    put(&mut out, "ENDATA\n")?;
    Ok(out)
}

/// The program of all nodes as the text of one core file: column j at node n is `Cn_j`, row i at node n is `Rn_i`, and a cost is
/// the node's total times the cost there. `Limit` comes where there are more rows, columns or entries than `limits` say; then
/// `Passed` where an operation passes: the sums of the totals by node, the total times each cost by node and column, and the
/// high end less the low one by node and row, the first in this order.
pub fn write_flat(
    alloc: Global,
    program: &Program,
    limits: FlatLimits,
) -> Result<Vec<u8>, FlatFault>
    ensures { IsReply (written limits (view_of (content program.now))) (reply_by (λ text. text.items) flat_says result) }
{
    let live = live_nodes(alloc, program)?;
    if is_beyond(alloc, program, &live, limits)? {
        return Err(FlatFault::Limit);
    }
    match operations(alloc, program, &live)? {
        Ok(()) => {
            let text = text(alloc, program, &live)?;
            Ok(text)
        }
        Err(passed) => Err(FlatFault::Passed(passed)),
    }
}
