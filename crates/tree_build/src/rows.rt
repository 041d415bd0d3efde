//! The rows of a node with their intervals.
ghost use Rattle.std.specs.Prelude.{◌≡◌, [], Ok, get_or, MatchResult};
ghost use Rattle.stoch_defs.specs.Entries.{no_row};
ghost use Rattle.smps_build.specs.Faults.{BuildFaultOf};
ghost use Rattle.tree_build.specs.Finish.{value_rows};

use crate::parts::RowValues;
use core_defs::RowDef;
use frac128::Frac;
use scen_defs::NodeRow;
use smps_build::{BuildFault, interval};
use smps_words::RowKind;
use std::alloc::Global;

/// The kind of a row, L where there is none of that number.
fn kind_of(rows: &[RowDef], row: u32) -> RowKind
    ensures { result ≡ (get_or rows.now row no_row).kind }
{
    let place = row as usize;
    if place < rows.len() {
        rows[place].kind
    } else {
        RowKind::Less
    }
}

/// The range of a row, where there is one.
fn range_of(rows: &[RowDef], row: u32) -> Option<Frac>
    ensures { result ≡ (get_or rows.now row no_row).range }
{
    let place = row as usize;
    if place < rows.len() {
        rows[place].range
    } else {
        None
    }
}

/// The rows of a node with their intervals; or the first operation that passes.
pub(crate) fn node_rows(
    alloc: Global,
    defs: &[RowDef],
    rows: Vec<RowValues>,
) -> Result<Vec<NodeRow>, BuildFault>
    ensures { MatchResult result (λ all. value_rows defs.now [] rows.items ≡ Ok all.items)
        (BuildFaultOf (value_rows defs.now [] rows.items)) }
{
    let mut all = Vec::with_capacity(alloc, rows.len())?;
    for row in rows {
        let RowValues { row, entries, rhs } = row;
        let (low, high) = interval(kind_of(defs, row), rhs, range_of(defs, row))?;
        all.push(NodeRow {
            row,
            entries,
            low,
            high,
        })?;
    }
    Ok(all)
}
