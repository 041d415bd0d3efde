//! How large the program of all nodes may be.
ghost use Rattle.std.specs.Prelude.{◌≡◌, ◌-◌, IfOk, nat_lt};
ghost use Rattle.std.specs.List.{sum_by};
ghost use Rattle.rationals.specs.Passes.{unless};
ghost use Rattle.scen_defs.specs.Program.{content, view_of};
ghost use Rattle.edit_defs.specs.Limits.{row_entries};
ghost use Rattle.flat_write.specs.Sizes.{flat_rows, flat_columns, flat_entries, is_beyond};

use crate::lists::{columns_at, rows_at};
use frac128::Memory;
use scen_defs::{NodeRow, Program};
use std::alloc::Global;

/// How many rows, columns and entries that aren't 0 a core file may have.
#[derive(Clone, Copy, Debug)]
pub struct FlatLimits {
    pub rows: u32,
    pub columns: u32,
    pub entries: u32,
}

impl FlatLimits {
    /// Those of the core files that this solver reads.
    pub const CORE: FlatLimits = FlatLimits {
        rows: 4_000,
        columns: 4_000,
        entries: 100_000,
    };

    /// Those of a text for other solvers: ten million entries, and no limit of rows and columns.
    pub const WHOLE: FlatLimits = FlatLimits {
        rows: u32::MAX,
        columns: u32::MAX,
        entries: 10_000_000,
    };
}

/// What is left of a room for entries behind those of some rows, or nothing where they don't fit.
fn room_behind(rows: &[NodeRow], room: u64) -> Option<u64>
    ensures { result ≡ unless (nat_lt room (sum_by row_entries rows.now)) (room - sum_by row_entries rows.now) }
{
    let mut left = room;
    for row in rows {
        left = left.checked_sub(row.entries.len() as u64)?;
    }
    Some(left)
}

/// Whether the live nodes have more rows together than there may be.
fn has_many_rows(program: &Program, live: &[u64], most: u32) -> bool
    ensures { result ≡ nat_lt most (sum_by (flat_rows (view_of (content program.now))) live.now) }
{
    let mut left = most as u64;
    for node in live {
        match left.checked_sub(rows_at(program, *node).len() as u64) {
            Some(rest) => left = rest,
            None => return true,
        }
    }
    false
}

/// Whether they have more columns together than there may be.
fn has_many_columns(
    alloc: Global,
    program: &Program,
    live: &[u64],
    most: u32,
) -> Result<bool, Memory>
    ensures { IfOk result (λ many. many ≡ nat_lt most (sum_by (flat_columns (view_of (content program.now))) live.now)) }
{
    let mut left = most as u64;
    for node in live {
        let columns = columns_at(alloc, program, *node)?;
        match left.checked_sub(columns.len() as u64) {
            Some(rest) => left = rest,
            None => return Ok(true),
        }
    }
    Ok(false)
}

/// Whether they have more entries together than there may be.
fn has_many_entries(program: &Program, live: &[u64], most: u32) -> bool
    ensures { result ≡ nat_lt most (sum_by (flat_entries (view_of (content program.now))) live.now) }
{
    let mut left = most as u64;
    for node in live {
        match room_behind(rows_at(program, *node), left) {
            Some(rest) => left = rest,
            None => return true,
        }
    }
    false
}

/// Whether the live nodes have more rows, columns or entries together than there may be.
pub(crate) fn is_beyond(
    alloc: Global,
    program: &Program,
    live: &[u64],
    limits: FlatLimits,
) -> Result<bool, Memory>
    requires { live.now ≡ (view_of (content program.now)).live }
    ensures { IfOk result (λ beyond. beyond ≡ is_beyond limits (view_of (content program.now))) }
{
    let many_columns = has_many_columns(alloc, program, live, limits.columns)?;
    Ok(
        has_many_rows(program, live, limits.rows)
            || many_columns
            || has_many_entries(program, live, limits.entries),
    )
}
