//! The pivots on artificial columns that are left behind phase one.
ghost use Rattle.std.specs.Prelude.{◌≡◌, ◌≤◌, ◌-◌, length, IfOk};
ghost use Rattle.lp_defs.specs.Phases.{nonzero_below, has_artificial_above, replacing, driven};
ghost use Rattle.lp_defs.specs.Stages.{HasRisen};
ghost use Rattle.simplex_core.specs.Drove.{Drove, DroveWithin, StopsDrive};

use crate::row::Row;
use crate::sign::{is_above_zero, is_zero};
use crate::tableau::Tableau;
use frac128::{ArithmeticFault, Memory, Passed, Term};

/// How these pivots end.
#[derive(Drop)]
pub enum Driven {
    /// So many pivots are made, with those before.
    Out(u64),
    /// One more pivot than allowed would follow.
    PivotsEnded,
    /// In the pivot of this number.
    Passed(u64, Passed),
}

/// The least column below `columns` whose entry isn't 0.
fn nonzero_below(entries: &[Term], columns: u64) -> Option<u64>
    ensures { result ≡ nonzero_below columns entries.now }
{
    for term in entries {
        if !is_zero(term.value) && term.column < columns {
            return Some(term.column);
        }
    }
    None
}

/// The column that takes the place of a row's artificial column.
fn replacing(row: &Row, columns: u64) -> Option<u64>
    ensures { result ≡ replacing columns row.now }
{
    if row.basic() < columns {
        None
    } else {
        nonzero_below(row.line().entries().terms(), columns)
    }
}

/// Whether an artificial column is basic with a right side above 0.
pub fn has_artificial_above(rows: &[Row], columns: u64) -> bool
    ensures { result ≡ has_artificial_above columns rows.now }
{
    for row in rows {
        if columns <= row.basic() && is_above_zero(row.line().right()) {
            return true;
        }
    }
    false
}

/// How the pivots end at a fault.
fn stopped(fault: ArithmeticFault, pivot: u64) -> Result<Driven, Memory>
    ensures { StopsDrive fault pivot result }
{
    match fault {
        ArithmeticFault::Passed(passed) => Ok(Driven::Passed(pivot, passed)),
        ArithmeticFault::Memory => Err(Memory),
    }
}

/// Pivots each row in order whose basic column is artificial on its least column that isn't, where it has
/// one; `made` pivots are made, and `pivots` are allowed.
pub fn drive(
    tableau: &mut Tableau,
    columns: u64,
    pivots: u64,
    made: u64,
    spare: &mut Vec<Term>,
) -> Result<Driven, Memory>
    requires within { made ≤ pivots }
    requires rises { HasRisen tableau.old }
    ensures driven { IfOk result (λ end.
        Drove (driven columns (length tableau.old.rows) 0 (pivots - made) made tableau.old) end tableau.new) }
    ensures within { IfOk result (DroveWithin pivots) }
{
    let mut count = made;
    for index in 0..tableau.rows().len() {
        let Some(column) = replacing(&tableau.rows()[index], columns) else {
            continue;
        };
        if count == pivots {
            return Ok(Driven::PivotsEnded);
        }
        match tableau.pivot(column, index, spare) {
            Ok(()) => {}
            Err(fault) => return stopped(fault, count + 1),
        }
        count += 1;
    }
    Ok(Driven::Out(count))
}
