// A SET in place.
ghost use Rattle.std.specs.Prelude.{◌≡◌, None, Some, OnOk, OnErr, IfErr};
ghost use Rattle.smps_words.specs.declared.entry.Entry.TheVariants.{Cost, Matrix, Rhs};
ghost use Rattle.scen_defs.specs.Program.{content};
ghost use Rattle.edit_defs.specs.declared.edit.Edit.TheVariants.{Set};
ghost use Rattle.edit_defs.specs.After.{after, home_of};
ghost use Rattle.edit_defs.specs.Applies.{IsSet};
ghost use Rattle.edit_defs.specs.Operations.{set_passed};

use edit_defs::right_ends;
use edit_entries::{set_cost, set_ends, set_matrix};
use frac128::{Frac, Memory, Passed};
use scen_defs::Program;
use smps_words::Name;
use std::alloc::Global;

/// Sets a right-hand side in place, at the node of that number. Where an operation of the row's interval passes, the program stays as
/// it was.
pub(crate) fn set_right_side(
    program: &mut Program,
    scenario: &Name,
    place: u32,
    row: u32,
    value: Frac,
) -> Result<(), Passed>
    requires applies { IsSet (content program.old) scenario.now (Rhs row) }
    requires place { place ≡ home_of (content program.old) scenario.now (Rhs row) }
    ensures ok { OnOk result (content program.new ≡ after (content program.old) (Set scenario.now (Rhs row) value)) }
    ensures none { OnOk result (set_passed (content program.old) (Rhs row) value ≡ None) }
    ensures err { IfErr result (λ passed. set_passed (content program.old) (Rhs row) value ≡ Some passed) }
    ensures same { OnErr result (content program.new ≡ content program.old) }
{
    let ends = right_ends(&program.rows, row, value)?;
    set_ends(&mut program.nodes, place, row, &ends);
    Ok(())
}

/// Sets a cost in place, at the node of that number. Where memory is wanting, the program stays as it was.
pub(crate) fn set_column_cost(
    alloc: Global,
    program: &mut Program,
    scenario: &Name,
    place: u32,
    column: u32,
    value: Frac,
) -> Result<(), Memory>
    requires applies { IsSet (content program.old) scenario.now (Cost column) }
    requires place { place ≡ home_of (content program.old) scenario.now (Cost column) }
    ensures ok { OnOk result (content program.new ≡ after (content program.old) (Set scenario.now (Cost column) value)) }
    ensures same { OnErr result (content program.new ≡ content program.old) }
{
    set_cost(alloc, &mut program.nodes, place, column, value)
}

/// Sets an entry in place, at the node of that number. Where memory is wanting, the program stays as it was.
pub(crate) fn set_matrix_entry(
    alloc: Global,
    program: &mut Program,
    scenario: &Name,
    place: u32,
    row: u32,
    column: u32,
    value: Frac,
) -> Result<(), Memory>
    requires applies { IsSet (content program.old) scenario.now (Matrix row column) }
    requires place { place ≡ home_of (content program.old) scenario.now (Matrix row column) }
    ensures ok { OnOk result (content program.new ≡ after (content program.old) (Set scenario.now (Matrix row column) value)) }
    ensures same { OnErr result (content program.new ≡ content program.old) }
{
    set_matrix(alloc, &mut program.nodes, place, row, column, value)
}
