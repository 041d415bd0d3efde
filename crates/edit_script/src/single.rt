//! An edit that is allowed.
ghost use Rattle.std.specs.Prelude.{◌≡◌, OnOk};
ghost use Rattle.scen_defs.specs.Program.{content};
ghost use Rattle.edit_defs.specs.After.{after};
ghost use Rattle.edit_defs.specs.Limits.{counts};
ghost use Rattle.edit_script.specs.Allowed.{IsAllowed};

use edit_apply::{ApplyFault, apply_counted};
use edit_defs::{Counts, Edit};
use frac128::Memory;
use scen_defs::Program;
use std::alloc::Global;

/// Applies an edit that has no cause to be refused, in place: memory alone can be wanting. `counted` has what the program's nodes
/// have, before and after.
pub fn applied(
    alloc: Global,
    program: &mut Program,
    counted: &mut Counts,
    edit: &Edit,
) -> Result<(), Memory>
    requires allowed { IsAllowed (content program.old) edit.now }
    requires counted { counted.old ≡ counts (content program.old).nodes }
    ensures after { OnOk result (content program.new ≡ after (content program.old) edit.now) }
    ensures counted { OnOk result (counted.new ≡ counts (content program.new).nodes) }
{
    match apply_counted(alloc, program, counted, edit) {
        Ok(()) => Ok(()),
        Err(ApplyFault::Refused(_)) => unreachable!(),
        Err(ApplyFault::Memory) => Err(Memory),
    }
}
