//! All edits of a script.
ghost use Rattle.std.specs.Prelude.{◌≡◌, OnOk};
ghost use Rattle.scen_defs.specs.Program.{content};
ghost use Rattle.edit_script.specs.Allowed.{AreAllowed, program_after};

use crate::single::applied;
use edit_apply::count;
use edit_defs::{Act, Script};
use frac128::Memory;
use scen_defs::Program;
use std::alloc::Global;

/// Applies all edits of a script in place, where each is allowed at the program after those before it.
pub fn apply_all(alloc: Global, program: &mut Program, script: &Script) -> Result<(), Memory>
    requires allowed { AreAllowed (content program.old) script.now.items.items }
    ensures after { OnOk result (content program.new ≡ program_after (content program.old) script.now.items.items) }
{
    let mut counted = count(&program.nodes)?;
    let mut rest = script.items.as_slice();
    while let [item, behind @ ..] = rest {
        match &item.act {
            Act::Change(edit) => applied(alloc, program, &mut counted, edit)?,
            Act::Solve => {}
        }
        rest = behind;
    }
    Ok(())
}
