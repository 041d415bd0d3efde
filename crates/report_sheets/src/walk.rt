//! The program as it is where a report is asked for.
ghost use Rattle.std.specs.Prelude.{◌≡◌, OnOk};
ghost use Rattle.scen_defs.specs.Program.{content};
ghost use Rattle.edit_script.specs.Allowed.{AreAllowed};
ghost use Rattle.report_sheets.specs.Sheets.{program_at};

use edit_apply::count;
use edit_defs::{Act, Script};
use edit_script::applied;
use frac128::Memory;
use scen_defs::Program;
use std::alloc::Global;

/// Applies the edits of a script that stand before a SOLVE, of which so many others come first; all edits where there is no such SOLVE.
pub(crate) fn edit_up_to(
    alloc: Global,
    program: &mut Program,
    script: &Script,
    before: usize,
) -> Result<(), Memory>
    requires allowed { AreAllowed (content program.old) script.now.items.items }
    ensures { OnOk result (content program.new ≡ program_at (content program.old) script.now.items.items before) }
{
    let mut counted = count(&program.nodes)?;
    let mut left = before;
    let mut rest = script.items.as_slice();
    while let [item, others @ ..] = rest {
        match &item.act {
            Act::Change(edit) => applied(alloc, program, &mut counted, edit)?,
            Act::Solve => {
                if left == 0 {
                    return Ok(());
                }
                left -= 1;
            }
        }
        rest = others;
    }
    Ok(())
}
