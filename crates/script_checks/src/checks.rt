//! Each report is checked against the program after the edits before its SOLVE.
ghost use Rattle.std.specs.Prelude.{◌≡◌, IfOk};
ghost use Rattle.scen_defs.specs.Program.{content};
ghost use Rattle.edit_script.specs.Allowed.{AreAllowed};
ghost use Rattle.script_checks.specs.Checked.{AreChecked};

use crate::single::{Checked, outcome_of};
use edit_apply::count;
use edit_defs::{Act, Script};
use edit_script::applied;
use frac128::Memory;
use scen_defs::{Program, Report};
use std::alloc::Global;

/// What the checks of the reports of a script come to: of the first against the program after the edits before the first SOLVE, and so
/// on. Reports behind the last SOLVE aren't checked. The program is then as the edits left it.
pub fn check_script(
    alloc: Global,
    program: &mut Program,
    script: &Script,
    reports: &[Report],
) -> Result<Vec<Checked>, Memory>
    requires allowed { AreAllowed (content program.old) script.now.items.items }
    ensures { IfOk result (λ checks. AreChecked (content program.old) script.now.items.items reports.now checks.items) }
{
    let mut checks = Vec::new(alloc);
    let mut counted = count(&program.nodes)?;
    let mut waiting = reports;
    let mut rest = script.items.as_slice();
    while let [item, behind @ ..] = rest {
        match &item.act {
            Act::Change(edit) => applied(alloc, program, &mut counted, edit)?,
            Act::Solve => {
                if let [report, others @ ..] = waiting {
                    let outcome = outcome_of(alloc, program, report)?;
                    let number = report.number;
                    checks.push(Checked { number, outcome })?;
                    waiting = others;
                }
            }
        }
        rest = behind;
    }
    Ok(checks)
}
