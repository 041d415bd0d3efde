// Reading a whole edit list.
ghost use Rattle.std.specs.Prelude.{◌≡◌, ◌<◌, ◌≤◌, ◌-◌, ◌^◌, IfOk, length};
ghost use Rattle.scen_defs.specs.Program.{content};
ghost use Rattle.edit_script.specs.Script.{script_of};
ghost use Rattle.edit_script.specs.Allowed.{AreAllowed};
ghost use Rattle.edit_script.specs.Drafts.{Means};

use crate::draft::Draft;
use core_defs::ReadFail;
use edit_defs::Script;
use reader_defs::refused;
use scen_defs::Program;
use smps_words::Lines;
use std::alloc::Global;

/// The script that an edit list means for a program.
///
/// Each line has a command, which is read by the program after the commands before it: SET, PROB, DROP, ADD, WORK or SOLVE and its fields.
/// The first line that is no command, or whose edit doesn't apply there, is refused with its cause; so is the command behind the ten
/// thousandth. A report stands at the end of the script, also where the list doesn't say so.
///
/// An edit of a program with more than a million places of nodes is answered by `Memory`. None comes to be: a program of files has at
/// most 20,000 nodes, and 10,000 edits add at most 16 each.
pub fn read_script(alloc: Global, text: &[u8], program: &Program) -> Result<Script, ReadFail>
    requires text { length text.now < 2 ^ 32 - 1 }
    // The script is the one that the text means, or the refusal is that of the first line that is at fault, unless memory is wanting.
    ensures exact { Means result (script_of text.now (content program.now)) }
    // Each edit has no cause to be refused by the program after those before it.
    ensures allowed { IfOk result (λ script. AreAllowed (content program.now) script.items.items) }
    ensures few { IfOk result (λ script. length script.items.items ≤ 10001) }
{
    let mut draft = match Draft::start(alloc, program) {
        Ok(draft) => draft,
        Err(_) => return Err(ReadFail::Memory),
    };
    let mut lines = Lines::over(text);
    while let Some(line) = lines.next() {
        match draft.step(&line) {
            Ok(()) => {}
            Err(stop) => return Err(refused(line.number, stop)),
        }
    }
    match draft.finish() {
        Ok(script) => Ok(script),
        Err(_) => Err(ReadFail::Memory),
    }
}
