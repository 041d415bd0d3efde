//! Reads the edit list and the report file that stand beside the texts of a program.
ghost use Rattle.std.specs.Prelude.{◌≡◌, ◌≤◌, ◌∷◌, [], IfOk, length};
ghost use Rattle.scen_defs.specs.Program.{content};
ghost use Rattle.edit_script.specs.Allowed.{AreAllowed};
ghost use Rattle.edit_script.specs.Script.{report_item};
ghost use Rattle.edit_script.specs.Solves.{solve_count};
ghost use Rattle.input_files.specs.Unfetched.{texts_view, given_bytes};
ghost use Rattle.program_files.specs.Meant.{AreWithin, MeansProgram};
ghost use Rattle.program_files.specs.Edited.{or_empty, MeansScript};
ghost use Rattle.program_files.specs.Views.{GivesScript, GivesReports};

use crate::reading::{Unread, stopped};
use edit_defs::{Act, Item, Script};
use edit_script::{read_script, solves};
use frac128::Memory;
use input_files::{FileKind, Texts};
use report_reader::read_reports;
use scen_defs::{Program, Report};
use std::alloc::Global;

/// The bytes of a text, none where there is no text.
fn or_empty(text: &Option<Vec<u8>>) -> &[u8]
    ensures { result.now ≡ or_empty (given_bytes text.now) }
{
    match text {
        Some(text) => text,
        None => &[],
    }
}

/// One report, of the program as it stands: what no edit list asks for.
fn unedited(alloc: Global) -> Result<Script, Memory>
    ensures { IfOk result (λ script. script.items.items ≡ report_item ∷ []) }
{
    let mut items = Vec::new(alloc);
    items.push(Item {
        work: 0,
        act: Act::Solve,
    })?;
    Ok(Script { items })
}

/// The script that the edit list means for the program of the texts. The program is copied, for the edits to be tried on.
fn read_list(alloc: Global, texts: &Texts, program: &Program) -> Result<Script, Unread>
    requires within { AreWithin (texts_view texts.now) }
    requires means { MeansProgram (texts_view texts.now) (content program.now) }
    ensures script { GivesScript (texts_view texts.now) (content program.now) result }
    ensures allowed { IfOk result (λ script. AreAllowed (content program.now) script.items.items) }
    ensures few { IfOk result (λ script. length script.items.items ≤ 10001) }
{
    match read_script(alloc, or_empty(&texts.edits), program) {
        Ok(script) => Ok(script),
        Err(fail) => Err(stopped(FileKind::Edits, fail, None)),
    }
}

/// The script that the edit list means for the program of the texts; no edit list is read as an empty one, so that the script is a
/// report, and then the program isn't copied. Else the first fault of the edit list, without the core.
pub fn read_edits(alloc: Global, texts: &Texts, program: &Program) -> Result<Script, Unread>
    requires within { AreWithin (texts_view texts.now) }
    requires means { MeansProgram (texts_view texts.now) (content program.now) }
    ensures script { GivesScript (texts_view texts.now) (content program.now) result }
    // Each edit has no cause to be refused by the program after those before it.
    ensures allowed { IfOk result (λ script. AreAllowed (content program.now) script.items.items) }
    ensures few { IfOk result (λ script. length script.items.items ≤ 10001) }
{
    match &texts.edits {
        Some(_) => read_list(alloc, texts, program),
        None => match unedited(alloc) {
            Ok(script) => Ok(script),
            Err(Memory) => Err(Unread::Memory),
        },
    }
}

/// The reports that the report file tells, with the names of the program of the texts: at most as many as the script has SOLVEs, and
/// none where there is no report file. Else the first fault of the report file, without the core.
pub fn read_told(
    alloc: Global,
    texts: &Texts,
    program: &Program,
    script: &Script,
) -> Result<Vec<Report>, Unread>
    requires within { AreWithin (texts_view texts.now) }
    requires means { MeansProgram (texts_view texts.now) (content program.now) }
    requires script { MeansScript (texts_view texts.now) (content program.now) script.now.items.items }
    requires few { length script.now.items.items ≤ 10001 }
    ensures { GivesReports (texts_view texts.now) (solve_count script.now.items.items) program.now result }
{
    match read_reports(alloc, or_empty(&texts.report), program, solves(script)) {
        Ok(reports) => Ok(reports),
        Err(fail) => Err(stopped(FileKind::Report, fail, None)),
    }
}
