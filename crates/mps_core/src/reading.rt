//! Reading a whole text.
ghost use Rattle.std.specs.Prelude.{◌≡◌, ◌<◌, ◌-◌, ◌^◌, length, IfOk};
ghost use Rattle.core_defs.specs.Fault.{IsReadOrRefused};
ghost use Rattle.core_defs.specs.Filed.{nothing_filed};
ghost use Rattle.core_defs.specs.Means.{TextMeans};
ghost use Rattle.core_defs.specs.Step.{filed_text};
ghost use Rattle.mps_core.specs.View.{filed, FilesLines};

use crate::draft::Draft;
use crate::whole::core_of;
use core_defs::{Core, ReadFail, Section};
use reader_defs::{missing, refused};
use smps_words::Lines;
use std::alloc::Global;

/// The core that the text of a core file gives.
///
/// The form is that of the MPS format: the sections NAME, ROWS, COLUMNS, RHS, RANGES, BOUNDS and ENDATA, behind which nothing is read.
/// A text that isn't of the form is refused at the first line that is at fault, or behind the last line where a section is missing.
pub fn read_core(alloc: Global, text: &[u8]) -> Result<Core, ReadFail>
    requires { length text.now < 2 ^ 32 - 1 }
    // The core is the one that the lines mean, taken together.
    ensures means { IfOk result (TextMeans text.now) }

    // A text is read exactly where no line is at fault and no section is missing; else the first fault is named.
    ensures faults { IsReadOrRefused text.now result }
{
    let mut draft = Draft::empty(alloc);
    core_in(alloc, &mut draft, text)
}

/// The core that a text gives, whose lines are filed in a draft that is empty.
fn core_in(alloc: Global, draft: &mut Draft, text: &[u8]) -> Result<Core, ReadFail>
    requires empty { filed draft.old ≡ nothing_filed }
    requires fits { length text.now < 2 ^ 32 - 1 }
    ensures means { IfOk result (TextMeans text.now) }
    ensures faults { IsReadOrRefused text.now result }
{
    file_lines(draft, text)?;
    match core_of(alloc, draft) {
        Ok(core) => Ok(core),
        Err(_) => Err(ReadFail::Memory),
    }
}

/// Files the lines of a text up to ENDATA in a draft that is empty.
fn file_lines(draft: &mut Draft, text: &[u8]) -> Result<(), ReadFail>
    requires empty { filed draft.old ≡ nothing_filed }
    requires fits { length text.now < 2 ^ 32 - 1 }
    ensures { FilesLines draft.new result (filed_text text.now) }
{
    let mut lines = Lines::over(text);
    while let Some(line) = lines.next() {
        match draft.step(&line) {
            Ok(()) => {}
            Err(stop) => return Err(refused(line.number, stop)),
        }
        if draft.section == Section::End {
            if draft.has_columns {
                return Ok(());
            }
            return Err(missing(&lines));
        }
    }
    Err(missing(&lines))
}
