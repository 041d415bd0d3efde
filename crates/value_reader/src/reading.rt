//! Reads a text, line by line.
ghost use Rattle.std.specs.Prelude.{IfOk};
ghost use Rattle.value_reader.specs.Differences.{AreDifferences};

use crate::fault::Fault;
use crate::lines::{Draft, Next, step};
use crate::numbers::{Costs, StatedMeasures};
use refusals::{Cause, ReadFail, Refusal};
use std::alloc::Global;

/// The text is refused at this line.
fn refused(line: u32, cause: Cause) -> ReadFail {
    ReadFail::Refused(Refusal { line, cause })
}

/// What is read of lines, and how many there are.
fn read_lines(alloc: Global, lines: &[u8]) -> Result<(Draft, u32), ReadFail> {
    let mut number: u32 = 0;
    let mut draft = Draft {
        costs: Costs::none(),
        next: Next::First,
    };
    for line in lines.split(|byte| *byte == b'\n') {
        number = number.saturating_add(1);
        match step(alloc, &draft, line) {
            Ok(read) => draft = read,
            Err(Fault::Other) => return Err(refused(number, Cause::ReportBad)),
            Err(Fault::Wide) => return Err(refused(number, Cause::NumberWide)),
            Err(Fault::Memory) => return Err(ReadFail::Memory),
        }
    }
    Ok((draft, number))
}

/// The numbers that a text states which the command `value` printed: EVPI and VSS are the differences that they are said to be. Of the
/// reports in it nothing is read but where each ends.
///
/// The first line that isn't one of such a text there is refused with 58, and so is the line after the last where the text is cut off. A
/// number that is a wide one is refused with 20.
pub fn read_measures(alloc: Global, text: &[u8]) -> Result<StatedMeasures, ReadFail>
    ensures { IfOk result AreDifferences }
{
    let (lines, is_ended) = match text.strip_suffix(b"\n") {
        Some(lines) => (lines, true),
        None => (text, false),
    };
    let (draft, number) = read_lines(alloc, lines)?;
    if is_ended && matches!(draft.next, Next::Nothing) {
        return Ok(draft.costs.measures());
    }
    let last = if is_ended {
        number.saturating_add(1)
    } else {
        number
    };
    Err(refused(last, Cause::ReportBad))
}
