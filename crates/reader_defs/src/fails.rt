//! How a text is refused.
ghost use Rattle.std.specs.Prelude.{◌≡◌};
ghost use Rattle.refusals.specs.declared.cause.Cause.TheVariants as cause;
ghost use Rattle.refusals.specs.declared.cause.ReadFail.TheVariants as fail;
ghost use Rattle.reader_defs.specs.Stops.{refused};

use crate::stop::Stop;
use refusals::{Cause, ReadFail, Refusal};
use smps_words::Lines;

/// The line behind the last, where a section or ENDATA is missing.
pub fn missing(lines: &Lines) -> ReadFail
    ensures { result ≡ fail.Refused (record { line = lines.now.end_line; cause = cause.SectionMissing }) }
{
    ReadFail::Refused(Refusal {
        line: lines.end_line(),
        cause: Cause::SectionMissing,
    })
}

/// The line is refused, unless memory ran out.
pub fn refused(line: u32, stop: Stop) -> ReadFail
    ensures { result ≡ refused line stop }
{
    match stop {
        Stop::Memory => ReadFail::Memory,
        Stop::Fault(cause) => ReadFail::Refused(Refusal { line, cause }),
    }
}
