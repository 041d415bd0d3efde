//! The answer where the texts give no program, no script or no reports.
ghost use Rattle.std.specs.Prelude.{IfOk};
ghost use Rattle.smps_cli.specs.Ends.{AnswersUnread};
ghost use Rattle.smps_cli.specs.Found.{found_text};

use crate::answer::{Answer, line_answer};
use exit_status::Status;
use frac128::Memory;
use program_files::Unread;
use std::alloc::Global;

/// The answer that tells what stops the reading of the texts.
pub(crate) fn stopped(alloc: Global, unread: Unread) -> Result<Answer, Memory>
    ensures { IfOk result (λ answer. AnswersUnread unread answer.status (found_text answer.found)) }
{
    match unread {
        Unread::Refused(file, refusal, core) => {
            let status = Status::Refused(file, refusal.line, refusal.cause);
            line_answer(alloc, status, &core)
        }
        Unread::Memory => Err(Memory),
    }
}
