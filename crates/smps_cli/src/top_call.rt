//! The top call.
ghost use Rattle.std.specs.Prelude.{map, string_bytes};
ghost use Rattle.smps_cli.specs.Runs.{IsRun, shelf_state, sink_state};

use crate::answer::{Ran, answered};
use crate::found::Found;
use crate::write::write_found;
use exit_status::Status;
use frac128::Memory;
use run_watch::Watch;
use smps_io::{Shelf, Sink, SinkFault};
use std::alloc::Global;
use std::fs::Files;

/// Runs the command that the words name: reads its files from the shelf, writes what it finds to the sink,
/// and hands on how it ended and what it knows. The words don't hold the program's own name. Everything is computed before the first byte
/// is written.
///
/// A core file within the limit whose rows' ends fit into 128 bits ends with a report where neither the shelf
/// nor the sink fails, unless memory is wanting. So each command ends with its whole output, of files within the limit that mean
/// a program, a script for it, and reports with its names; or as `EndsTask` of specs/Completes.antt says of its task.
pub fn run<R: Files + Print, H: Shelf, K: Sink, W: Watch>(
    rt: &R,
    alloc: Global,
    words: &[String],
    shelf: &mut H,
    sink: &mut K,
    watch: &mut W,
) -> Ran
    ensures { IsRun (map string_bytes words.now) (H.content shelf.old)
        (shelf_state (H.fetches shelf.old) (H.faults shelf.old) (H.given shelf.old))
        (shelf_state (H.fetches shelf.new) (H.faults shelf.new) (H.given shelf.new))
        (sink_state (K.written sink.old) (K.faults sink.old) (K.taken sink.old))
        (sink_state (K.written sink.new) (K.faults sink.new) (K.taken sink.new)) result.status }
{
    let ran = match answered(rt, alloc, words, shelf, watch) {
        Ok(ran) => ran,
        Err(Memory) => {
            return Ran {
                status: Status::Memory,
                found: Found::Nothing(Vec::new(alloc)),
                fetched: None,
            };
        }
    };
    match write_found(rt, alloc, sink, &ran.found) {
        Ok(()) => ran,
        Err(SinkFault::Failed) => Ran {
            status: Status::WriteFault,
            ..ran
        },
        Err(SinkFault::Memory) => Ran {
            status: Status::Memory,
            ..ran
        },
    }
}
