//! The program `tidzgheba`: runs its words over the files of the system and standard output.
#![tactic(auto)]

ghost use Rattle.std.specs.Prelude.{◌≡◌, map, drop, string_bytes, IfOk};
ghost use Rattle.std.specs.Vec.Iter.{into_iter_items};
ghost use Rattle.exit_status.specs.Lines.{status_number};
ghost use Rattle.smps_cli.specs.Runs.{shelf_state, sink_state};
ghost use Rattle.tidzgheba.specs.Ending.{EndsFor, EndsWith};

use run_notes::{MEMORY, NOT_TEXT, UNEXPLAINED, explanation};
use run_watch::Watch;
use smps_cli::{Ran, Status, run};
use smps_io::{RealShelf, RealSink, Shelf, Sink};
use std::alloc::{AllocError, Global};
use std::env::Args;
use std::fs::Files;
use std::io::IsTerminal;
use std::process::ExitCode;
use std::{env, io};
use watch_lines::Watcher;

/// Runs the words of the process and ends with the number of the status to which they come.
fn main(rt: HostRuntime) -> ExitCode {
    let is_read = rt.stderr().is_terminal();
    ExitCode::from(ended(
        &rt,
        rt.alloc(),
        env::args(&rt),
        &mut RealShelf::new(rt.alloc()),
        &mut RealSink::new(),
        &mut Watcher::new(&rt, rt.alloc(), is_read),
    ))
}

/// Runs the words behind the program's own name over a shelf and a sink; no words where one of them isn't UTF-8. Gives the number of the
/// status; standard error says what it means where the output doesn't say all.
fn ended<R: Files + Print + Eprint, H: Shelf, K: Sink, W: Watch>(
    rt: &R,
    alloc: Global,
    arguments: io::Result<Args>,
    shelf: &mut H,
    sink: &mut K,
    watch: &mut W,
) -> u8
    ensures { EndsFor arguments (H.content shelf.old)
        (shelf_state (H.fetches shelf.old) (H.faults shelf.old) (H.given shelf.old))
        (shelf_state (H.fetches shelf.new) (H.faults shelf.new) (H.given shelf.new))
        (sink_state (K.written sink.old) (K.faults sink.old) (K.taken sink.old))
        (sink_state (K.written sink.new) (K.faults sink.new) (K.taken sink.new)) result }
{
    match arguments {
        Ok(arguments) => match words_of(alloc, arguments) {
            Ok(words) => ended_told(rt, alloc, behind_first(&words), shelf, sink, watch),
            Err(AllocError) => unread(rt),
        },
        Err(error) if error.kind() == io::ErrorKind::OutOfMemory => unread(rt),
        Err(_) => {
            let _ = rt.eprint(NOT_TEXT);
            ended_silently(rt, alloc, &[], shelf, sink, watch)
        }
    }
}

/// The words that the system gave.
fn words_of(alloc: Global, mut arguments: Args) -> Result<Vec<String>, AllocError>
    ensures { IfOk result (λ words. words.items ≡ into_iter_items arguments) }
{
    let mut words = Vec::new(alloc);
    while let Some(word) = arguments.next() {
        words.push(word)?;
    }
    Ok(words)
}

/// The words behind the first.
fn behind_first(words: &[String]) -> &[String]
    ensures { result.now ≡ drop 1 words.now }
{
    match words.split_first() {
        Some((_, rest)) => rest,
        None => &[],
    }
}

/// Says that memory was wanting for the words.
fn unread<R: Eprint>(rt: &R) -> u8
    ensures { result ≡ status_number Status.Memory }
{
    let _ = rt.eprint(MEMORY);
    Status::Memory.number()
}

/// Runs the words; standard error says what their status means where the output doesn't say all.
fn ended_told<R: Files + Print + Eprint, H: Shelf, K: Sink, W: Watch>(
    rt: &R,
    alloc: Global,
    words: &[String],
    shelf: &mut H,
    sink: &mut K,
    watch: &mut W,
) -> u8
    ensures { EndsWith (map string_bytes words.now) (H.content shelf.old)
        (shelf_state (H.fetches shelf.old) (H.faults shelf.old) (H.given shelf.old))
        (shelf_state (H.fetches shelf.new) (H.faults shelf.new) (H.given shelf.new))
        (sink_state (K.written sink.old) (K.faults sink.old) (K.taken sink.old))
        (sink_state (K.written sink.new) (K.faults sink.new) (K.taken sink.new)) result }
{
    let ran = run(rt, alloc, words, shelf, sink, watch);
    watch.see_end();
    tell(rt, alloc, words, &ran);
    ran.status.number()
}

/// Runs words of which nothing more is said.
fn ended_silently<R: Files + Print, H: Shelf, K: Sink, W: Watch>(
    rt: &R,
    alloc: Global,
    words: &[String],
    shelf: &mut H,
    sink: &mut K,
    watch: &mut W,
) -> u8
    ensures { EndsWith (map string_bytes words.now) (H.content shelf.old)
        (shelf_state (H.fetches shelf.old) (H.faults shelf.old) (H.given shelf.old))
        (shelf_state (H.fetches shelf.new) (H.faults shelf.new) (H.given shelf.new))
        (sink_state (K.written sink.old) (K.faults sink.old) (K.taken sink.old))
        (sink_state (K.written sink.new) (K.faults sink.new) (K.taken sink.new)) result }
{
    let ran = run(rt, alloc, words, shelf, sink, watch);
    watch.see_end();
    ran.status.number()
}

/// Writes the explanation of a status to standard error. That memory or standard error is wanting changes no status.
fn tell<R: Files + Eprint>(rt: &R, alloc: Global, words: &[String], ran: &Ran) {
    let _ = match explanation(rt, alloc, words, ran) {
        Ok(text) => rt.eprint(text.as_str()),
        Err(AllocError) if ran.status == Status::Memory => rt.eprint(MEMORY),
        Err(AllocError) => rt.eprint(UNEXPLAINED),
    };
}
