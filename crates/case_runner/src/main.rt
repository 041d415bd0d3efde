//! Runs the cases of the files `*.cases` in the folder where it is called (data/FORM.md has their form), each over files and an output in
//! memory, and tells how many hold, and of each that doesn't what was wanted and what came.
#![tactic(auto)]

mod meant;
mod runs;
mod told;

use case_texts::{Case, Reader, Wrong};
use runs::run_case;
use smps_io::{RealShelf, Shelf};
use std::alloc::Global;
use std::fs;
use std::process::ExitCode;
use std::rt::Runtime;
use std::thread::Threads;
use told::difference;

/// A file has at most so many bytes.
const LIMIT: u64 = 8_000_000;

/// The file whose texts all others may name.
const PROGRAMS: &str = "programs.cases";

/// The documents whose examples are run.
const DOCUMENTS: [&str; 3] = ["CAUSES.md", "FORMATS.md", "README.md"];

/// How many cases hold, and how many don't.
#[derive(Clone, Copy, Drop)]
struct Counts {
    holding: u64,
    failing: u64,
}

fn main(rt: HostRuntime) -> ExitCode {
    match all_judged(&rt, rt.alloc()) {
        Ok(counts) => ended(&rt, counts),
        Err(Wrong::Said(reason)) => {
            let _ = println!(rt; "{reason}");
            ExitCode::from(1)
        }
        Err(Wrong::Memory) => {
            let _ = println!(rt; "memory ran out");
            ExitCode::from(1)
        }
    }
}

fn ended(rt: &(impl Runtime + Threads + Sync), counts: Counts) -> ExitCode {
    let holding = counts.holding;
    let failing = counts.failing;
    if failing == 0 {
        let _ = println!(rt; "{holding} cases hold");
        return ExitCode::from(0);
    }
    let _ = println!(rt; "{holding} cases hold, {failing} don't");
    ExitCode::from(1)
}

/// The text of a file.
fn text_of(
    rt: &(impl Runtime + Threads + Sync),
    alloc: Global,
    name: &str,
) -> Result<String, Wrong> {
    match RealShelf::new(alloc).fetch(rt, alloc, name, LIMIT) {
        Ok(bytes) => match String::from_utf8(bytes) {
            Ok(text) => Ok(text),
            Err(_) => Err(Wrong::Said("a file isn't UTF-8")),
        },
        Err(_) => Err(Wrong::Said("a file could not be read")),
    }
}

/// The names of the files of cases, in order.
fn names(rt: &(impl Runtime + Threads + Sync), alloc: Global) -> Result<Vec<String>, Wrong> {
    let mut names = Vec::new(alloc);
    let Ok(entries) = fs::read_dir(rt, ".") else {
        return Err(Wrong::Said("the folder could not be read"));
    };
    for entry in entries {
        let Ok(entry) = entry else {
            return Err(Wrong::Said("the folder could not be read"));
        };
        if entry.file_name().ends_with(".cases") && entry.file_name() != PROGRAMS {
            names.push(String::from_str(alloc, entry.file_name())?)?;
        }
    }
    names.sort()?;
    Ok(names)
}

/// Runs the cases of all files.
fn all_judged(rt: &(impl Runtime + Threads + Sync), alloc: Global) -> Result<Counts, Wrong> {
    let mut reader = Reader::new(alloc)?;
    for document in DOCUMENTS {
        let text = text_of(rt, alloc, document)?;
        reader.put_text(document, text.into_bytes())?;
    }
    let mut counts = Counts {
        holding: 0,
        failing: 0,
    };
    judge_file(rt, alloc, PROGRAMS, &mut reader, &mut counts)?;
    for name in names(rt, alloc)? {
        judge_file(rt, alloc, name.as_str(), &mut reader, &mut counts)?;
    }
    Ok(counts)
}

/// Takes the lines of a file. Tells a line that isn't one, which counts as a case that doesn't hold.
fn read(
    rt: &(impl Runtime + Threads + Sync),
    name: &str,
    text: &str,
    reader: &mut Reader,
    counts: &mut Counts,
) -> Result<(), Wrong> {
    let mut number = 0u64;
    for line in text.lines() {
        number = number.saturating_add(1);
        match reader.take(line) {
            Ok(()) => {}
            Err(Wrong::Said(reason)) => {
                counts.failing = counts.failing.saturating_add(1);
                let _ = println!(rt; "{name}, line {number}: {reason}");
            }
            Err(Wrong::Memory) => return Err(Wrong::Memory),
        }
    }
    Ok(())
}

/// Runs the cases of a file.
fn judge_file(
    rt: &(impl Runtime + Threads + Sync),
    alloc: Global,
    name: &str,
    reader: &mut Reader,
    counts: &mut Counts,
) -> Result<(), Wrong> {
    let text = text_of(rt, alloc, name)?;
    read(rt, name, text.as_str(), reader, counts)?;
    for case in reader.finished()? {
        judge(rt, alloc, name, &case, counts)?;
    }
    Ok(())
}

/// Runs a case, and tells it where it doesn't hold.
fn judge(
    rt: &(impl Runtime + Threads + Sync),
    alloc: Global,
    name: &str,
    case: &Case,
    counts: &mut Counts,
) -> Result<(), Wrong> {
    let came = run_case(rt, alloc, case)?;
    let text = difference(alloc, name, case, &came)?;
    if text.is_empty() {
        counts.holding = counts.holding.saturating_add(1);
    } else {
        counts.failing = counts.failing.saturating_add(1);
        let _ = rt.print(text.as_str());
    }
    Ok(())
}
