//! Runs a case.
use crate::meant::program_of;
use case_texts::{Case, Part};
use frac128::Memory;
use run_notes::explanation;
use run_watch::Unwatched;
use scen_defs::Program;
use smps_cli::{Ran, run};
use smps_io::{MemoryShelf, MemorySink, NeverFails, Shelf};
use std::alloc::Global;
use std::rt::Runtime;
use std::thread::Threads;
use test_programs::{nodes_text, stated_text};

/// What a run came to.
#[derive(Drop)]
pub struct Came {
    status: Vec<u8>,
    output: Vec<u8>,
    error: Vec<u8>,
    stated: Vec<u8>,
    nodes: Vec<u8>,
}

impl Came {
    /// What it left of a part.
    pub fn part(&self, part: Part) -> &[u8] {
        match part {
            Part::Status => &self.status,
            Part::Output => &self.output,
            Part::Error => &self.error,
            Part::Stated => &self.stated,
            Part::Nodes => &self.nodes,
        }
    }
}

/// The words of a line, with a blank between two of them; a backslash is none.
fn words_of(alloc: Global, line: &str) -> Result<Vec<String>, Memory> {
    let mut words = Vec::new(alloc);
    if !line.is_empty() {
        for word in line.split(' ') {
            let word = if word == "\\" { "" } else { word };
            words.push(String::from_str(alloc, word)?)?;
        }
    }
    Ok(words)
}

/// Whether something is wanted of a part.
fn looks_at(case: &Case, part: Part) -> bool {
    case.wants.iter().any(|want| want.part == part)
}

/// What a run said: the number of its status, and standard error, where the case looks at it.
#[derive(Drop)]
struct Said {
    status: Vec<u8>,
    error: Vec<u8>,
}

/// The two texts about a program.
#[derive(Drop)]
struct Notes {
    stated: Vec<u8>,
    nodes: Vec<u8>,
}

/// The texts about a program; empty where there is no program.
fn notes_on(alloc: Global, program: &Option<Program>) -> Result<Notes, Memory> {
    match program {
        Some(program) => Ok(Notes {
            stated: stated_text(alloc, program)?,
            nodes: nodes_text(alloc, program)?,
        }),
        None => Ok(Notes {
            stated: Vec::new(alloc),
            nodes: Vec::new(alloc),
        }),
    }
}

/// The texts about the program that the files mean, where the case looks at them.
fn noted<H: Shelf>(
    rt: &(impl Runtime + Threads + Sync),
    alloc: Global,
    case: &Case,
    words: &[String],
    shelf: &mut H,
) -> Result<Notes, Memory> {
    if looks_at(case, Part::Stated) || looks_at(case, Part::Nodes) {
        let program = program_of(rt, alloc, words, shelf)?;
        notes_on(alloc, &program)
    } else {
        notes_on(alloc, &None)
    }
}

/// What is said of a run.
fn said_of(
    rt: &(impl Runtime + Threads + Sync),
    alloc: Global,
    case: &Case,
    words: &[String],
    ran: &Ran,
) -> Result<Said, Memory> {
    let number = ran.status.number();
    let status = format!(in alloc; "{number}\n")?.into_bytes();
    let error = if looks_at(case, Part::Error) {
        explanation(rt, alloc, words, ran)?.into_bytes()
    } else {
        Vec::new(alloc)
    };
    Ok(Said { status, error })
}

/// Runs the words of a case over a shelf, and says how that ended.
fn said_over<H: Shelf>(
    rt: &(impl Runtime + Threads + Sync),
    alloc: Global,
    case: &Case,
    words: &[String],
    shelf: &mut H,
    sink: &mut MemorySink,
) -> Result<Said, Memory> {
    let ran = run(rt, alloc, words, shelf, sink, &mut Unwatched::new(rt));
    said_of(rt, alloc, case, words, &ran)
}

/// What a run over a shelf comes to.
fn came_over<H: Shelf>(
    rt: &(impl Runtime + Threads + Sync),
    alloc: Global,
    case: &Case,
    words: &[String],
    shelf: &mut H,
    sink: &mut MemorySink,
) -> Result<Came, Memory> {
    let said = said_over(rt, alloc, case, words, shelf, sink)?;
    let notes = noted(rt, alloc, case, words, shelf)?;
    let output = sink.bytes().to_vec(alloc)?;
    Ok(Came {
        status: said.status,
        output,
        error: said.error,
        stated: notes.stated,
        nodes: notes.nodes,
    })
}

/// What a run over the shelf of a case comes to.
fn came_of(
    rt: &(impl Runtime + Threads + Sync),
    alloc: Global,
    case: &Case,
    words: &[String],
    sink: &mut MemorySink,
) -> Result<Came, Memory> {
    let files = case.files.clone()?;
    if case.gives_all {
        let mut shelf = NeverFails::new(alloc, files);
        return came_over(rt, alloc, case, words, &mut shelf, sink);
    }
    let mut shelf = MemoryShelf::new(alloc, files, case.failing_fetches.clone()?);
    came_over(rt, alloc, case, words, &mut shelf, sink)
}

/// Runs a case. What standard error says, and the program, are there where the case wants something of them.
pub fn run_case(
    rt: &(impl Runtime + Threads + Sync),
    alloc: Global,
    case: &Case,
) -> Result<Came, Memory> {
    let words = words_of(alloc, case.words.as_str())?;
    let mut sink = MemorySink::new(alloc, case.chunk.max(1), case.failing_puts.clone()?);
    came_of(rt, alloc, case, &words, &mut sink)
}
