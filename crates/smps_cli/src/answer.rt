//! What a run comes to before anything is written.
ghost use Rattle.std.specs.Prelude.{◌≡◌, ◌≢◌, Some, None, IfOk, map, string_bytes};
ghost use Rattle.smps_io.specs.Faults.{Rose};
ghost use Rattle.smps_io.specs.Fetches.{FetchesPrefix};
ghost use Rattle.command_words.specs.Commands.{command_of};
ghost use Rattle.command_words.specs.Commands.Asked.{OnFiles};
ghost use Rattle.command_words.specs.Ranges.{HasRange};
ghost use Rattle.command_words.specs.Views.{asked, sources_view};
ghost use Rattle.input_files.specs.Fetched.{AreGiven, names_in_order};
ghost use Rattle.input_files.specs.Unfetched.{texts_view};
ghost use Rattle.input_files.specs.declared.kind.FileKind.{FileKind};
ghost use Rattle.program_files.specs.Meant.{AreWithin};
ghost use Rattle.smps_cli.specs.Answers.{MayAnswer, MayAnswerFor, MayAnswerTask, MayCome, HasTexts};
ghost use Rattle.smps_cli.specs.Found.{found_text};
ghost use Rattle.smps_cli.specs.Makes.{MakesPlan};
ghost use Rattle.smps_cli.specs.Sources.{HasFetched, LastSaysLong, StatusSaysLong, fetch_order};
ghost use Rattle.exit_status.specs.Lines.{line_with, status_line};

use crate::based::solved_by_basis;
use crate::check::checked;
use crate::fetched::{Fetched, FileNames};
use crate::flat::flattened;
use crate::found::Found;
use crate::make::made;
use crate::risk::{checked_risk, solved_risk};
use crate::show::shown;
use crate::solve::solved;
use crate::table::tabled;
use crate::value::valued;
use command_words::{Command, PlainWords, Plan, Sources, Task};
use core_defs::Core;
use exit_status::Status;
use frac128::Memory;
use input_files::{Texts, Unfetched, fetched_texts};
use run_watch::Watch;
use smps_io::Shelf;
use std::alloc::Global;
use std::fs::Files;

/// A status, and what was found.
#[derive(Drop)]
pub(crate) struct Answer {
    pub(crate) status: Status,
    pub(crate) found: Found,
}

/// How a run ended, and what it knows. Where the output failed or memory was wanting for it, only a part of what was found was written.
#[derive(Drop)]
pub struct Ran {
    pub status: Status,
    pub found: Found,
    /// The files of the command, if it takes some.
    pub fetched: Option<Fetched>,
}

impl Ran {
    /// Of an answer for files.
    fn of(answer: Answer, names: FileNames, texts: Option<Texts>) -> Ran
        ensures { (result.status ≡ answer.status) × (found_text result.found ≡ found_text answer.found) }
    {
        Ran {
            status: answer.status,
            found: answer.found,
            fetched: Some(Fetched { names, texts }),
        }
    }

    /// Of an answer that needs no file.
    fn without_files(answer: Answer) -> Ran
        ensures { (result.status ≡ answer.status) × (found_text result.found ≡ found_text answer.found) }
    {
        Ran {
            status: answer.status,
            found: answer.found,
            fetched: None,
        }
    }
}

/// What a task comes to on its texts.
fn come<W: Watch>(alloc: Global, task: Task, texts: &Texts, watch: &mut W) -> Result<Answer, Memory>
    requires within { AreWithin (texts_view texts.now) }
    requires range { HasRange task }
    ensures may { IfOk result (λ answer. MayCome task (texts_view texts.now) answer.status (found_text answer.found)) }
    ensures has { IfOk result (λ answer. HasTexts answer.status) }
{
    match task {
        Task::Solve(budget) => solved(alloc, texts, budget, watch),
        Task::Check => checked(alloc, texts),
        Task::Table(sheet) => tabled(alloc, texts, sheet),
        Task::Show => shown(alloc, texts),
        Task::Flat(extent) => flattened(alloc, texts, extent),
        Task::Value(budget) => valued(alloc, texts, budget, watch),
        Task::SolveRisk(measure, budget) => solved_risk(alloc, texts, measure, budget, watch),
        Task::CheckRisk(measure) => checked_risk(alloc, texts, measure),
        Task::SolveBasis(budget) => solved_by_basis(alloc, texts, budget, watch),
    }
}

/// A run of a task on its texts.
fn on_texts<W: Watch>(
    alloc: Global,
    task: Task,
    names: FileNames,
    texts: Texts,
    watch: &mut W,
) -> Result<Ran, Memory>
    requires within { AreWithin (texts_view texts) }
    requires range { HasRange task }
    ensures may { IfOk result (λ ran. MayCome task (texts_view texts) ran.status (found_text ran.found)) }
    ensures has { IfOk result (λ ran. HasTexts ran.status) }
{
    match come(alloc, task, &texts, watch) {
        Ok(answer) => Ok(Ran::of(answer, names, Some(texts))),
        Err(Memory) => Err(Memory),
    }
}

/// A run whose files weren't all given.
fn without_texts(alloc: Global, names: FileNames, status: Status) -> Result<Ran, Memory>
    ensures { IfOk result (λ ran. (ran.status ≡ status) × (found_text ran.found ≡ status_line status)) }
{
    match one_line(alloc, status) {
        Ok(answer) => Ok(Ran::of(answer, names, None)),
        Err(Memory) => Err(Memory),
    }
}

/// What a task on files comes to: fetches them first.
fn on_files<R: Files, H: Shelf, W: Watch>(
    rt: &R,
    alloc: Global,
    sources: &Sources<'_>,
    task: Task,
    shelf: &mut H,
    watch: &mut W,
) -> Result<Ran, Memory>
    requires { HasRange task }
    ensures may { IfOk result (λ ran.
        MayAnswerTask (H.content shelf.old) (sources_view sources.now) task ran.status (found_text ran.found)) }
    ensures words { IfOk result (λ ran. ran.status ≢ Status.Words) }
    ensures written { IfOk result (λ ran. ran.status ≢ Status.WriteFault) }
    ensures read { IfOk result (λ ran.
        (kind : FileKind) → ran.status ≡ Status.ReadFault kind → Rose (H.faults shelf.old) (H.faults shelf.new)) }
    ensures long { IfOk result (λ ran. StatusSaysLong ran.status (H.given shelf.new)) }
    ensures fetched { IfOk result (λ ran.
        HasFetched (Some (OnFiles (sources_view sources.now) task)) ran.status (H.fetches shelf.old) (H.fetches shelf.new)) }
    ensures once { FetchesPrefix (H.fetches shelf.old) (names_in_order (sources_view sources.now)) (H.fetches shelf.new) }
{
    let names = FileNames::of(alloc, sources)?;
    match fetched_texts(rt, alloc, shelf, sources) {
        Ok(texts) => on_texts(alloc, task, names, texts, watch),
        Err(Unfetched::Failed(kind)) => without_texts(alloc, names, Status::ReadFault(kind)),
        Err(Unfetched::TooLong(kind)) => without_texts(alloc, names, Status::TooLong(kind)),
        Err(Unfetched::Memory) => Err(Memory),
    }
}

/// A run of words that aren't those of a command.
fn refused(alloc: Global) -> Result<Ran, Memory>
    ensures { IfOk result (λ ran. (ran.status ≡ Status.Words) × (found_text ran.found ≡ status_line Status.Words)) }
{
    match one_line(alloc, Status::Words) {
        Ok(answer) => Ok(Ran::without_files(answer)),
        Err(Memory) => Err(Memory),
    }
}

/// A run that makes a workload.
fn making<W: Watch>(alloc: Global, plan: Plan, watch: &mut W) -> Result<Ran, Memory>
    ensures { IfOk result (λ ran. MakesPlan plan ran.status (found_text ran.found)) }
{
    match made(alloc, plan, watch) {
        Ok(answer) => Ok(Ran::without_files(answer)),
        Err(Memory) => Err(Memory),
    }
}

/// Lets a watcher be quiet where the words ask for that, and lend as many workers as they ask for.
fn heed<W: Watch>(plain: &PlainWords, watch: &mut W) {
    if plain.is_quiet() {
        watch.be_quiet();
    }
    watch.employ(plain.workers());
}

/// What the words and the files come to. Reads no file where the words aren't a command's, or the command takes none.
pub(crate) fn answered<R: Files, H: Shelf, W: Watch>(
    rt: &R,
    alloc: Global,
    words: &[String],
    shelf: &mut H,
    watch: &mut W,
) -> Result<Ran, Memory>
    ensures may { IfOk result (λ ran.
        MayAnswer (H.content shelf.old) (map string_bytes words.now) ran.status (found_text ran.found)) }
    ensures words { IfOk result (λ ran. ran.status ≡ Status.Words → command_of (map string_bytes words.now) ≡ None) }
    ensures written { IfOk result (λ ran. ran.status ≢ Status.WriteFault) }
    ensures read { IfOk result (λ ran.
        (kind : FileKind) → ran.status ≡ Status.ReadFault kind → Rose (H.faults shelf.old) (H.faults shelf.new)) }
    ensures long { IfOk result (λ ran. LastSaysLong (command_of (map string_bytes words.now)) ran.status (H.given shelf.new)) }
    ensures fetched { IfOk result (λ ran.
        HasFetched (command_of (map string_bytes words.now)) ran.status (H.fetches shelf.old) (H.fetches shelf.new)) }
    ensures once { FetchesPrefix (H.fetches shelf.old) (fetch_order (command_of (map string_bytes words.now)))
        (H.fetches shelf.new) }
    ensures none_fetched { command_of (map string_bytes words.now) ≡ None → H.fetches shelf.new ≡ H.fetches shelf.old }
{
    let Some(plain) = PlainWords::read(alloc, words)? else {
        return refused(alloc);
    };
    heed(&plain, watch);
    match plain.command(alloc) {
        Ok(Command::OnFiles { sources, task }) => on_files(rt, alloc, &sources, task, shelf, watch),
        Ok(Command::Make(plan)) => making(alloc, plan, watch),
        Err(_) => Err(Memory),
    }
}

/// The answer of a status that prints one line.
fn one_line(alloc: Global, status: Status) -> Result<Answer, Memory>
    ensures { IfOk result (λ answer. (answer.status ≡ status) × (found_text answer.found ≡ status_line status)) }
{
    line_answer(alloc, status, &None)
}

/// The answer of a status that prints one line; the names that a cause tells by number are those of the core.
pub(crate) fn line_answer(
    alloc: Global,
    status: Status,
    core: &Option<Core>,
) -> Result<Answer, Memory>
    ensures { IfOk result (λ answer. (answer.status ≡ status) × (found_text answer.found ≡ line_with core.now status)) }
{
    let line = status.line(alloc, core)?;
    Ok(Answer {
        status,
        found: Found::Nothing(line),
    })
}
