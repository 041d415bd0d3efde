// Commands.
ghost use Rattle.std.specs.Prelude.{◌≡◌, ◌≤◌, IfOk};
ghost use Rattle.smps_words.specs.Seen.{seen};
ghost use Rattle.scen_defs.specs.Program.{content};
ghost use Rattle.edit_script.specs.Commands.{HasName, word_of, first_word, work_line, solve_line, worded, command_of};
ghost use Rattle.edit_script.specs.declared.command.Command.TheVariants.{Report};
ghost use Rattle.edit_script.specs.Asked.{AsksOf};
ghost use Rattle.reader_defs.specs.Stops.{Gives};
ghost use Rattle.edit_script.specs.Tables.{HasTables};

use crate::edits::{add_line, drop_line, prob_line, set_line};
use crate::numbers::count_of;
use crate::tables::Tables;
use core_defs::Cause;
use edit_defs::Edit;
use reader_defs::Stop;
use scen_defs::Program;
use smps_words::Line;
use std::alloc::Global;

/// The first word of a command.
#[derive(Clone, Copy)]
pub(crate) enum Word {
    Set,
    Prob,
    Drop,
    Add,
    Work,
    Solve,
}

/// What a command asks for.
#[derive(Drop)]
pub(crate) enum Command {
    Change(Edit),
    /// So many solves before the next edit.
    Work(u64),
    /// A report.
    Report,
}

/// The first word of a command that a word is.
fn word_of(first: &[u8]) -> Option<Word>
    ensures { result ≡ word_of first.now }
{
    if first == b"SET".as_slice() {
        return Some(Word::Set);
    }
    if first == b"PROB".as_slice() {
        return Some(Word::Prob);
    }
    if first == b"DROP".as_slice() {
        return Some(Word::Drop);
    }
    if first == b"ADD".as_slice() {
        return Some(Word::Add);
    }
    if first == b"WORK".as_slice() {
        return Some(Word::Work);
    }
    if first == b"SOLVE".as_slice() {
        return Some(Word::Solve);
    }
    None
}

/// The first word of a line's command.
fn first_word(line: &Line) -> Option<Word>
    ensures { result ≡ first_word (seen line.now).fields }
{
    match line.first() {
        Some(first) => word_of(first),
        None => None,
    }
}

/// A line of WORK.
#[tactic(auto, using(crate::proofs::Long::long_work), unfolding(crate::specs::Commands::work_line))]
fn work_line(line: &Line) -> Result<u64, Cause>
    ensures work { result ≡ work_line (seen line.now).fields }
    ensures few { IfOk result (λ n. n ≤ 1000000) }
{
    let Some([_, word]) = line.fields() else {
        return Err(Cause::FieldCount);
    };
    count_of(word)
}

/// A line of SOLVE.
#[tactic(auto, using(crate::proofs::Long::long_solve), unfolding(crate::specs::Commands::solve_line))]
fn solve_line(line: &Line) -> Result<Command, Cause>
    ensures solve { result ≡ solve_line (seen line.now).fields }
    ensures report { IfOk result (λ command. command ≡ Report) }
{
    let Some([_]) = line.fields() else {
        return Err(Cause::FieldCount);
    };
    Ok(Command::Report)
}

/// The command that a line is by its first word.
fn worded(
    alloc: Global,
    program: &Program,
    tables: &Tables,
    place: usize,
    line: &Line,
    word: Word,
) -> Result<Command, Stop>
    requires tables { HasTables (content program.now) tables.now }
    requires named { HasName (seen line.now).fields }
    ensures gives { Gives (λ x. x) result (worded (content program.now) (seen line.now).fields word) }
    ensures asks { IfOk result (AsksOf (content program.now)) }
{
    match word {
        Word::Set => Ok(Command::Change(set_line(alloc, program, tables, place, line)?)),
        Word::Prob => Ok(Command::Change(prob_line(alloc, program, place, line)?)),
        Word::Drop => Ok(Command::Change(drop_line(alloc, program, place, line)?)),
        Word::Add => Ok(Command::Change(add_line(alloc, program, line)?)),
        Word::Work => Ok(Command::Work(work_line(line)?)),
        Word::Solve => Ok(solve_line(line)?),
    }
}

/// The command that a line is. The scenario that it names is looked for as by `place_near`.
#[tactic(auto, unfolding(crate::specs::Commands::command_of))]
pub(crate) fn command_of(
    alloc: Global,
    program: &Program,
    tables: &Tables,
    place: usize,
    line: &Line,
) -> Result<Command, Stop>
    requires tables { HasTables (content program.now) tables.now }
    requires named { HasName (seen line.now).fields }
    ensures gives { Gives (λ x. x) result (command_of (content program.now) (seen line.now).fields) }
    ensures asks { IfOk result (AsksOf (content program.now)) }
{
    let Some(word) = first_word(line) else {
        return Err(Stop::Fault(Cause::CommandUnknown));
    };
    worded(alloc, program, tables, place, line, word)
}
