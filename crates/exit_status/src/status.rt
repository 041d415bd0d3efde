//! How a run ends, and the line that says so.
ghost use Rattle.std.specs.Prelude.{◌≡◌, ◌++◌, ◌∷◌, IfOk, OnOk};
ghost use Rattle.exit_status.specs.Findings.{command_status, is_open_finding, open_status};
ghost use Rattle.exit_status.specs.Lines.{file_word, row_name, column_name, numbered_text, values_text, refused_text};
ghost use Rattle.exit_status.specs.Lines.{line_with, status_line, status_number};

use core_defs::{Cause, Core};
use frac128::{Memory, print};
use input_files::FileKind;
use report_text::print_operation;
use scen_defs::Finding;
use std::alloc::Global;

/// The word by which a file is named in the lines of a run.
pub fn file_word(file: FileKind) -> &'static str
    ensures { result.now ≡ file_word file }
{
    match file {
        FileKind::Core => "core",
        FileKind::Time => "time",
        FileKind::Stoch => "stoch",
        FileKind::Edits => "edits",
        FileKind::Report => "report",
        FileKind::Basis => "basis",
        FileKind::Measures => "value",
    }
}

/// How a run ends.
#[derive(Clone, Copy, Debug, PartialEq, Eq)]
pub enum Status {
    /// The command ended, and nothing is left open.
    Done,
    /// The command ended, and a report is OPEN, or doesn't hold where reports are checked or printed as tables, or a number of `value` is
    /// none.
    SomeOpen,
    /// The words aren't those of a command.
    Words,
    /// The file is refused at this line (counted from 1; 0 for the file as a whole) for this cause.
    Refused(FileKind, u32, Cause),
    /// The file has more than 8,388,608 bytes.
    TooLong(FileKind),
    /// The shelf failed to give the file.
    ReadFault(FileKind),
    /// The sink failed.
    WriteFault,
    /// Memory was wanting.
    Memory,
}

impl Status {
    /// The exit status of the program.
    pub fn number(&self) -> u8
        ensures { result ≡ status_number self.now }
    {
        match self {
            Status::Done => 0,
            Status::SomeOpen => 1,
            Status::Words => 2,
            Status::Refused(_, _, _) | Status::TooLong(_) => 3,
            Status::ReadFault(_) | Status::WriteFault => 4,
            Status::Memory => 5,
        }
    }

    /// The one line that is printed for the status; none for a command that ended, for a fault of the
    /// output and for want of memory. The names that a cause tells by number are those of the core.
    pub fn line(&self, alloc: Global, core: &Option<Core>) -> Result<Vec<u8>, Memory>
        ensures { IfOk result (λ line. line.items ≡ line_with core.now self.now) }
    {
        match self {
            Status::Words => line_of(alloc, "words refused\n"),
            Status::Refused(file, line, cause) => refused_line(alloc, core, *file, *line, *cause),
            Status::TooLong(file) => too_long_line(alloc, *file),
            Status::ReadFault(file) => failed_line(alloc, *file),
            Status::Done | Status::SomeOpen | Status::WriteFault | Status::Memory => {
                Ok(Vec::new(alloc))
            }
        }
    }
}

/// How a command ends, by whether something is left open.
pub fn open_status(is_open: bool) -> Status
    ensures { result ≡ open_status is_open }
{
    if is_open {
        Status::SomeOpen
    } else {
        Status::Done
    }
}

/// Whether a report with this finding is open.
pub fn is_open(finding: Finding) -> bool
    ensures { result ≡ is_open_finding finding }
{
    match finding {
        Finding::Optimal | Finding::Infeasible | Finding::Unbounded => false,
        Finding::OpenSolves(_) | Finding::OpenPivots(_) | Finding::OpenPassed(_, _) => true,
    }
}

/// How a command ends whose report has this finding.
pub fn command_status(finding: Finding) -> Status
    ensures { result ≡ command_status finding }
{
    open_status(is_open(finding))
}

fn line_of(alloc: Global, text: &str) -> Result<Vec<u8>, Memory>
    ensures { IfOk result (λ line. line.items ≡ text.now) }
{
    let line = Vec::from_slice(alloc, text.as_bytes())?;
    Ok(line)
}

/// The line of a refusal; the names that a cause tells by number are those of the core.
fn refused_line(
    alloc: Global,
    core: &Option<Core>,
    file: FileKind,
    line: u32,
    cause: Cause,
) -> Result<Vec<u8>, Memory>
    ensures { IfOk result (λ text. text.items ≡ refused_text core.now file line cause) }
{
    let mut text = numbered(alloc, file_word(file), line, cause.number())?;
    put_values(alloc, &mut text, core, cause)?;
    text.extend_from_slice(b"\n")?;
    Ok(text)
}

/// The line up to the number of the cause.
fn numbered(alloc: Global, word: &str, line: u32, number: u32) -> Result<Vec<u8>, Memory>
    ensures { IfOk result (λ text. text.items ≡ numbered_text word.now line number) }
{
    let place = format!(in alloc; " line {line}: ")?;
    let cause = format!(in alloc; "{number}")?;
    let mut text = line_of(alloc, "refused ")?;
    text.extend_from_slice(word.as_bytes())?;
    text.extend_from_slice(place.as_bytes())?;
    text.extend_from_slice(cause.as_bytes())?;
    Ok(text)
}

/// Appends what stands behind the number of a cause.
fn put_values(
    alloc: Global,
    text: &mut Vec<u8>,
    core: &Option<Core>,
    cause: Cause,
) -> Result<(), Memory>
    ensures { OnOk result (text.new.items ≡ text.old.items ++ values_text core.now cause) }
{
    match cause {
        Cause::NotTriangular { row, column } => {
            put_row(text, core, row)?;
            put_column(text, core, column)
        }
        Cause::RowMissing(row) => put_row(text, core, row),
        Cause::ColumnMissing(column) => put_column(text, core, column),
        Cause::ProbabilitySum(sum) => {
            text.extend_from_slice(b" ")?;
            print(alloc, sum, text)
        }
        Cause::Passes(passed) => {
            text.extend_from_slice(b" ")?;
            print_operation(alloc, passed, text)
        }
        _ => Ok(()),
    }
}

/// Appends the name of a row behind a blank.
fn put_row(text: &mut Vec<u8>, core: &Option<Core>, row: u64) -> Result<(), Memory>
    ensures { OnOk result (text.new.items ≡ text.old.items ++ 32 ∷ row_name core.now row) }
{
    text.extend_from_slice(b" ")?;
    if let Some(core) = core {
        if (row as usize) < core.rows.len() {
            text.extend_from_slice(core.rows[row as usize].name.as_bytes())?;
        }
    }
    Ok(())
}

/// Appends the name of a column behind a blank.
fn put_column(text: &mut Vec<u8>, core: &Option<Core>, column: u64) -> Result<(), Memory>
    ensures { OnOk result (text.new.items ≡ text.old.items ++ 32 ∷ column_name core.now column) }
{
    text.extend_from_slice(b" ")?;
    if let Some(core) = core {
        if (column as usize) < core.columns.len() {
            text.extend_from_slice(core.columns[column as usize].name.as_bytes())?;
        }
    }
    Ok(())
}

fn too_long_line(alloc: Global, file: FileKind) -> Result<Vec<u8>, Memory>
    ensures { IfOk result (λ text. text.items ≡ status_line (Status.TooLong file)) }
{
    let word = file_word(file);
    let text = format!(in alloc; "refused {word}: too long\n")?;
    line_of(alloc, text.as_str())
}

fn failed_line(alloc: Global, file: FileKind) -> Result<Vec<u8>, Memory>
    ensures { IfOk result (λ text. text.items ≡ status_line (Status.ReadFault file)) }
{
    let word = file_word(file);
    let text = format!(in alloc; "read failed: {word}\n")?;
    line_of(alloc, text.as_str())
}
