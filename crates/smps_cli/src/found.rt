//! What a command found.
use command_words::Plan;
use scen_defs::{Program, Report};
use script_checks::Checked;
use smps_session::Told;
use value_measures::Measures;

/// What a command found. Its text is the whole output.
#[derive(Drop)]
pub enum Found {
    /// `solve`: a report for each SOLVE.
    Reports(Vec<Told>),
    /// The same, where all nodes were solved together from the start.
    Together(Vec<Told>),
    /// `solve` with a basis that shows no report: a report without it.
    WithoutBasis(Vec<Told>),
    /// `check`: what the checks of reports came to.
    Checks(Checks),
    /// `table`: a report in the form that is asked for.
    Table(Vec<u8>),
    /// `table`: the test of the report, which doesn't come to that it holds. Nothing is printed of it.
    Unproved(Checked),
    /// `table`: there is no report of that number.
    Lacking(Lack),
    /// `show`: the program.
    Shown(Program),
    /// `flat`: the program as one core file.
    Flat(Vec<u8>),
    /// `value`: what is measured of the program.
    Measures(Measures),
    /// The same, where the nodes of each program were solved together from the start.
    MeasuredTogether(Measures),
    /// `make`: a workload and its report.
    Summary(Summary),
    /// `make`: the text of a workload that is asked for.
    Page(Vec<u8>),
    /// Nothing: the line that says why, empty for want of memory.
    Nothing(Vec<u8>),
}

/// What the checks of reports came to.
#[derive(Drop)]
pub struct Checks {
    /// One for each report that the file states.
    pub checks: Vec<Checked>,
    /// How many reports the edit list asks for.
    pub asked: u32,
}

/// A file that lacks the report that is asked for.
#[derive(Drop)]
pub struct Lack {
    /// The line that refuses the file.
    pub line: Vec<u8>,
    /// How many reports it has.
    pub count: usize,
}

/// A workload, its program and the report of that.
#[derive(Drop)]
pub struct Summary {
    pub plan: Plan,
    pub program: Program,
    pub report: Report,
    /// Whether the report tells a claim about the whole program, after the method had stopped.
    pub by_whole: bool,
}
