//! The command `make`.
ghost use Rattle.std.specs.Prelude.{◌≡◌, ◌≤◌, true, leb, length, IfOk, IfSome};
ghost use Rattle.scen_defs.specs.Program.{content};
ghost use Rattle.input_files.specs.Fetched.{file_limit};
ghost use Rattle.input_files.specs.Unfetched.{texts_view, given_bytes};
ghost use Rattle.program_files.specs.Meant.{AreWithin, MeansProgram};
ghost use Rattle.workload_maker.specs.Texts.{made_view};
ghost use Rattle.exit_status.specs.Findings.{command_status};
ghost use Rattle.smps_cli.specs.Found.{found_text};
ghost use Rattle.smps_cli.specs.Makes.{MakesPlan, MaySumUp, PrintsSummary, workload, page_text, texts_of};
ghost use Rattle.smps_cli.specs.Makes.{plan_line, size_line, summary_text};

use crate::answer::Answer;
use crate::found::{Found, Summary};
use crate::refuse::stopped;
use command_words::{Page, Plan};
use exit_status::{Status, command_status};
use frac128::Memory;
use input_files::{FILE_LIMIT, Texts};
use program_files::read_program;
use report_text::print_outcome;
use run_watch::Watch;
use scen_defs::{Program, Report};
use smps_session::{Answered, StatedLimits, session};
use std::alloc::Global;
use workload_maker::{Made, make};

/// So many solves, and so many pivots in each, are allowed for the report of a workload.
const BUDGET: u64 = 100_000;

/// The answer for a plan: the text that is asked for, or the summary.
pub(crate) fn made<W: Watch>(alloc: Global, plan: Plan, watch: &mut W) -> Result<Answer, Memory>
    ensures { IfOk result (λ answer. MakesPlan plan answer.status (found_text answer.found)) }
{
    let texts = make(alloc, plan.start, plan.stages, plan.branches, plan.size)?;
    match plan.page {
        Some(page) => Ok(Answer {
            status: Status::Done,
            found: Found::Page(page_of(texts, page)),
        }),
        None => summed_up(alloc, plan, &texts_of(texts), watch),
    }
}

/// A text of a workload.
fn page_of(made: Made, page: Page) -> Vec<u8>
    ensures { result.items ≡ page_text (made_view made) page }
{
    match page {
        Page::Core => made.core,
        Page::Time => made.time,
        Page::Stoch => made.stoch,
    }
}

/// The texts of a workload as those of files.
fn texts_of(made: Made) -> Texts
    ensures { texts_view result ≡ texts_of (made_view made) }
{
    Texts {
        core: made.core,
        time: Some(made.time),
        stoch: Some(made.stoch),
        edits: None,
        report: None,
        basis: None,
        measures: None,
    }
}

fn is_within(text: &[u8]) -> bool
    ensures { result ≡ leb (length text.now) file_limit }
{
    text.len() as u64 <= FILE_LIMIT
}

fn is_within_if(text: &Option<Vec<u8>>) -> bool
    ensures { result ≡ true → IfSome (given_bytes text.now) (λ bytes. length bytes ≤ file_limit) }
{
    match text {
        Some(text) => is_within(text),
        None => true,
    }
}

/// Whether no text is longer than a file may be.
fn are_within(texts: &Texts) -> bool
    ensures { result ≡ true → AreWithin (texts_view texts.now) }
{
    is_within(&texts.core)
        && is_within_if(&texts.time)
        && is_within_if(&texts.stoch)
        && is_within_if(&texts.edits)
        && is_within_if(&texts.report)
        && is_within_if(&texts.basis)
        && is_within_if(&texts.measures)
}

/// The answer for the texts of a workload: the summary, or their first fault, which never comes. That they are too long never comes
/// either, and is answered as want of memory.
fn summed_up<W: Watch>(
    alloc: Global,
    plan: Plan,
    texts: &Texts,
    watch: &mut W,
) -> Result<Answer, Memory>
    requires { texts_view texts.now ≡ texts_of (workload plan) }
    ensures { IfOk result (λ answer. MaySumUp plan answer.status (found_text answer.found)) }
{
    if !are_within(texts) {
        return Err(Memory);
    }
    match read_program(alloc, texts) {
        Ok(program) => solved(alloc, plan, texts, program, watch),
        Err(unread) => stopped(alloc, unread),
    }
}

/// The answer of a report.
fn reported(plan: Plan, program: Program, answered: Answered) -> Answer
    ensures text { found_text result.found ≡ summary_text plan program answered.report }
    ensures told { result.status ≡ command_status answered.report.finding }
{
    let Answered { report, by_whole } = answered;
    Answer {
        status: command_status(report.finding),
        found: Found::Summary(Summary {
            plan,
            program,
            report,
            by_whole,
        }),
    }
}

/// The answer for the program of a workload: solves it.
fn solved<W: Watch>(
    alloc: Global,
    plan: Plan,
    texts: &Texts,
    program: Program,
    watch: &mut W,
) -> Result<Answer, Memory>
    requires texts { texts_view texts.now ≡ texts_of (workload plan) }
    requires means { MeansProgram (texts_view texts.now) (content program) }
    ensures { IfOk result (λ answer. PrintsSummary plan answer.status (found_text answer.found)) }
{
    let _core = texts.core.len();
    let stated = StatedLimits {
        solves: false,
        pivots: false,
    };
    let answered = session(alloc, &program, BUDGET, BUDGET, stated, watch)?;
    Ok(reported(plan, program, answered))
}

/// The text of a summary.
pub(crate) fn summary_text(alloc: Global, summary: &Summary) -> Result<Vec<u8>, Memory>
    ensures { IfOk result (λ text. text.items ≡ summary_text summary.now.plan summary.now.program summary.now.report) }
{
    let mut text = plan_line(alloc, summary.plan)?;
    let sizes = size_line(alloc, &summary.program, &summary.report)?;
    text.extend_from_slice(&sizes)?;
    print_outcome(alloc, &summary.report, &mut text)?;
    text.extend_from_slice(b"END\n")?;
    Ok(text)
}

fn plan_line(alloc: Global, plan: Plan) -> Result<Vec<u8>, Memory>
    ensures { IfOk result (λ text. text.items ≡ plan_line plan) }
{
    let Plan {
        start,
        stages,
        branches,
        size,
        page: _,
    } = plan;
    let line = format!(in alloc; "MAKE {start} {stages} {branches} {size}\n")?;
    Ok(Vec::from_slice(alloc, line.as_bytes())?)
}

fn size_line(alloc: Global, program: &Program, report: &Report) -> Result<Vec<u8>, Memory>
    ensures { IfOk result (λ text. text.items ≡ size_line program.now report.now) }
{
    let nodes = report.nodes;
    let scenarios = report.scenarios;
    let columns = program.columns.len();
    let rows = program.rows.len();
    let line = format!(in alloc;
        "NODES {nodes} SCENARIOS {scenarios} COLUMNS {columns} ROWS {rows}\n"
    )?;
    Ok(Vec::from_slice(alloc, line.as_bytes())?)
}
