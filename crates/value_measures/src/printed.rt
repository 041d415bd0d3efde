//! Reports with their texts.
ghost use Rattle.std.specs.Prelude.{◌≡◌, IfOk};
ghost use Rattle.scen_defs.specs.Fits.{ListsHaveNames};
ghost use Rattle.scen_defs.specs.Program.{content};
ghost use Rattle.report_text.specs.Text.{report_text};
ghost use Rattle.value_measures.specs.Reports.{IsReportOf, budget_of_limits};

use frac128::{Frac, Memory};
use report_text::print_report;
use run_watch::Watch;
use scen_defs::{Program, Report};
use smps_session::{Answered, StatedLimits, session};
use smps_words::Name;
use std::alloc::Global;

/// A report, and its text.
#[derive(Drop)]
pub struct PrintedReport {
    pub report: Report,
    /// All of it.
    pub text: Vec<u8>,
    /// Whether it tells a claim about the whole program, after the method had stopped.
    pub by_whole: bool,
}

/// A scenario, and the report of the program in which it is the only one.
#[derive(Drop)]
pub struct ScenarioReport {
    pub name: Name,
    /// How likely it is in the program with all scenarios.
    pub probability: Frac,
    pub printed: PrintedReport,
}

/// How much may be done for each report.
#[derive(Clone, Copy)]
pub(crate) struct ReportLimits {
    /// Solves of nodes.
    pub(crate) solves: u64,
    /// Pivots in each.
    pub(crate) pivots: u64,
    pub(crate) stated: StatedLimits,
}

/// A report with its text.
fn printed(alloc: Global, program: &Program, answered: Answered) -> Result<PrintedReport, Memory>
    requires { ListsHaveNames program.now answered.report }
    ensures report { IfOk result (λ printed. printed.report ≡ answered.report) }
    ensures text { IfOk result (λ printed. printed.text.items ≡ report_text program.now answered.report) }
{
    let mut text = Vec::new(alloc);
    print_report(alloc, program, &answered.report, &mut text)?;
    Ok(PrintedReport {
        report: answered.report,
        text,
        by_whole: answered.by_whole,
    })
}

/// The report of a program, which is solved for it.
pub(crate) fn printed_report<W: Watch>(
    alloc: Global,
    program: &Program,
    limits: ReportLimits,
    watch: &mut W,
) -> Result<PrintedReport, Memory>
    ensures { IfOk result (IsReportOf (budget_of_limits limits) limits.stated (content program.now)) }
{
    let answered = session(
        alloc,
        program,
        limits.solves,
        limits.pivots,
        limits.stated,
        watch,
    )?;
    printed(alloc, program, answered)
}
