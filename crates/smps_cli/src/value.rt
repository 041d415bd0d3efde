//! The command `value`.
ghost use Rattle.std.specs.Prelude.{◌≡◌, true, IfOk, not};
ghost use Rattle.scen_defs.specs.Program.{content};
ghost use Rattle.input_files.specs.Unfetched.{texts_view};
ghost use Rattle.program_files.specs.Meant.{AreWithin, MeansProgram};
ghost use Rattle.exit_status.specs.Findings.{open_status};
ghost use Rattle.value_measures.specs.Measured.{IsMeasured};
ghost use Rattle.value_measures.specs.Numbers.{all_known};
ghost use Rattle.value_measures.specs.Text.{measures_text};
ghost use Rattle.smps_cli.specs.Found.{found_text};
ghost use Rattle.smps_cli.specs.Measured.{any_open_scenario, are_open_means, is_open_fixed, is_open_report, leaves_open};
ghost use Rattle.smps_cli.specs.Measured.{MayBeMeasured, PrintsMeasuresWithin};
ghost use Rattle.smps_cli.specs.Solved.{stated_of};
ghost use Rattle.smps_cli.specs.Within.{states_none};

use crate::answer::Answer;
use crate::found::Found;
use crate::refuse::stopped;
use crate::within::{Way, goes_together, without_solves};
use command_words::Budget;
use exit_status::{is_open, open_status};
use frac128::{Memory, Passed};
use input_files::Texts;
use program_files::read_program;
use run_watch::Watch;
use scen_defs::Program;
use smps_session::StatedLimits;
use std::alloc::Global;
use value_measures::{Measures, PrintedReport, ScenarioReport, measure};

/// The answer for the texts of the files: what is measured of the program that they mean, or their first fault.
pub(crate) fn valued<W: Watch>(
    alloc: Global,
    texts: &Texts,
    budget: Budget,
    watch: &mut W,
) -> Result<Answer, Memory>
    requires { AreWithin (texts_view texts.now) }
    ensures { IfOk result (λ answer. MayBeMeasured budget (texts_view texts.now) answer.status (found_text answer.found)) }
{
    match read_program(alloc, texts) {
        Ok(program) => valued_read(alloc, texts, &program, budget, watch),
        Err(unread) => stopped(alloc, unread),
    }
}

/// The answer for the program of the texts. All nodes of each program are solved together first, as by `solve`.
fn valued_read<W: Watch>(
    alloc: Global,
    texts: &Texts,
    program: &Program,
    budget: Budget,
    watch: &mut W,
) -> Result<Answer, Memory>
    requires { MeansProgram (texts_view texts.now) (content program.now) }
    ensures { IfOk result (λ answer.
        PrintsMeasuresWithin budget (texts_view texts.now) answer.status (found_text answer.found)) }
{
    if goes_together(program, budget) {
        valued_together(alloc, texts, program, budget, watch)
    } else {
        valued_by_method(alloc, texts, program, budget, watch)
    }
}

/// The answer for the program of the texts, with all nodes together; by the method, if that leaves a report open. Where a number isn't
/// there though no report is open, the method would find no other.
fn valued_together<W: Watch>(
    alloc: Global,
    texts: &Texts,
    program: &Program,
    budget: Budget,
    watch: &mut W,
) -> Result<Answer, Memory>
    requires means { MeansProgram (texts_view texts.now) (content program.now) }
    requires none { states_none budget ≡ true }
    ensures { IfOk result (λ answer.
        PrintsMeasuresWithin budget (texts_view texts.now) answer.status (found_text answer.found)) }
{
    let none = without_solves(budget);
    let measures = measured_within(alloc, texts, program, none, watch)?;
    if leaves_open(&measures) {
        valued_by_method(alloc, texts, program, budget, watch)
    } else {
        Ok(measured(measures, Way::Together))
    }
}

/// The answer for the program of the texts, by the method.
fn valued_by_method<W: Watch>(
    alloc: Global,
    texts: &Texts,
    program: &Program,
    budget: Budget,
    watch: &mut W,
) -> Result<Answer, Memory>
    requires { MeansProgram (texts_view texts.now) (content program.now) }
    ensures { IfOk result (λ answer.
        PrintsMeasuresWithin budget (texts_view texts.now) answer.status (found_text answer.found)) }
{
    let measures = measured_within(alloc, texts, program, budget, watch)?;
    Ok(measured(measures, Way::Method))
}

/// What is measured of the program of the texts within a budget.
fn measured_within<W: Watch>(
    alloc: Global,
    texts: &Texts,
    program: &Program,
    budget: Budget,
    watch: &mut W,
) -> Result<Measures, Memory>
    requires { MeansProgram (texts_view texts.now) (content program.now) }
    ensures { IfOk result
        (IsMeasured (record { solves = budget.solves; pivots = budget.pivots }) (stated_of budget) (content program.now)) }
{
    let _core = texts.core.len();
    let stated = StatedLimits {
        solves: budget.solves_stated,
        pivots: budget.pivots_stated,
    };
    measure(alloc, program, budget.solves, budget.pivots, stated, watch)
}

/// The answer of measures: something is left open where a number isn't there.
fn measured(measures: Measures, way: Way) -> Answer
    ensures text { found_text result.found ≡ measures_text measures }
    ensures ends { result.status ≡ open_status (not (all_known measures.numbers)) }
{
    let status = open_status(!measures.numbers.all_known());
    let found = match way {
        Way::Together => Found::MeasuredTogether(measures),
        Way::Method => Found::Measures(measures),
    };
    Answer { status, found }
}

// ---- whether a report is open

fn is_open_report(printed: &PrintedReport) -> bool
    ensures { result ≡ is_open_report printed.now }
{
    is_open(printed.report.finding)
}

fn any_open_scenario(scenarios: &[ScenarioReport]) -> bool
    ensures { result ≡ any_open_scenario scenarios.now }
{
    for scenario in scenarios {
        if is_open_report(&scenario.printed) {
            return true;
        }
    }
    false
}

fn are_open_means(means: &Result<PrintedReport, Passed>) -> bool
    ensures { result ≡ are_open_means means.now }
{
    match means {
        Ok(printed) => is_open_report(printed),
        Err(_) => false,
    }
}

fn is_open_fixed(fixed: &Option<PrintedReport>) -> bool
    ensures { result ≡ is_open_fixed fixed.now }
{
    match fixed {
        Some(printed) => is_open_report(printed),
        None => false,
    }
}

fn leaves_open(measures: &Measures) -> bool
    ensures { result ≡ leaves_open measures.now }
{
    is_open_report(&measures.whole)
        || any_open_scenario(&measures.scenarios)
        || are_open_means(&measures.means)
        || is_open_fixed(&measures.fixed)
}
