//! The commands `solve` and `check` with a risk measure in place of the mean cost.
ghost use Rattle.std.specs.Prelude.{◌≡◌, ◌∷◌, [], true, IfOk};
ghost use Rattle.scen_defs.specs.Program.{content};
ghost use Rattle.input_files.specs.Unfetched.{texts_view};
ghost use Rattle.program_files.specs.Edited.{or_empty};
ghost use Rattle.program_files.specs.Meant.{AreWithin, MeansProgram};
ghost use Rattle.report_reader.specs.Stated.{IsStated};
ghost use Rattle.command_words.specs.Ranges.{IsRiskMeasure};
ghost use Rattle.edit_script.specs.Script.{report_item};
ghost use Rattle.smps_cli.specs.Flat.{RefusesCore};
ghost use Rattle.smps_cli.specs.Found.{found_text};
ghost use Rattle.smps_cli.specs.Risks.{ChecksRisk, IsRiskCheck, IsRiskProgram, IsRiskSolve, MayBeRiskChecked, MayBeRiskSolved};
ghost use Rattle.smps_cli.specs.Risks.{PrintsRisk, PrintsRiskChecks, RefusesFail, RefusesRisk};
ghost use Rattle.smps_cli.specs.Within.{ComesWithin, states_none};

use crate::answer::{Answer, line_answer};
use crate::found::{Checks, Found};
use crate::refuse::stopped;
use crate::solve::told;
use crate::within::{Way, goes_together, without_solves};
use command_words::{Budget, RiskMeasure};
use core_defs::{Cause, ReadFail};
use edit_defs::{Act, Item, Script};
use exit_status::{Status, open_status};
use frac128::Memory;
use input_files::{FileKind, Texts};
use program_files::read_program;
use report_reader::read_reports;
use run_watch::Watch;
use scen_defs::{Program, Report};
use script_checks::{all_hold, check_script};
use smps_session::{StatedLimits, WholeHint, scripted};
use std::alloc::Global;
use tail_risk::{TailFault, tail_program};

/// One report, of the program as it stands.
fn one_report(alloc: Global) -> Result<Script, Memory>
    ensures { IfOk result (λ script. script.items.items ≡ report_item ∷ []) }
{
    let mut items = Vec::new(alloc);
    items.push(Item {
        work: 0,
        act: Act::Solve,
    })?;
    Ok(Script { items })
}

/// The answer where there is no such program: the core file is refused as a whole.
fn unmade(alloc: Global, fault: TailFault) -> Result<Answer, Memory>
    ensures { IfOk result (λ answer. RefusesRisk fault answer.status (found_text answer.found)) }
{
    match fault {
        TailFault::Name => refused(alloc, Cause::TailName),
        TailFault::Limit => refused(alloc, Cause::ScenarioLimit),
        TailFault::Passed(passed) => refused(alloc, Cause::Passes(passed)),
        TailFault::Memory => Err(Memory),
    }
}

/// The answer that refuses the core file as a whole.
fn refused(alloc: Global, cause: Cause) -> Result<Answer, Memory>
    ensures { IfOk result (λ answer. RefusesCore cause answer.status (found_text answer.found)) }
{
    line_answer(alloc, Status::Refused(FileKind::Core, 0, cause), &None)
}

// ---- solve

/// The answer for the texts of the files: the report of the program whose cost is the risk measure, or their first fault.
pub(crate) fn solved_risk<W: Watch>(
    alloc: Global,
    texts: &Texts,
    measure: RiskMeasure,
    budget: Budget,
    watch: &mut W,
) -> Result<Answer, Memory>
    requires within { AreWithin (texts_view texts.now) }
    requires range { IsRiskMeasure measure }
    ensures { IfOk result (λ answer.
        ComesWithin (λ kept. MayBeRiskSolved measure kept (texts_view texts.now)) budget answer.status (found_text answer.found)) }
{
    match read_program(alloc, texts) {
        Ok(program) => solved_read(alloc, texts, &program, &measure, budget, watch),
        Err(unread) => stopped(alloc, unread),
    }
}

/// The answer for the program of the texts. All nodes are solved together first, as by `solve` without a risk measure.
fn solved_read<W: Watch>(
    alloc: Global,
    texts: &Texts,
    program: &Program,
    measure: &RiskMeasure,
    budget: Budget,
    watch: &mut W,
) -> Result<Answer, Memory>
    requires means { MeansProgram (texts_view texts.now) (content program.now) }
    requires range { IsRiskMeasure measure.now }
    ensures { IfOk result (λ answer.
        ComesWithin (λ kept. IsRiskSolve measure.now kept (texts_view texts.now)) budget answer.status (found_text answer.found)) }
{
    if goes_together(program, budget) {
        solved_anew(alloc, texts, program, measure, budget, watch)
    } else {
        let mut hint = WholeHint::empty(alloc);
        solved_by_method(alloc, texts, program, measure, budget, &mut hint, watch)
    }
}

/// The answer for the program of the texts, with all nodes together, of which nothing is known.
fn solved_anew<W: Watch>(
    alloc: Global,
    texts: &Texts,
    program: &Program,
    measure: &RiskMeasure,
    budget: Budget,
    watch: &mut W,
) -> Result<Answer, Memory>
    requires means { MeansProgram (texts_view texts.now) (content program.now) }
    requires range { IsRiskMeasure measure.now }
    requires none { states_none budget ≡ true }
    ensures { IfOk result (λ answer.
        ComesWithin (λ kept. IsRiskSolve measure.now kept (texts_view texts.now)) budget answer.status (found_text answer.found)) }
{
    let mut hint = WholeHint::empty(alloc);
    solved_together(alloc, texts, program, measure, budget, &mut hint, watch)
}

/// The answer for the program of the texts, with all nodes together; by the method, if that leaves something open.
fn solved_together<W: Watch>(
    alloc: Global,
    texts: &Texts,
    program: &Program,
    measure: &RiskMeasure,
    budget: Budget,
    hint: &mut WholeHint,
    watch: &mut W,
) -> Result<Answer, Memory>
    requires means { MeansProgram (texts_view texts.now) (content program.now) }
    requires range { IsRiskMeasure measure.now }
    requires none { states_none budget ≡ true }
    ensures { IfOk result (λ answer.
        ComesWithin (λ kept. IsRiskSolve measure.now kept (texts_view texts.now)) budget answer.status (found_text answer.found)) }
{
    let none = without_solves(budget);
    let way = Way::Together;
    let answer = solved_program(alloc, texts, program, measure, none, way, hint, watch)?;
    if answer.is_closed() {
        Ok(answer)
    } else {
        solved_by_method(alloc, texts, program, measure, budget, hint, watch)
    }
}

/// The answer for the program of the texts, by the method; a solve of all nodes together begins with the hint.
fn solved_by_method<W: Watch>(
    alloc: Global,
    texts: &Texts,
    program: &Program,
    measure: &RiskMeasure,
    budget: Budget,
    hint: &mut WholeHint,
    watch: &mut W,
) -> Result<Answer, Memory>
    requires means { MeansProgram (texts_view texts.now) (content program.now) }
    requires range { IsRiskMeasure measure.now }
    ensures { IfOk result (λ answer. IsRiskSolve measure.now budget (texts_view texts.now) answer.status (found_text answer.found)) }
{
    let way = Way::Method;
    solved_program(alloc, texts, program, measure, budget, way, hint, watch)
}

/// The answer for the program of the texts, within a budget.
fn solved_program<W: Watch>(
    alloc: Global,
    texts: &Texts,
    program: &Program,
    measure: &RiskMeasure,
    budget: Budget,
    way: Way,
    hint: &mut WholeHint,
    watch: &mut W,
) -> Result<Answer, Memory>
    requires means { MeansProgram (texts_view texts.now) (content program.now) }
    requires range { IsRiskMeasure measure.now }
    ensures { IfOk result (λ answer. IsRiskSolve measure.now budget (texts_view texts.now) answer.status (found_text answer.found)) }
{
    let _core = texts.core.len();
    match tail_program(alloc, program, measure.level, measure.weight) {
        Ok(made) => solved_made(alloc, made, program, measure, budget, way, hint, watch),
        Err(fault) => unmade(alloc, fault),
    }
}

/// The answer for the program that was made of the one of the texts.
fn solved_made<W: Watch>(
    alloc: Global,
    made: Program,
    read: &Program,
    measure: &RiskMeasure,
    budget: Budget,
    way: Way,
    hint: &mut WholeHint,
    watch: &mut W,
) -> Result<Answer, Memory>
    requires { IsRiskProgram measure.now (content read.now) (content made) }
    ensures { IfOk result (λ answer.
        PrintsRisk measure.now budget (content read.now) (content made) answer.status (found_text answer.found)) }
{
    let _periods = read.periods.len();
    let _level = measure.level;
    let stated = StatedLimits {
        solves: budget.solves_stated,
        pivots: budget.pivots_stated,
    };
    let script = one_report(alloc)?;
    let mut made = made;
    let tolds = scripted(
        alloc,
        &mut made,
        &script,
        budget.solves,
        budget.pivots,
        stated,
        hint,
        watch,
    )?;
    Ok(told(tolds, way))
}

// ---- check

/// The answer for the texts of the files: the check of the report of the program whose cost is the risk measure, or their first fault.
pub(crate) fn checked_risk(
    alloc: Global,
    texts: &Texts,
    measure: RiskMeasure,
) -> Result<Answer, Memory>
    requires within { AreWithin (texts_view texts.now) }
    requires range { IsRiskMeasure measure }
    ensures { IfOk result (λ answer. MayBeRiskChecked measure (texts_view texts.now) answer.status (found_text answer.found)) }
{
    match read_program(alloc, texts) {
        Ok(program) => checked_read(alloc, texts, &program, measure),
        Err(unread) => stopped(alloc, unread),
    }
}

/// The answer for the program of the texts.
fn checked_read(
    alloc: Global,
    texts: &Texts,
    program: &Program,
    measure: RiskMeasure,
) -> Result<Answer, Memory>
    requires within { AreWithin (texts_view texts.now) }
    requires means { MeansProgram (texts_view texts.now) (content program.now) }
    requires range { IsRiskMeasure measure }
    ensures { IfOk result (λ answer. IsRiskCheck measure (texts_view texts.now) answer.status (found_text answer.found)) }
{
    match tail_program(alloc, program, measure.level, measure.weight) {
        Ok(made) => checked_made(alloc, texts, made, program, measure),
        Err(fault) => unmade(alloc, fault),
    }
}

/// The bytes of the report file, none where there is none.
fn report_bytes(texts: &Texts) -> &[u8]
    ensures { result.now ≡ or_empty (texts_view texts.now).report }
{
    match &texts.report {
        Some(text) => text,
        None => &[],
    }
}

/// The answer for the program that was made: reads the report with its names.
fn checked_made(
    alloc: Global,
    texts: &Texts,
    made: Program,
    read: &Program,
    measure: RiskMeasure,
) -> Result<Answer, Memory>
    requires within { AreWithin (texts_view texts.now) }
    requires made { IsRiskProgram measure (content read.now) (content made) }
    ensures { IfOk result (λ answer.
        ChecksRisk measure (texts_view texts.now) (content read.now) (content made) answer.status (found_text answer.found)) }
{
    let _periods = read.periods.len();
    let mut made = made;
    match read_reports(alloc, report_bytes(texts), &made, 1) {
        Ok(reports) => checked_reports(alloc, texts, &mut made, &reports),
        Err(fail) => untold(alloc, fail),
    }
}

/// The answer where the report file isn't read.
fn untold(alloc: Global, fail: ReadFail) -> Result<Answer, Memory>
    ensures { IfOk result (λ answer. RefusesFail fail answer.status (found_text answer.found)) }
{
    match fail {
        ReadFail::Refused(refusal) => {
            let status = Status::Refused(FileKind::Report, refusal.line, refusal.cause);
            line_answer(alloc, status, &None)
        }
        ReadFail::Memory => Err(Memory),
    }
}

/// The answer for reports: checks each against the program.
fn checked_reports(
    alloc: Global,
    texts: &Texts,
    made: &mut Program,
    reports: &[Report],
) -> Result<Answer, Memory>
    requires { IsStated made.old (or_empty (texts_view texts.now).report) reports.now }
    ensures { IfOk result (λ answer.
        PrintsRiskChecks (texts_view texts.now) made.old reports.now answer.status (found_text answer.found)) }
{
    let _core = texts.core.len();
    let script = one_report(alloc)?;
    let checks = check_script(alloc, made, &script, reports)?;
    Ok(Answer {
        status: open_status(!all_hold(&checks)),
        found: Found::Checks(Checks { checks, asked: 1 }),
    })
}
