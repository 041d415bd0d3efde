//! The command `solve`.
ghost use Rattle.std.specs.Prelude.{◌≡◌, true, IfOk};
ghost use Rattle.std.specs.List.{flat_map};
ghost use Rattle.input_files.specs.Unfetched.{texts_view};
ghost use Rattle.program_files.specs.Meant.{AreWithin};
ghost use Rattle.exit_status.specs.Findings.{open_status};
ghost use Rattle.smps_cli.specs.Found.{found_text};
ghost use Rattle.smps_cli.specs.Inputs.{IsInput};
ghost use Rattle.smps_cli.specs.Solved.{MayBeSolved, PrintsReports, told_text, any_open};
ghost use Rattle.smps_cli.specs.Within.{ComesWithin, states_none};

use crate::answer::Answer;
use crate::found::Found;
use crate::input::{Input, read_input};
use crate::refuse::stopped;
use crate::within::{Way, script_goes_together, without_solves};
use command_words::Budget;
use exit_status::{is_open, open_status};
use frac128::Memory;
use input_files::Texts;
use run_watch::Watch;
use smps_session::{StatedLimits, Told, WholeHint, scripted};
use std::alloc::Global;

/// The answer for the texts of the files: the reports of the program that they mean, or their first fault. All nodes are solved together
/// first, where that pays and no limit was asked for; if that leaves something open, the method begins.
pub(crate) fn solved<W: Watch>(
    alloc: Global,
    texts: &Texts,
    budget: Budget,
    watch: &mut W,
) -> Result<Answer, Memory>
    requires { AreWithin (texts_view texts.now) }
    ensures { IfOk result (λ answer.
        ComesWithin (λ kept. MayBeSolved kept (texts_view texts.now)) budget answer.status (found_text answer.found)) }
{
    match read_input(alloc, texts) {
        Ok(mut input) => solved_some(alloc, texts, &mut input, budget, watch),
        Err(unread) => stopped(alloc, unread),
    }
}

/// The answer for the input of the texts, in one of both ways.
fn solved_some<W: Watch>(
    alloc: Global,
    texts: &Texts,
    input: &mut Input,
    budget: Budget,
    watch: &mut W,
) -> Result<Answer, Memory>
    requires within { AreWithin (texts_view texts.now) }
    requires input { IsInput (texts_view texts.now) input.old }
    ensures { IfOk result (λ answer.
        ComesWithin (λ kept. MayBeSolved kept (texts_view texts.now)) budget answer.status (found_text answer.found)) }
{
    if script_goes_together(&input.program, &input.script, budget) {
        solved_anew(alloc, texts, input, budget, watch)
    } else {
        let mut hint = WholeHint::empty(alloc);
        solved_input(alloc, texts, input, budget, Way::Method, &mut hint, watch)
    }
}

/// The answer for the input of the texts, with all nodes together, of which nothing is known.
fn solved_anew<W: Watch>(
    alloc: Global,
    texts: &Texts,
    input: &mut Input,
    budget: Budget,
    watch: &mut W,
) -> Result<Answer, Memory>
    requires within { AreWithin (texts_view texts.now) }
    requires input { IsInput (texts_view texts.now) input.old }
    requires none { states_none budget ≡ true }
    ensures { IfOk result (λ answer.
        ComesWithin (λ kept. MayBeSolved kept (texts_view texts.now)) budget answer.status (found_text answer.found)) }
{
    let mut hint = WholeHint::empty(alloc);
    solved_together(alloc, texts, input, budget, &mut hint, watch)
}

/// The answer for the input of the texts, with all nodes together; by the method, if that leaves something open.
fn solved_together<W: Watch>(
    alloc: Global,
    texts: &Texts,
    input: &mut Input,
    budget: Budget,
    hint: &mut WholeHint,
    watch: &mut W,
) -> Result<Answer, Memory>
    requires within { AreWithin (texts_view texts.now) }
    requires input { IsInput (texts_view texts.now) input.old }
    requires none { states_none budget ≡ true }
    ensures { IfOk result (λ answer.
        ComesWithin (λ kept. MayBeSolved kept (texts_view texts.now)) budget answer.status (found_text answer.found)) }
{
    let none = without_solves(budget);
    let answer = solved_input(alloc, texts, input, none, Way::Together, hint, watch)?;
    if answer.is_closed() {
        Ok(answer)
    } else {
        solved_by_method(alloc, texts, budget, hint, watch)
    }
}

/// The answer for the texts of the files, by the method; a solve of all nodes together begins with the hint.
fn solved_by_method<W: Watch>(
    alloc: Global,
    texts: &Texts,
    budget: Budget,
    hint: &mut WholeHint,
    watch: &mut W,
) -> Result<Answer, Memory>
    requires { AreWithin (texts_view texts.now) }
    ensures { IfOk result (λ answer. MayBeSolved budget (texts_view texts.now) answer.status (found_text answer.found)) }
{
    match read_input(alloc, texts) {
        Ok(mut input) => solved_input(alloc, texts, &mut input, budget, Way::Method, hint, watch),
        Err(unread) => stopped(alloc, unread),
    }
}

/// The answer for the input of the texts: solves it for each SOLVE.
fn solved_input<W: Watch>(
    alloc: Global,
    texts: &Texts,
    input: &mut Input,
    budget: Budget,
    way: Way,
    hint: &mut WholeHint,
    watch: &mut W,
) -> Result<Answer, Memory>
    requires { IsInput (texts_view texts.now) input.old }
    ensures { IfOk result (λ answer. PrintsReports budget (texts_view texts.now) answer.status (found_text answer.found)) }
{
    let _core = texts.core.len();
    let stated = StatedLimits {
        solves: budget.solves_stated,
        pivots: budget.pivots_stated,
    };
    let tolds = scripted(
        alloc,
        &mut input.program,
        &input.script,
        budget.solves,
        budget.pivots,
        stated,
        hint,
        watch,
    )?;
    Ok(told(tolds, way))
}

/// The answer of reports.
pub(crate) fn told(tolds: Vec<Told>, way: Way) -> Answer
    ensures text { found_text result.found ≡ flat_map told_text tolds.items }
    ensures ends { result.status ≡ open_status (any_open tolds.items) }
{
    let status = open_status(any_open(&tolds));
    let found = match way {
        Way::Together => Found::Together(tolds),
        Way::Method => Found::Reports(tolds),
    };
    Answer { status, found }
}

/// Whether a report is open.
fn any_open(tolds: &[Told]) -> bool
    ensures { result ≡ any_open tolds.now }
{
    for told in tolds {
        if is_open(told.finding) {
            return true;
        }
    }
    false
}
