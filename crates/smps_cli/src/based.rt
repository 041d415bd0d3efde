//! The command `solve` with a basis.
ghost use Rattle.std.specs.Prelude.{◌≡◌, ◌∷◌, [], IfOk};
ghost use Rattle.std.specs.List.{flat_map};
ghost use Rattle.scen_defs.specs.Program.{content};
ghost use Rattle.input_files.specs.Unfetched.{texts_view};
ghost use Rattle.program_files.specs.Edited.{or_empty};
ghost use Rattle.program_files.specs.Meant.{AreWithin, MeansProgram};
ghost use Rattle.smps_cli.specs.Based.{MayBeBasisSolved, RefusesFault};
ghost use Rattle.smps_cli.specs.Found.{found_text};
ghost use Rattle.smps_cli.specs.Solved.{MayBeSolved, told_text};
ghost use Rattle.smps_cli.specs.Within.{ComesWithin};

use crate::answer::{Answer, line_answer};
use crate::found::Found;
use crate::refuse::stopped;
use crate::solve::solved;
use basis_file::{BasisFault, GivenBasis, read_basis};
use command_words::Budget;
use core_defs::Cause;
use exit_status::Status;
use frac128::Memory;
use input_files::{FileKind, Texts};
use program_files::read_program;
use run_watch::Watch;
use scen_defs::Program;
use smps_session::{Told, told_of_basis};
use std::alloc::Global;

/// The answer for the texts of the files: what the basis shows of the program that they mean, or what comes without it, or the first fault.
/// Where there is an edit list, which the words don't take beside a basis, it is what comes without the basis.
pub(crate) fn solved_by_basis<W: Watch>(
    alloc: Global,
    texts: &Texts,
    budget: Budget,
    watch: &mut W,
) -> Result<Answer, Memory>
    requires { AreWithin (texts_view texts.now) }
    ensures { IfOk result (λ answer.
        ComesWithin (λ kept. MayBeBasisSolved kept (texts_view texts.now)) budget answer.status (found_text answer.found)) }
{
    match &texts.edits {
        Some(_) => solved_without(alloc, texts, budget, watch),
        None => solved_unedited(alloc, texts, budget, watch),
    }
}

/// The answer where there is no edit list, as the words say: a basis shows the report of the program as the files mean it.
fn solved_unedited<W: Watch>(
    alloc: Global,
    texts: &Texts,
    budget: Budget,
    watch: &mut W,
) -> Result<Answer, Memory>
    requires within { AreWithin (texts_view texts.now) }
    requires unedited { (texts_view texts.now).edits ≡ None }
    ensures { IfOk result (λ answer.
        ComesWithin (λ kept. MayBeBasisSolved kept (texts_view texts.now)) budget answer.status (found_text answer.found)) }
{
    match read_program(alloc, texts) {
        Ok(program) => solved_program(alloc, texts, program, budget, watch),
        Err(unread) => stopped(alloc, unread),
    }
}

/// The answer for the program of the texts: reads the basis.
fn solved_program<W: Watch>(
    alloc: Global,
    texts: &Texts,
    program: Program,
    budget: Budget,
    watch: &mut W,
) -> Result<Answer, Memory>
    requires within { AreWithin (texts_view texts.now) }
    requires unedited { (texts_view texts.now).edits ≡ None }
    requires means { MeansProgram (texts_view texts.now) (content program) }
    ensures { IfOk result (λ answer.
        ComesWithin (λ kept. MayBeBasisSolved kept (texts_view texts.now)) budget answer.status (found_text answer.found)) }
{
    match read_basis(alloc, &program, basis_bytes(texts)) {
        Ok(given) => solved_given(alloc, texts, program, &given, budget, watch),
        Err(fault) => refused(alloc, fault),
    }
}

/// The answer for a basis: where it shows no report, the one without it.
fn solved_given<W: Watch>(
    alloc: Global,
    texts: &Texts,
    program: Program,
    given: &GivenBasis,
    budget: Budget,
    watch: &mut W,
) -> Result<Answer, Memory>
    requires within { AreWithin (texts_view texts.now) }
    requires unedited { (texts_view texts.now).edits ≡ None }
    requires means { MeansProgram (texts_view texts.now) (content program) }
    ensures { IfOk result (λ answer.
        ComesWithin (λ kept. MayBeBasisSolved kept (texts_view texts.now)) budget answer.status (found_text answer.found)) }
{
    match told_of_basis(alloc, &program, given, budget.solves, budget.pivots)? {
        Some(told) => shown(alloc, told),
        None => solved_without(alloc, texts, budget, watch),
    }
}

/// The bytes of the basis file.
fn basis_bytes(texts: &Texts) -> &[u8]
    ensures { result.now ≡ or_empty (texts_view texts.now).basis }
{
    match &texts.basis {
        Some(text) => text,
        None => &[],
    }
}

/// The answer of the report that a basis shows.
fn shown(alloc: Global, told: Told) -> Result<Answer, Memory>
    ensures { IfOk result (λ answer.
        (answer.status ≡ Status.Done) × (found_text answer.found ≡ flat_map told_text (told ∷ []))) }
{
    let mut tolds = Vec::new(alloc);
    tolds.push(told)?;
    Ok(Answer {
        status: Status::Done,
        found: Found::Reports(tolds),
    })
}

/// The answer that refuses a line of the basis file.
fn refused(alloc: Global, fault: BasisFault) -> Result<Answer, Memory>
    ensures { IfOk result (λ answer. RefusesFault fault answer.status (found_text answer.found)) }
{
    match fault {
        BasisFault::Line(line) => {
            let status = Status::Refused(FileKind::Basis, line, Cause::BasisBad);
            line_answer(alloc, status, &None)
        }
        BasisFault::Memory => Err(Memory),
    }
}

/// The answer without the basis, which says that there was one.
fn solved_without<W: Watch>(
    alloc: Global,
    texts: &Texts,
    budget: Budget,
    watch: &mut W,
) -> Result<Answer, Memory>
    requires { AreWithin (texts_view texts.now) }
    ensures { IfOk result (λ answer.
        ComesWithin (λ kept. MayBeSolved kept (texts_view texts.now)) budget answer.status (found_text answer.found)) }
{
    let Answer { status, found } = solved(alloc, texts, budget, watch)?;
    let found = match found {
        Found::Reports(tolds) | Found::Together(tolds) => Found::WithoutBasis(tolds),
        other => other,
    };
    Ok(Answer { status, found })
}
