//! The cut that multipliers and weights make.
ghost use Rattle.std.specs.Prelude.{◌≡◌, ◌++◌, IfOk, OnOk};
ghost use Rattle.cut_proof.specs.Answers.{Makes};
ghost use Rattle.cut_proof.specs.View.{uses_content};
ghost use Rattle.node_lp.specs.Problem.{is_priced};
ghost use Rattle.node_lp.specs.Stored.{stored_uses};
ghost use Rattle.node_lp.specs.Told.{stored_of, stored_cuts, record_of, cut_made};
ghost use Rattle.cut_proof.specs.Conditions.{MayBeMade};
ghost use Rattle.cut_defs.specs.Stored.{constant_of, form_of, IsMadeFrom};
ghost use Rattle.node_lp.specs.Uses.{first, with_use};

use crate::found::Multipliers;
use crate::program::is_taken;
use crate::solve::is_priced;
use crate::task::Task;
use cut_defs::CutKind;
use cut_proof::{ChildCuts, Cut, CutFault, Record, SharedCut, Used};
use frac128::{Frac, Memory};
use interval_form::split;
use std::alloc::Global;

/// Adds the cuts about a child that the program takes.
fn push_taken(all: &mut Vec<SharedCut>, priced: bool, cuts: &[SharedCut]) -> Result<(), Memory>
    ensures { OnOk result (all.new.items ≡ all.old.items ++ stored_of priced cuts.now) }
{
    for cut in cuts {
        if is_taken(priced, cut.cut().kind()) {
            all.push(cut.share()?)?;
        }
    }
    Ok(())
}

/// The cuts that the program takes, child by child.
pub(crate) fn taken_cuts(
    alloc: Global,
    priced: bool,
    children: &[ChildCuts],
) -> Result<Vec<SharedCut>, Memory>
    ensures { IfOk result (λ all. all.items ≡ stored_cuts priced children.now) }
{
    let mut all = Vec::new(alloc);
    for child in children {
        push_taken(&mut all, priced, &child.cuts)?;
    }
    Ok(all)
}

/// The first number, 0 where there is none.
pub(crate) fn first(values: &[Frac]) -> Frac
    ensures { result ≡ first values.now }
{
    if values.is_empty() {
        Frac::zero()
    } else {
        values[0]
    }
}

/// Adds a cut with its weight, unless this is 0.
fn push_used(used: &mut Vec<Used>, weight: Frac, cut: &SharedCut) -> Result<(), Memory>
    ensures { OnOk result (uses_content used.new.items ≡ with_use (uses_content used.old.items) weight cut.now) }
{
    if weight.is_zero() {
        return Ok(());
    }
    let cut = cut.share()?;
    used.push(Used { weight, cut })?;
    Ok(())
}

/// The cuts whose weights aren't 0, with these.
fn used(alloc: Global, weights: &[Frac], cuts: &[SharedCut]) -> Result<Vec<Used>, Memory>
    ensures { IfOk result (λ used. uses_content used.items ≡ stored_uses weights.now cuts.now) }
{
    let mut used = Vec::new(alloc);
    let mut left = weights;
    for cut in cuts {
        push_used(&mut used, first(left), cut)?;
        let (_this, others) = split(left, 1);
        left = others;
    }
    Ok(used)
}

/// The cut of a kind that the multipliers, and the weights of these cuts, make.
pub(crate) fn cut_with(
    alloc: Global,
    task: &Task,
    kind: CutKind,
    multipliers: Multipliers,
    cuts: &[SharedCut],
) -> Result<SharedCut, CutFault>
    requires { cuts.now ≡ stored_cuts (is_priced task.now.kind) task.now.children.items }
    ensures walk { Makes (cut_made task.now.datum kind (stored_cuts (is_priced task.now.kind) task.now.children.items) multipliers) result }
    ensures made { let uses = stored_uses multipliers.weights (stored_cuts (is_priced task.now.kind) task.now.children.items) in
        MayBeMade task.now.datum (record_of task.now.datum kind multipliers) uses → IfOk result (λ cut.
        IsMadeFrom task.now.datum (record_of task.now.datum kind multipliers) uses (constant_of cut) (form_of cut)) }
{
    let used = used(alloc, &multipliers.weights, cuts)?;
    let datum = &task.datum;
    let record = Record {
        node: datum.node(),
        kind,
        rows_version: datum.rows_version(),
        costs_version: datum.costs_version(),
        multipliers: multipliers.rows,
        used,
    };
    let cut = Cut::of(alloc, record, datum)?;
    let shared = SharedCut::new(alloc, cut)?;
    Ok(shared)
}

/// The cut of a kind that the multipliers and weights make.
pub(crate) fn cut_of(
    alloc: Global,
    task: &Task,
    kind: CutKind,
    multipliers: Multipliers,
) -> Result<SharedCut, CutFault>
    ensures walk { Makes (cut_made task.now.datum kind (stored_cuts (is_priced task.now.kind) task.now.children.items) multipliers) result }
    ensures made { let uses = stored_uses multipliers.weights (stored_cuts (is_priced task.now.kind) task.now.children.items) in
        MayBeMade task.now.datum (record_of task.now.datum kind multipliers) uses → IfOk result (λ cut.
        IsMadeFrom task.now.datum (record_of task.now.datum kind multipliers) uses (constant_of cut) (form_of cut)) }
{
    let cuts = taken_cuts(alloc, is_priced(task.kind), &task.children)?;
    cut_with(alloc, task, kind, multipliers, &cuts)
}
