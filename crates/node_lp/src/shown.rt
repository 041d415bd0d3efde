//! The test of multipliers and weights, and the cut that they make.
ghost use Rattle.std.specs.Prelude.{◌≡◌, ◌<◌, ◌&&◌, true, eqb, length, map, IfOk, IfSome, OnOk};
ghost use Rattle.rationals.specs.Rational.{zero_ℚ, ◌+ℚ◌};
ghost use Rattle.rationals.specs.Order.{same};
ghost use Rattle.rationals.specs.Sparse.{value_if};
ghost use Rattle.lp_defs.specs.Program.{NoneNegative};
ghost use Rattle.scen_defs.specs.Lists.{Each, is_in};
ghost use Rattle.scen_defs.specs.declared.program.NodeRow.{NodeRow as Row};
ghost use Rattle.cut_defs.specs.declared.kinds.CutKind.TheVariants as cut_kind;
ghost use Rattle.cut_defs.specs.Cuts.{is_bound};
ghost use Rattle.cut_defs.specs.Stored.{source_of};
ghost use Rattle.node_lp.specs.Problem.{IsProblem, is_priced, problem_of};
ghost use Rattle.node_lp.specs.Places.{OfRows};
ghost use Rattle.node_lp.specs.Records.{HasWeights};
ghost use Rattle.node_lp.specs.Told.{stored_cuts};
ghost use Rattle.node_lp.specs.Tests.{stored_weight, HasShare, HaveShares, StoredAlone, IsCutAbout, MayShow, ShowsCut};

use crate::cutting::{cut_with, first, taken_cuts};
use crate::found::Multipliers;
use crate::point_tests::at_most;
use crate::solve::is_priced;
use crate::task::Task;
use cut_defs::{CutKind, Share};
use cut_proof::{ChildCuts, Cut, CutFault, SharedCut};
use frac128::{Frac, Passed, Term, Unfinished};
use interval_form::split;
use scen_defs::NodeRow;
use std::alloc::Global;

/// No weight is below 0.
fn test_signs(weights: &[Frac]) -> Result<(), Unfinished>
    ensures { OnOk result (NoneNegative weights.now) }
{
    for weight in weights {
        at_most(Frac::zero(), *weight)?;
    }
    Ok(())
}

/// The place of a row with this number, or one behind all.
fn place_of_row(rows: &[NodeRow], number: u64) -> usize {
    let mut low = 0;
    let mut high = rows.len();
    'search: while low < high {
        let middle = low + (high - low) / 2;
        let found = rows[middle].row as u64;
        if found < number {
            low = middle + 1;
        } else {
            high = middle;
        }
    }
    low
}

/// The place of a row with this number, if there is one: the one that is guessed, or another.
fn row_place(rows: &[NodeRow], guess: usize, number: u64) -> Option<usize>
    ensures within { IfSome result (λ place. place < length rows.now) }
    ensures row { IfSome result (λ place. is_in number (map (λ (r : Row). r.row) rows.now) ≡ true) }
{
    if guess < rows.len() && rows[guess].row as u64 == number {
        return Some(guess);
    }
    let place = place_of_row(rows, number);
    if place < rows.len() && rows[place].row as u64 == number {
        Some(place)
    } else {
        None
    }
}

/// Each multiplier is of a row.
fn test_rows(rows: &[NodeRow], terms: &[Term]) -> Result<(), Unfinished>
    ensures { OnOk result (OfRows rows.now terms.now) }
{
    let mut guess = 0;
    for term in terms {
        match row_place(rows, guess, term.column) {
            Some(place) => {
                guess = place + 1;
            }
            None => {
                return Err(Unfinished::Walk);
            }
        }
    }
    Ok(())
}

/// The weight of a cut, if it is a Bound cut about the node, and a number.
fn with_weight(sum: Frac, node: u32, cut: &Cut, weight: Frac) -> Result<Frac, Passed>
    ensures { IfOk result (λ new. new ≡ value_if (is_bound (source_of cut.now).kind && eqb (source_of cut.now).node node) weight +ℚ sum) }
{
    match cut.kind() {
        CutKind::Bound => {
            if cut.node() == node {
                weight.add(sum)
            } else {
                Ok(sum)
            }
        }
        CutKind::Ray => Ok(sum),
    }
}

/// The weights of the Bound cuts about a node, added.
fn weight_sum(node: u32, cuts: &[SharedCut], weights: &[Frac]) -> Result<Frac, Passed>
    ensures { IfOk result (λ sum. sum ≡ stored_weight node cuts.now weights.now) }
{
    let mut sum = Frac::zero();
    let mut left = weights;
    for cut in cuts {
        sum = with_weight(sum, node, cut.cut(), first(left))?;
        let (_this, others) = split(left, 1);
        left = others;
    }
    Ok(sum)
}

/// Each cut is about the node.
fn test_about(node: u32, cuts: &[SharedCut]) -> Result<(), Unfinished>
    ensures { OnOk result (Each (IsCutAbout node) cuts.now) }
{
    for cut in cuts {
        if cut.cut().node() != node {
            return Err(Unfinished::Walk);
        }
    }
    Ok(())
}

/// Two numbers are the same.
pub(crate) fn equal(a: Frac, b: Frac) -> Result<(), Unfinished>
    ensures { OnOk result (a ≡ b) }
{
    if is_same(a, b) {
        Ok(())
    } else {
        Err(Unfinished::Walk)
    }
}

fn is_same(a: Frac, b: Frac) -> bool
    ensures { result ≡ same a b }
{
    a == b
}

/// The first weights, those of the Bound cuts about a child, add up to its share.
fn test_share(share: &Share, cuts: &[SharedCut], weights: &[Frac]) -> Result<(), Unfinished>
    ensures { OnOk result (HasShare share.now cuts.now weights.now) }
{
    test_about(share.child, cuts)?;
    let sum = weight_sum(share.child, cuts, weights)?;
    equal(sum, share.share)
}

/// Child by child they do.
fn test_shares(shares: &[Share], children: &[ChildCuts], weights: &[Frac]) -> Result<(), Unfinished>
    ensures { OnOk result (HaveShares shares.now children.now weights.now) }
{
    if shares.len() != children.len() {
        return Err(Unfinished::Walk);
    }
    let mut left = weights;
    for (place, child) in children.iter().enumerate() {
        test_share(&shares[place], &child.cuts, left)?;
        let (_these, others) = split(left, child.cuts.len());
        left = others;
    }
    Ok(())
}

/// The weight of a Bound cut is 0.
fn test_ray(cut: &Cut, weight: Frac) -> Result<(), Unfinished>
    ensures { OnOk result (is_bound (source_of cut.now).kind ≡ true → weight ≡ zero_ℚ) }
{
    match cut.kind() {
        CutKind::Bound => equal(weight, Frac::zero()),
        CutKind::Ray => Ok(()),
    }
}

/// That of each is.
fn test_alone(cuts: &[SharedCut], weights: &[Frac]) -> Result<(), Unfinished>
    ensures { OnOk result (StoredAlone cuts.now weights.now) }
{
    let mut left = weights;
    for cut in cuts {
        test_ray(cut.cut(), first(left))?;
        let (_this, others) = split(left, 1);
        left = others;
    }
    Ok(())
}

/// The weights fit a record of this kind.
fn test_kind(
    task: &Task,
    kind: CutKind,
    cuts: &[SharedCut],
    weights: &[Frac],
) -> Result<(), Unfinished>
    requires cuts { cuts.now ≡ stored_cuts (is_priced task.now.kind) task.now.children.items }
    requires priced { kind ≡ cut_kind.Bound → is_priced task.now.kind ≡ true }
    requires problem { IsProblem (problem_of task.now) }
    ensures { OnOk result (HasWeights (problem_of task.now) kind weights.now) }
{
    match kind {
        CutKind::Bound => test_shares(task.datum.shares(), &task.children, weights),
        CutKind::Ray => test_alone(cuts, weights),
    }
}

/// The multipliers and weights may be those of a good record, if the ends that it uses are finite.
fn test_record(
    task: &Task,
    kind: CutKind,
    cuts: &[SharedCut],
    multipliers: &Multipliers,
) -> Result<(), Unfinished>
    requires cuts { cuts.now ≡ stored_cuts (is_priced task.now.kind) task.now.children.items }
    requires priced { kind ≡ cut_kind.Bound → is_priced task.now.kind ≡ true }
    requires problem { IsProblem (problem_of task.now) }
    ensures { OnOk result (MayShow task.now kind multipliers.now) }
{
    if multipliers.weights.len() != cuts.len() {
        return Err(Unfinished::Walk);
    }
    multipliers.rows.keeps_order();
    test_signs(&multipliers.weights)?;
    test_rows(task.datum.rows(), multipliers.rows.terms())?;
    test_kind(task, kind, cuts, &multipliers.weights)
}

/// Why there is no cut: memory was wanting, or a test failed.
fn unfinished(fault: CutFault) -> Unfinished {
    match fault {
        CutFault::NotGood | CutFault::Passed(_) => Unfinished::Walk,
        CutFault::Memory => Unfinished::Memory,
    }
}

/// The cut of a kind that the multipliers and weights make, where their record is good.
pub(crate) fn shown_cut(
    alloc: Global,
    task: &Task,
    kind: CutKind,
    multipliers: Multipliers,
) -> Result<SharedCut, Unfinished>
    requires problem { IsProblem (problem_of task.now) }
    requires priced { kind ≡ cut_kind.Bound → is_priced task.now.kind ≡ true }
    ensures { IfOk result (ShowsCut task.now kind multipliers) }
{
    let cuts = taken_cuts(alloc, is_priced(task.kind), &task.children)?;
    test_record(task, kind, &cuts, &multipliers)?;
    match cut_with(alloc, task, kind, multipliers, &cuts) {
        Ok(cut) => Ok(cut),
        Err(fault) => Err(unfinished(fault)),
    }
}
