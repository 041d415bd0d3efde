//! Whether the parts of a task fit together.
ghost use Rattle.std.specs.Prelude.{◌≡◌, ◌↔◌, IsTrue};
ghost use Rattle.scen_defs.specs.Lists.{Each};
ghost use Rattle.cut_defs.specs.Data.{BoundsRise};
ghost use Rattle.cut_defs.specs.Stored.{source_of};
ghost use Rattle.interval_form.specs.Own.{place_of};
ghost use Rattle.interval_form.specs.Rows.{HasForm};
ghost use Rattle.node_lp.specs.Problem.{IsProblem, child_at, problem_of, is_priced};
ghost use Rattle.node_lp.specs.Fits.{HasCutForm, HaveCutForms, HasForms, is_place, are_others};
ghost use Rattle.node_lp.specs.Fits.{is_child_here, cut_fits, cuts_fit, children_fit, parts_fit};

use crate::program::is_taken;
use crate::solve::is_priced;
use crate::task::Task;
use cut_defs::{ColumnBounds, Share};
use cut_proof::{ChildCuts, Cut, SharedCut};
use frac128::{Form, Term};
use interval_form::place_of;
use scen_defs::NodeRow;

const FEW: usize = 1 << 32;

/// Tells that the columns of each row rise.
fn keep_row_orders(rows: &[NodeRow])
    ensures { Each HasForm rows.now }
{
    for row in rows {
        row.entries.keeps_order();
    }
}

/// Tells that the columns of each cut's form rise.
fn keep_cut_orders(cuts: &[SharedCut])
    ensures { Each HasCutForm cuts.now }
{
    for cut in cuts {
        cut.cut().form().keeps_order();
    }
}

/// Tells so of the cuts about each child.
fn keep_child_orders(children: &[ChildCuts])
    ensures { Each HaveCutForms children.now }
{
    for child in children {
        keep_cut_orders(&child.cuts);
    }
}

fn is_own(bounds: &[ColumnBounds], column: u64) -> bool
    requires { BoundsRise 0 bounds.now }
    ensures { result ≡ is_place (place_of bounds.now column) }
{
    match place_of(bounds, column) {
        None => false,
        Some(_) => true,
    }
}

fn are_others(bounds: &[ColumnBounds], terms: &[Term]) -> bool
    requires { BoundsRise 0 bounds.now }
    ensures { result ≡ are_others bounds.now terms.now }
{
    for term in terms {
        if is_own(bounds, term.column) {
            return false;
        }
    }
    true
}

fn is_child(shares: &[Share], place: usize, child: u32) -> bool
    ensures { result ≡ is_child_here (child_at shares.now place) child }
{
    if place < shares.len() {
        let share = &shares[place];
        share.child == child
    } else {
        false
    }
}

fn cut_fits(priced: bool, shares: &[Share], place: usize, cut: &Cut) -> bool
    ensures { result ≡ cut_fits priced shares.now place cut.now }
{
    if is_taken(priced, cut.kind()) {
        is_child(shares, place, cut.node())
    } else {
        true
    }
}

fn cuts_fit(priced: bool, shares: &[Share], place: usize, cuts: &[SharedCut]) -> bool
    ensures { result ≡ cuts_fit priced shares.now place cuts.now }
{
    for cut in cuts {
        if !cut_fits(priced, shares, place, cut.cut()) {
            return false;
        }
    }
    true
}

fn children_fit(priced: bool, shares: &[Share], children: &[ChildCuts]) -> bool
    ensures { result ≡ children_fit priced shares.now 0 children.now }
{
    for (place, child) in children.iter().enumerate() {
        if !cuts_fit(priced, shares, place, &child.cuts) {
            return false;
        }
    }
    true
}

fn parts_fit(
    priced: bool,
    bounds: &[ColumnBounds],
    shares: &[Share],
    children: &[ChildCuts],
    trial: &Form,
) -> bool
    requires { BoundsRise 0 bounds.now }
    ensures { result ≡ parts_fit priced bounds.now shares.now children.now trial.now }
{
    bounds.len() < FEW
        && (shares.len() < FEW
            && (children_fit(priced, shares, children) && are_others(bounds, trial.terms())))
}

/// Whether the parts of a task fit together: there are less than 2^32 own columns and children; each cut that the
/// program takes is about the child at its place; the trial is of columns that aren't own ones.
pub fn fits(task: &Task) -> bool
    ensures exact { IsTrue result ↔ IsProblem (problem_of task.now) }
    ensures forms { HasForms task.now }
{
    let datum = &task.datum;
    keep_row_orders(datum.rows());
    keep_child_orders(&task.children);
    parts_fit(
        is_priced(task.kind),
        datum.bounds(),
        datum.shares(),
        &task.children,
        &task.trial,
    )
}
