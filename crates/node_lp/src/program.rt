//! The rows of a node's program, operation by operation.
ghost use Rattle.std.specs.Prelude.{◌≡◌, ◌++◌, ◌<◌, ◌≤◌, ◌+◌, ◌^◌, true, length, [], ◌∷◌, IfOk, OnOk};
ghost use Rattle.std.specs.Prelude.{MatchResult, Ok};
ghost use Rattle.rationals.specs.Forms.{IsForm};
ghost use Rattle.rationals.specs.Choices.{pick};
ghost use Rattle.frac128.specs.Faults.{FaultOf, IfNotMemory};
ghost use Rattle.scen_defs.specs.Lists.{Each};
ghost use Rattle.interval_form.specs.Own.{own_form};
ghost use Rattle.cut_defs.specs.Data.{BoundsRise};
ghost use Rattle.interval_form.specs.Parts.{AreParts, spread_form};
ghost use Rattle.node_lp.specs.Problem.{held, IsCut, is_taken, taken_of};
ghost use Rattle.cut_defs.specs.Stored.{form_of, source_of};
ghost use Rattle.node_lp.specs.Plain.{frees, share_form, less_form, child_entry};
ghost use Rattle.cut_defs.specs.Cuts.{is_bound};
ghost use Rattle.node_lp.specs.Walk.{cut_walk, cuts_from, child_cuts_from, AreCuts};

use cut_defs::{ColumnBounds, CutKind, Share};
use cut_proof::{ChildCuts, Cut, SharedCut};
use frac128::{ArithmeticFault, Form, Frac, Memory, Term};
use interval_form::{Part, part_at, push_own, push_spread, right_side, spread_own};
use slack_form::Limit;
use smps_words::RowKind;
use std::alloc::Global;

/// The own columns and, where the children are priced, their costs, which have no bounds.
pub(crate) fn all_bounds(
    alloc: Global,
    bounds: &[ColumnBounds],
    shares: &[Share],
    priced: bool,
) -> Result<Vec<ColumnBounds>, Memory>
    ensures { IfOk result (λ all. all.items ≡ bounds.now ++ pick priced (frees shares.now) []) }
{
    let mut all = Vec::new(alloc);
    all.extend_from_slice(bounds)?;
    if priced {
        push_frees(&mut all, shares)?;
    }
    Ok(all)
}

/// Adds the children's costs.
fn push_frees(all: &mut Vec<ColumnBounds>, shares: &[Share]) -> Result<(), Memory>
    ensures { OnOk result (all.new.items ≡ all.old.items ++ frees shares.now) }
{
    for share in shares {
        all.push(ColumnBounds {
            column: share.child,
            lower: None,
            upper: None,
        })?;
    }
    Ok(())
}

/// The entries of the own columns with the other signs, as entries of the new columns.
fn spread_less(
    alloc: Global,
    bounds: &[ColumnBounds],
    parts: &[Part],
    form: &[Term],
) -> Result<Vec<Term>, Memory>
    requires { BoundsRise 0 bounds.now }
    ensures { IfOk result (λ terms. terms.items ≡ spread_form parts.now (less_form (own_form bounds.now form.now))) }
{
    let mut terms = Vec::new(alloc);
    for term in form {
        push_less(&mut terms, bounds, parts, *term)?;
    }
    Ok(terms)
}

/// Adds the entries of a term of an own column with the other signs.
fn push_less(
    terms: &mut Vec<Term>,
    bounds: &[ColumnBounds],
    parts: &[Part],
    term: Term,
) -> Result<(), Memory>
    requires { BoundsRise 0 bounds.now }
    ensures { OnOk result (terms.new.items ≡ terms.old.items ++ spread_form parts.now (less_form (own_form bounds.now (term ∷ [])))) }
{
    let value = term.value.neg();
    push_own(
        terms,
        bounds,
        parts,
        Term {
            column: term.column,
            value,
        },
    )
}

/// Adds the entries of a child's cost, in a cut that bounds it.
fn push_child(
    terms: &mut Vec<Term>,
    parts: &[Part],
    kind: CutKind,
    place: u64,
) -> Result<(), Memory>
    ensures { OnOk result (terms.new.items ≡ terms.old.items ++ spread_form parts.now (child_entry kind place)) }
{
    match kind {
        CutKind::Bound => push_spread(terms, part_at(parts, place), Frac::one()),
        CutKind::Ray => Ok(()),
    }
}

/// The limit of a cut about the child at this place.
fn cut_limit(
    alloc: Global,
    bounds: &[ColumnBounds],
    parts: &[Part],
    trial: &Form,
    child: usize,
    cut: &Cut,
) -> Result<Limit, ArithmeticFault>
    requires parts { AreParts 0 parts.now }
    requires one_each { length bounds.now ≤ length parts.now }
    requires rises { BoundsRise 0 bounds.now }
    requires form { IsForm (form_of cut.now) }
    requires few { length bounds.now + child < 2 ^ 62 }
    requires place { is_bound (source_of cut.now).kind ≡ true → length bounds.now + child < length parts.now }
    ensures { IfNotMemory result (cut_walk bounds.now parts.now trial.now (record { child = child; cut = held cut.now })) }
{
    let form = cut.form().terms();
    let right = right_side(true, bounds, parts, trial, cut.constant(), form)?;
    let mut terms = spread_less(alloc, bounds, parts, form)?;
    push_child(&mut terms, parts, cut.kind(), (bounds.len() + child) as u64)?;
    let entries = Form::from_terms(alloc, terms);
    Ok(Limit {
        entries,
        kind: RowKind::Greater,
        right,
    })
}

/// Whether a cut is a row of the program: where the children aren't priced, those that bound a cost aren't.
pub(crate) fn is_taken(priced: bool, kind: CutKind) -> bool
    ensures { result ≡ is_taken priced kind }
{
    match kind {
        CutKind::Bound => priced,
        CutKind::Ray => true,
    }
}

/// Adds the limits of the cuts about the child at this place.
fn push_cuts(
    alloc: Global,
    bounds: &[ColumnBounds],
    parts: &[Part],
    trial: &Form,
    priced: bool,
    child: usize,
    shares: &[Share],
    cuts: &[SharedCut],
    limits: &mut Vec<Limit>,
) -> Result<(), ArithmeticFault>
    requires parts { AreParts 0 parts.now }
    requires count { length parts.now ≡ length bounds.now + length (pick priced (frees shares.now) []) }
    requires few_bounds { length bounds.now < 2 ^ 32 }
    requires few { child < 2 ^ 61 }
    requires rises { BoundsRise 0 bounds.now }
    requires cuts { Each (IsCut priced shares.now) (taken_of priced child cuts.now) }
    ensures { MatchResult result
        (λ _. cuts_from bounds.now parts.now trial.now limits.old.items (taken_of priced child cuts.now) ≡ Ok limits.new.items)
        (FaultOf (cuts_from bounds.now parts.now trial.now limits.old.items (taken_of priced child cuts.now))) }
{
    for cut in cuts {
        let cut = cut.cut();
        if is_taken(priced, cut.kind()) {
            limits.push(cut_limit(alloc, bounds, parts, trial, child, cut)?)?;
        }
    }
    Ok(())
}

/// Adds the limits of the cuts, child by child.
pub(crate) fn push_children(
    alloc: Global,
    bounds: &[ColumnBounds],
    parts: &[Part],
    trial: &Form,
    priced: bool,
    shares: &[Share],
    children: &[ChildCuts],
    limits: &mut Vec<Limit>,
) -> Result<(), ArithmeticFault>
    requires parts { AreParts 0 parts.now }
    requires count { length parts.now ≡ length bounds.now + length (pick priced (frees shares.now) []) }
    requires few_bounds { length bounds.now < 2 ^ 32 }
    requires rises { BoundsRise 0 bounds.now }
    requires cuts { AreCuts priced shares.now 0 children.now }
    ensures { MatchResult result
        (λ _. child_cuts_from bounds.now parts.now trial.now priced limits.old.items 0 children.now ≡ Ok limits.new.items)
        (FaultOf (child_cuts_from bounds.now parts.now trial.now priced limits.old.items 0 children.now)) }
{
    for (child, cuts) in children.iter().enumerate() {
        push_cuts(
            alloc, bounds, parts, trial, priced, child, shares, &cuts.cuts, limits,
        )?;
    }
    Ok(())
}

/// Adds the shares of the children, as costs of their new columns; the first child's place is `first`.
fn push_shares(
    terms: &mut Vec<Term>,
    parts: &[Part],
    first: u64,
    shares: &[Share],
) -> Result<(), Memory>
    requires { first + length shares.now < 2 ^ 63 }
    ensures { OnOk result (terms.new.items ≡ terms.old.items ++ spread_form parts.now (share_form first shares.now)) }
{
    let mut place = first;
    for share in shares {
        push_spread(terms, part_at(parts, place), share.share)?;
        place += 1;
    }
    Ok(())
}

/// Adds the shares of the children where these are priced.
fn push_priced(
    terms: &mut Vec<Term>,
    parts: &[Part],
    priced: bool,
    first: u64,
    shares: &[Share],
) -> Result<(), Memory>
    requires { first + length shares.now < 2 ^ 63 }
    ensures { OnOk result (terms.new.items ≡ terms.old.items ++ spread_form parts.now (pick priced (share_form first shares.now) [])) }
{
    if priced {
        push_shares(terms, parts, first, shares)
    } else {
        Ok(())
    }
}

/// The costs of the new columns.
pub(crate) fn cost_terms(
    alloc: Global,
    bounds: &[ColumnBounds],
    parts: &[Part],
    priced: bool,
    cost: &Form,
    shares: &[Share],
) -> Result<Vec<Term>, Memory>
    requires rises { BoundsRise 0 bounds.now }
    requires few { length bounds.now < 2 ^ 32 }
    requires few_shares { length shares.now < 2 ^ 32 }
    ensures { IfOk result (λ terms. terms.items
        ≡ spread_form parts.now (own_form bounds.now cost.now ++ pick priced (share_form (length bounds.now) shares.now) [])) }
{
    let mut terms = spread_own(alloc, bounds, parts, cost.terms())?;
    push_priced(&mut terms, parts, priced, bounds.len() as u64, shares)?;
    Ok(terms)
}
