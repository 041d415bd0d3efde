// The sums of all columns over a node's costs and rows, in one pass.
ghost use Rattle.std.specs.Prelude.{◌≡◌, IfOk, OnOk, ◌++◌, ◌∷◌, []};
ghost use Rattle.rationals.specs.Sparse.{Ascending, coefficient};
ghost use Rattle.rationals.specs.Passes.{less_product_walk};
ghost use Rattle.scen_defs.specs.Walks.{less_from};
ghost use Rattle.cut_defs.specs.Data.{BoundsRise};
ghost use Rattle.cut_sums.specs.Tallies.{AreCosts, AreZeros, MovesColumns, RowsAscend, outside};

use crate::datum::NodeDatum;
use crate::own::is_own_near;
use crate::tally::{add_form, near};
use cut_defs::{ColumnBounds, CutKind};
use frac128::{Form, Frac, Memory, Term, Unfinished};
use scen_defs::NodeRow;
use std::alloc::Global;

/// Puts the costs into a tally of zeros.
pub fn add_costs(tally: &mut [Term], datum: &NodeDatum, kind: CutKind) -> Result<(), Unfinished>
    requires { AreZeros tally.old }
    ensures rises { OnOk result (Ascending 0 tally.new) }
    ensures costs { OnOk result (AreCosts datum.now kind tally.new) }
{
    match kind {
        CutKind::Bound => add_form(tally, Frac::one(), datum.cost()),
        CutKind::Ray => Ok(()),
    }
}

/// Takes a row times its multiplier away.
fn less_row(tally: &mut [Term], row: &NodeRow, multiplier: Frac) -> Result<(), Unfinished>
    requires { Ascending 0 tally.old }
    ensures rises { OnOk result (Ascending 0 tally.new) }
    ensures moved { OnOk result
        (MovesColumns (λ j s. less_product_walk s (coefficient row.now.entries j) multiplier) tally.old tally.new) }
{
    if multiplier.is_zero() {
        return Ok(());
    }
    add_form(tally, multiplier.neg(), &row.entries)
}

/// Takes all rows away.
pub fn take_rows(tally: &mut [Term], rows: &[NodeRow], multipliers: &Form) -> Result<(), Unfinished>
    requires { Ascending 0 tally.old }
    ensures rises { OnOk result (Ascending 0 tally.new) }
    ensures moved { OnOk result (MovesColumns (λ j s. less_from j (coefficient multipliers.now) s rows.now) tally.old tally.new) }
{
    multipliers.keeps_order();
    let terms = multipliers.terms();
    let mut guess = 0;
    for row in rows {
        let found = near(terms, guess, row.row as u64);
        guess = found.next;
        less_row(tally, row, found.value)?;
    }
    Ok(())
}

/// Adds the columns of a form that aren't the node's own.
pub fn push_outside(
    columns: &mut Vec<u64>,
    bounds: &[ColumnBounds],
    form: &Form,
) -> Result<(), Memory>
    requires { BoundsRise 0 bounds.now }
{
    for term in form.terms() {
        if !is_own_near(bounds, term.column) {
            columns.push(term.column)?;
        }
    }
    Ok(())
}

/// Adds a term to the form, unless its value is 0 or its column is one of the node's own.
fn push_outer(all: &mut Vec<Term>, bounds: &[ColumnBounds], term: Term) -> Result<(), Memory>
    requires { BoundsRise 0 bounds.now }
    ensures { OnOk result (all.new.items ≡ all.old.items ++ outside bounds.now (term ∷ [])) }
{
    if !term.value.is_zero() && !is_own_near(bounds, term.column) {
        all.push(term)?;
    }
    Ok(())
}

/// The terms that aren't 0 and stand in none of the node's own columns.
pub fn outer_terms(
    alloc: Global,
    bounds: &[ColumnBounds],
    tally: &[Term],
) -> Result<Vec<Term>, Memory>
    requires { BoundsRise 0 bounds.now }
    ensures { IfOk result (λ v. v.items ≡ outside bounds.now tally.now) }
{
    let mut all = Vec::new(alloc);
    for term in tally {
        push_outer(&mut all, bounds, *term)?;
    }
    Ok(all)
}

/// Tells that the columns of each row rise.
pub fn keep_row_orders(rows: &[NodeRow])
    ensures { RowsAscend rows.now }
{
    for row in rows {
        row.entries.keeps_order();
    }
}
