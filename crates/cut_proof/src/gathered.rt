// The sums of all columns of a cut, in one pass over its rows and used cuts.
ghost use Rattle.std.specs.Prelude.{◌≡◌, Ok, IfOk, IfSome, OnOk, []};
ghost use Rattle.scen_defs.specs.Lists.{NumbersRise};
ghost use Rattle.rationals.specs.Sparse.{Ascending};
ghost use Rattle.cut_proof.specs.View.{source_content, uses_content};
ghost use Rattle.cut_sums.specs.Walks.{uses_from, prices_walk, form_from, all_columns};
ghost use Rattle.cut_sums.specs.Tallies.{AreSums, AreZeros, MovesColumns, UsesAscend};

use crate::cut::{Record, Used};
use cut_sums::{
    NodeDatum, Priced, add_costs, add_form, keep_row_orders, near, outer_terms, push_outside,
    take_rows, zeros,
};
use frac128::{Form, Memory, Term, Unfinished};
use std::alloc::Global;

/// Adds the forms of used cuts by their weights.
fn add_used(tally: &mut [Term], used: &[Used]) -> Result<(), Unfinished>
    requires { Ascending 0 tally.old }
    ensures rises { OnOk result (Ascending 0 tally.new) }
    ensures moved { OnOk result (MovesColumns (λ j s. uses_from j s (uses_content used.now)) tally.old tally.new) }
{
    for one in used {
        add_form(tally, one.weight, one.cut.cut().form())?;
    }
    Ok(())
}

/// The sums of the columns of a tally of zeros.
fn fill(tally: &mut [Term], datum: &NodeDatum, source: &Record) -> Result<(), Unfinished>
    requires { AreZeros tally.old }
    ensures { OnOk result (AreSums datum.now (source_content source.now) (uses_content source.now.used.items) tally.new) }
{
    add_costs(tally, datum, source.kind)?;
    take_rows(tally, datum.rows(), &source.multipliers)?;
    add_used(tally, &source.used)
}

/// The columns that can have a sum other than 0, each at least once, mostly in rising order.
fn summed_columns(alloc: Global, datum: &NodeDatum, source: &Record) -> Result<Vec<u64>, Memory> {
    let bounds = datum.bounds();
    let mut all = Vec::new(alloc);
    for row in datum.rows() {
        push_outside(&mut all, bounds, &row.entries)?;
    }
    for one in &source.used {
        push_outside(&mut all, bounds, one.cut.cut().form())?;
    }
    all.sort_unstable();
    let earlier = all.len();
    for own in bounds {
        all.push(own.column as u64)?;
    }
    if earlier > 0 && earlier < all.len() && all[earlier - 1] > all[earlier] {
        all.sort_unstable();
    }
    Ok(all)
}

/// The sums of all columns, or why nothing is known of them.
fn try_sums(alloc: Global, datum: &NodeDatum, source: &Record) -> Result<Vec<Term>, Unfinished>
    ensures { IfOk result (λ tally. AreSums datum.now (source_content source.now) (uses_content source.now.used.items) tally.items) }
{
    let columns = summed_columns(alloc, datum, source)?;
    let mut tally = zeros(alloc, &columns)?;
    fill(tally.as_mut_slice(), datum, source)?;
    Ok(tally)
}

/// The sums of all columns in one pass; none where an operation passes.
pub(crate) fn all_sums(
    alloc: Global,
    datum: &NodeDatum,
    source: &Record,
) -> Result<Option<Vec<Term>>, Memory>
    ensures { IfOk result (λ sums. IfSome sums
        (λ tally. AreSums datum.now (source_content source.now) (uses_content source.now.used.items) tally.items)) }
{
    match try_sums(alloc, datum, source) {
        Ok(tally) => Ok(Some(tally)),
        Err(Unfinished::Walk) => Ok(None),
        Err(Unfinished::Memory) => Err(Memory),
    }
}

/// The reduced costs of the node's own columns from the sums of all columns.
pub(crate) fn priced_by(
    alloc: Global,
    datum: &NodeDatum,
    source: &Record,
    tally: &[Term],
) -> Result<Vec<Priced>, Memory>
    requires { AreSums datum.now (source_content source.now) (uses_content source.now.used.items) tally.now }
    ensures { IfOk result
        (λ v. prices_walk datum.now (source_content source.now) (uses_content source.now.used.items) ≡ Ok v.items) }
{
    let bounds = datum.bounds();
    let mut all = Vec::with_capacity(alloc, bounds.len())?;
    let mut guess = tally.len().saturating_sub(bounds.len());
    for own in bounds {
        let found = near(tally, guess, own.column as u64);
        guess = found.next;
        all.push(Priced {
            lower: own.lower,
            upper: own.upper,
            value: found.value,
        })?;
    }
    Ok(all)
}

/// Tells that the columns of each used cut's form rise.
fn keep_use_orders(used: &[Used])
    ensures { UsesAscend (uses_content used.now) }
{
    for one in used {
        one.cut.cut().form().keeps_order();
    }
}

/// The form from the sums of all columns.
pub(crate) fn form_by(
    alloc: Global,
    datum: &NodeDatum,
    source: &Record,
    tally: &[Term],
) -> Result<Form, Memory>
    requires { AreSums datum.now (source_content source.now) (uses_content source.now.used.items) tally.now }
    ensures rises { IfOk result (λ _. NumbersRise 0 (all_columns datum.now.rows (uses_content source.now.used.items))) }
    ensures form { IfOk result (λ form.
        form_from datum.now (source_content source.now) (uses_content source.now.used.items) []
        (all_columns datum.now.rows (uses_content source.now.used.items)) ≡ Ok form) }
{
    keep_row_orders(datum.rows());
    keep_use_orders(&source.used);
    let terms = outer_terms(alloc, datum.bounds(), tally)?;
    Ok(Form::from_terms(alloc, terms))
}
