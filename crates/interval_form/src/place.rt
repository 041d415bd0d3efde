//! The places of own columns.
ghost use Rattle.std.specs.Prelude.{◌≡◌, ◌++◌, IfOk, OnOk, length};
ghost use Rattle.rationals.specs.declared.Op.TheVariants.{Add, Sub};
ghost use Rattle.rationals.specs.Passes.{step_walk};
ghost use Rattle.rationals.specs.Sparse.{coefficient};
ghost use Rattle.rationals.specs.Choices.{pick};
ghost use Rattle.interval_form.specs.Own.{place_of, own_entry, other_entry, own_form, other_form};
ghost use Rattle.cut_defs.specs.Data.{BoundsRise};
ghost use Rattle.interval_form.specs.Parts.{spread_form};
ghost use Rattle.interval_form.specs.Spans.{shift_at};
ghost use Rattle.interval_form.specs.Rows.{terms_walk, right_walk};

use crate::part::{Part, part_at, push_spread, shift};
use cut_defs::ColumnBounds;
use frac128::{Form, Frac, Memory, Passed, Term};
use std::alloc::Global;

/// The place of a column among own columns, found by bisection.
pub fn place_of(bounds: &[ColumnBounds], column: u64) -> Option<u64>
    requires { BoundsRise 0 bounds.now }
    ensures { result ≡ place_of bounds.now column }
{
    let mut first = 0;
    let mut end = bounds.len();
    'bisection: while first < end {
        let middle = first + (end - first) / 2;
        let bound = bounds[middle];
        if (bound.column as u64) < column {
            first = middle + 1;
        } else {
            end = middle;
        }
    }
    if first < bounds.len() {
        let bound = bounds[first];
        if bound.column as u64 == column {
            return Some(first as u64);
        }
    }
    None
}

/// A product added to a number, or taken from it, as a step.
fn with_product(is_sum: bool, start: Frac, a: Frac, b: Frac) -> Result<Frac, Passed>
    ensures { result ≡ step_walk (pick is_sum Add Sub) start a b }
{
    if is_sum {
        start.add_product(a, b)
    } else {
        start.less_product(a, b)
    }
}

/// A term of a column that isn't an own one, times the column's value in the trial.
fn other_term(
    is_sum: bool,
    bounds: &[ColumnBounds],
    trial: &Form,
    sum: Frac,
    term: Term,
) -> Result<Frac, Passed>
    requires { BoundsRise 0 bounds.now }
    ensures { result ≡ terms_walk (pick is_sum Add Sub) (coefficient trial.now) sum (other_entry (place_of bounds.now term.column) term) }
{
    match place_of(bounds, term.column) {
        None => with_product(is_sum, sum, term.value, trial.get(term.column)),
        Some(_) => Ok(sum),
    }
}

/// The terms of the columns that aren't own ones.
fn other_terms(
    is_sum: bool,
    bounds: &[ColumnBounds],
    trial: &Form,
    start: Frac,
    form: &[Term],
) -> Result<Frac, Passed>
    requires { BoundsRise 0 bounds.now }
    ensures { result ≡ terms_walk (pick is_sum Add Sub) (coefficient trial.now) start (other_form bounds.now form.now) }
{
    let mut sum = start;
    for term in form {
        sum = other_term(is_sum, bounds, trial, sum, *term)?;
    }
    Ok(sum)
}

/// A term of an own column, times the column's shift.
fn own_term(
    is_sum: bool,
    bounds: &[ColumnBounds],
    parts: &[Part],
    sum: Frac,
    term: Term,
) -> Result<Frac, Passed>
    requires { BoundsRise 0 bounds.now }
    ensures { result ≡ terms_walk (pick is_sum Add Sub)
        (shift_at parts.now) sum (own_entry (place_of bounds.now term.column) term.value) }
{
    match place_of(bounds, term.column) {
        None => Ok(sum),
        Some(place) => with_product(is_sum, sum, term.value, shift(part_at(parts, place))),
    }
}

/// The terms of the own columns.
fn own_terms(
    is_sum: bool,
    bounds: &[ColumnBounds],
    parts: &[Part],
    start: Frac,
    form: &[Term],
) -> Result<Frac, Passed>
    requires { BoundsRise 0 bounds.now }
    ensures { result ≡ terms_walk (pick is_sum Add Sub) (shift_at parts.now) start (own_form bounds.now form.now) }
{
    let mut sum = start;
    for term in form {
        sum = own_term(is_sum, bounds, parts, sum, *term)?;
    }
    Ok(sum)
}

/// A number, then the terms of the columns that aren't own ones, then those of the shifts: each added or
/// subtracted.
pub fn right_side(
    is_sum: bool,
    bounds: &[ColumnBounds],
    parts: &[Part],
    trial: &Form,
    start: Frac,
    form: &[Term],
) -> Result<Frac, Passed>
    requires { BoundsRise 0 bounds.now }
    ensures { result ≡ right_walk (pick is_sum Add Sub) bounds.now parts.now trial.now start form.now }
{
    let met = other_terms(is_sum, bounds, trial, start, form)?;
    own_terms(is_sum, bounds, parts, met, form)
}

/// The entries of the own columns, as entries of the new columns.
pub fn spread_own(
    alloc: Global,
    bounds: &[ColumnBounds],
    parts: &[Part],
    form: &[Term],
) -> Result<Vec<Term>, Memory>
    requires { BoundsRise 0 bounds.now }
    ensures { IfOk result (λ terms. terms.items ≡ spread_form parts.now (own_form bounds.now form.now)) }
{
    let mut terms = Vec::new(alloc);
    for term in form {
        push_own(&mut terms, bounds, parts, *term)?;
    }
    Ok(terms)
}

/// Adds the entries of a term of an own column.
pub fn push_own(
    terms: &mut Vec<Term>,
    bounds: &[ColumnBounds],
    parts: &[Part],
    term: Term,
) -> Result<(), Memory>
    requires { BoundsRise 0 bounds.now }
    ensures { OnOk result
        (terms.new.items ≡ terms.old.items ++ spread_form parts.now (own_entry (place_of bounds.now term.column) term.value)) }
{
    match place_of(bounds, term.column) {
        None => Ok(()),
        Some(place) => push_spread(terms, part_at(parts, place), term.value),
    }
}
