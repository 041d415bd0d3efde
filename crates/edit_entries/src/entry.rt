// A form with one of its entries set.
ghost use Rattle.std.specs.Prelude.{◌≡◌, ◌++◌, ◌≤◌, [], ℕ, IfOk, OnOk, length, take, drop};
ghost use Rattle.rationals.specs.Rational.{ℚ};
ghost use Rattle.rationals.specs.Forms.{put};
ghost use Rattle.edit_defs.specs.After.{set_entry};
ghost use Rattle.edit_entries.specs.InPlace.{Starts, behind};

use frac128::{Form, Frac, Memory, Term};
use std::alloc::Global;

/// How many terms stand before a column.
fn before(terms: &[Term], column: u64) -> usize
    ensures split { (v : ℚ) → set_entry column v terms.now ≡ take result terms.now ++ set_entry column v (drop result terms.now) }
    ensures rest { Starts column (drop result terms.now) }
    ensures within { result ≤ length terms.now }
{
    for (place, term) in terms.iter().enumerate() {
        if column <= term.column {
            return place;
        }
    }
    terms.len()
}

/// The terms without the first one, where that stands in the column.
fn rest(terms: &[Term], column: u64) -> &[Term]
    ensures { result.now ≡ behind column terms.now }
{
    if terms.is_empty() {
        return terms;
    }
    let first = terms[0];
    if column == first.column {
        &terms[1..]
    } else {
        terms
    }
}

/// Adds a value behind all others; 0 is no entry.
fn put_last(all: &mut Vec<Term>, column: u64, value: Frac) -> Result<(), Memory>
    ensures { OnOk result (all.new.items ≡ all.old.items ++ put column value []) }
{
    if !value.is_zero() {
        all.push(Term { column, value })?;
    }
    Ok(())
}

/// How many terms a value is; 0 is no entry.
fn value_length(value: Frac) -> usize
    ensures length { (column : ℕ) → result ≡ length (put column value []) }
    ensures small { result ≤ 1 }
{
    if value.is_zero() { 0 } else { 1 }
}

/// The terms with the value in the column.
fn terms_with(alloc: Global, terms: &[Term], column: u64, value: Frac) -> Result<Vec<Term>, Memory>
    ensures { IfOk result (λ all. all.items ≡ set_entry column value terms.now) }
{
    let place = before(terms, column);
    let front = &terms[..place];
    let behind = rest(&terms[place..], column);
    let mut all = Vec::with_capacity(alloc, front.len() + behind.len() + 1)?;
    all.extend_from_slice(front)?;
    put_last(&mut all, column, value)?;
    all.extend_from_slice(behind)?;
    Ok(all)
}

/// The form with the value in the column.
pub fn with_entry(alloc: Global, form: &Form, column: u64, value: Frac) -> Result<Form, Memory>
    ensures { IfOk result (λ new. new ≡ set_entry column value form.now) }
{
    form.keeps_order();
    let terms = terms_with(alloc, form.terms(), column, value)?;
    Ok(Form::from_terms(alloc, terms))
}

/// How many terms the form with the value in the column has.
pub fn length_with(form: &Form, column: u64, value: Frac) -> usize
    ensures { result ≡ length (set_entry column value form.now) }
{
    let terms = form.terms();
    let place = before(terms, column);
    let front = &terms[..place];
    let behind = rest(&terms[place..], column);
    front.len() + value_length(value) + behind.len()
}
