// A tally: columns in rising order, each with the sum so far.
ghost use Rattle.std.specs.Prelude.{◌≡◌, ◌≤◌, Ok, IfOk, IfSome, IsTrue, OnOk, eqb, length};
ghost use Rattle.rationals.specs.Rational.{◌+ℚ◌, ◌*ℚ◌};
ghost use Rattle.rationals.specs.Sparse.{Ascending, coefficient};
ghost use Rattle.rationals.specs.Forms.{EndsBelow};
ghost use Rattle.rationals.specs.Passes.{add_product_walk, IsNarrow};
ghost use Rattle.rationals.specs.Choices.{pick};
ghost use Rattle.cut_sums.specs.Tallies.{AreZeros, MovesColumns, all_weighted_from, weighted_from};

use frac128::{Form, Frac, Memory, Passed, Term, Unfinished, value_in};
use std::alloc::Global;

/// What stands in a column, and where the one behind it may stand.
#[derive(Clone, Copy, Debug)]
pub struct Found {
    pub value: Frac,
    pub next: usize,
}

/// The value in a column of terms whose columns rise, 0 where there is none. It is found at once at the place that
/// is guessed, and else by halving.
pub fn near(terms: &[Term], guess: usize, column: u64) -> Found
    requires { Ascending 0 terms.now }
    ensures { result.value ≡ coefficient terms.now column }
{
    if guess < terms.len() {
        let term = terms[guess];
        if term.column == column {
            return Found {
                value: term.value,
                next: guess + 1,
            };
        }
    }
    Found {
        value: value_in(terms, column),
        next: guess,
    }
}

/// Where a column may stand: its place, if it is there and the columns from it on have no gap, or if halving finds it.
fn likely_place(tally: &[Term], column: u64) -> usize
    ensures { result ≤ length tally.now }
{
    let len = tally.len();
    if len == 0 {
        return 0;
    }
    let last = tally[len - 1];
    if column > last.column {
        return len;
    }
    let back = last.column - column;
    if back < len as u64 {
        let place = len - 1 - back as usize;
        let found = tally[place];
        if found.column == column {
            return place;
        }
    }
    let mut low = 0;
    let mut high = len;
    'search: while low < high {
        let middle = low + (high - low) / 2;
        let found = tally[middle];
        if found.column < column {
            low = middle + 1;
        } else {
            high = middle;
        }
    }
    low
}

/// A product of which a factor is 1 or -1.
fn unit_product(a: Frac, b: Frac) -> Option<Frac>
    ensures { IfSome result (λ product. product ≡ a *ℚ b) }
{
    if a.is_one() {
        Some(b)
    } else if b.is_one() {
        Some(a)
    } else if b.neg().is_one() {
        Some(a.neg())
    } else {
        None
    }
}

/// A number and a weight times a value.
fn plus(number: Frac, weight: Frac, value: Frac) -> Result<Frac, Passed>
    ensures sum { IfOk result (λ sum. sum ≡ number +ℚ weight *ℚ value) }
    ensures fits { IfOk result (λ sum. IsNarrow sum) }
{
    match unit_product(weight, value) {
        None => number.add_product(weight, value),
        Some(product) => {
            if number.is_zero() {
                Ok(product.over_one())
            } else {
                number.add(product)
            }
        }
    }
}

/// Adds a weight times a value in a column.
fn add_at(tally: &mut [Term], term: Term, weight: Frac) -> Result<(), Unfinished>
    requires { Ascending 0 tally.old }
    ensures rises { OnOk result (Ascending 0 tally.new) }
    ensures moved { OnOk result (MovesColumns (weighted_from weight term) tally.old tally.new) }
{
    let place = likely_place(tally, term.column);
    if place >= tally.len() {
        return Err(Unfinished::Walk);
    }
    let found = tally[place];
    if found.column != term.column {
        return Err(Unfinished::Walk);
    }
    let value = plus(found.value, weight, term.value)?;
    tally[place] = Term {
        column: found.column,
        value,
    };
    Ok(())
}

/// Adds a weight times each of some terms.
fn add_terms(tally: &mut [Term], weight: Frac, terms: &[Term]) -> Result<(), Unfinished>
    requires { Ascending 0 tally.old }
    ensures rises { OnOk result (Ascending 0 tally.new) }
    ensures moved { OnOk result (MovesColumns (λ j s. all_weighted_from weight j s terms.now) tally.old tally.new) }
{
    for term in terms {
        add_at(tally, *term, weight)?;
    }
    Ok(())
}

/// Adds a weight times a form.
pub fn add_form(tally: &mut [Term], weight: Frac, form: &Form) -> Result<(), Unfinished>
    requires { Ascending 0 tally.old }
    ensures rises { OnOk result (Ascending 0 tally.new) }
    ensures moved { OnOk result (MovesColumns (λ j s. add_product_walk s weight (coefficient form.now j)) tally.old tally.new) }
{
    form.keeps_order();
    add_terms(tally, weight, form.terms())
}

/// Whether a column is above the last one.
fn is_above(tally: &[Term], column: u64) -> bool
    requires { Ascending 0 tally.now }
    ensures { IsTrue result → EndsBelow column tally.now }
{
    let len = tally.len();
    if len == 0 {
        return true;
    }
    let last = tally[len - 1];
    last.column < column
}

/// Adds a column above all others, with 0; another is left out.
fn push_column(tally: &mut Vec<Term>, column: u64) -> Result<(), Memory>
    requires { AreZeros tally.old.items }
    ensures { OnOk result (AreZeros tally.new.items) }
{
    if is_above(tally.as_slice(), column) {
        tally.push(Term {
            column,
            value: Frac::zero(),
        })?;
    }
    Ok(())
}

/// A tally of columns that rise, each with 0. A column that comes too late is left out.
pub fn zeros(alloc: Global, columns: &[u64]) -> Result<Vec<Term>, Memory>
    ensures { IfOk result (λ tally. AreZeros tally.items) }
{
    let mut tally = Vec::with_capacity(alloc, columns.len())?;
    for column in columns {
        push_column(&mut tally, *column)?;
    }
    Ok(tally)
}
