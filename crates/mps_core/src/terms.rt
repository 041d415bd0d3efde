//! Values by the numbers of rows.
ghost use Rattle.std.specs.Prelude.{◌≡◌, ◌++◌, suc, true, [], None, IfOk, OnOk, reverse};
ghost use Rattle.rationals.specs.Forms.{find, put};
ghost use Rattle.rationals.specs.Sparse.{Ascending};
ghost use Rattle.core_defs.specs.Terms.{terms_of, with_term, nonzero_terms};
ghost use Rattle.mps_core.specs.Falling.{terms_in};

use crate::number::is_zero;
use frac128::{Form, Frac, Term};
use std::alloc::{AllocError, Global};
use std::collections::BTreeMap;
use std::marker::Model;
use std::mem;

/// Values of different rows, in the order of the rows' numbers; a value may be 0.
#[derive(Drop)]
pub(crate) struct Terms {
    /// Those of rows that came in falling order, where each that came was below all before.
    falling: Vec<Term>,
    /// All others; their rows are above those in falling order.
    values: BTreeMap<u64, Frac>,
}

impl Model for Terms {
    ghost use Rattle.std.specs.Prelude.{List};
    ghost use Rattle.rationals.specs.Sparse.{Entry, Ascending};
    ghost use Rattle.mps_core.specs.Falling.{terms_in};

    ghost Value = { List Entry };

    ghost view = { λ terms. terms_in terms.falling.items terms.values.entries };

    ghost invariant = { λ terms. Ascending 0 (terms_in terms.falling.items terms.values.entries) };
}

/// The value of a row among terms that are looked at from the last on.
fn value_among(terms: &[Term], row: u64) -> Option<Frac>
    ensures { result ≡ find (reverse terms.now) row }
{
    for term in terms.iter().rev() {
        if term.column == row {
            return Some(term.value);
        }
    }
    None
}

#[tactic(auto, using(crate::proofs::FallingLemmas::keep_lemmas))]
/// Puts terms in falling order, all below those of a map, into the map.
fn keep_all(values: &mut BTreeMap<u64, Frac>, falling: Vec<Term>) -> Result<(), AllocError>
    requires { Ascending 0 (terms_in falling.items values.old.entries) }
    ensures all { OnOk result (terms_of values.new.entries ≡ terms_in falling.items values.old.entries) }
    ensures rises { Ascending 0 (terms_of values.new.entries) }
{
    for term in falling {
        values.insert(term.column, term.value)?;
    }
    Ok(())
}

/// Appends a term, unless its value is 0.
fn put(terms: &mut Vec<Term>, term: Term) -> Result<(), AllocError>
    ensures { OnOk result (terms.new.items ≡ terms.old.items ++ put term.column term.value []) }
{
    if !is_zero(term.value) {
        terms.push(term)?;
    }
    Ok(())
}

/// The terms that aren't 0, in rising order.
fn rising(
    alloc: Global,
    falling: Vec<Term>,
    values: BTreeMap<u64, Frac>,
) -> Result<Vec<Term>, AllocError>
    ensures { IfOk result (λ terms. terms.items ≡ nonzero_terms (terms_in falling.items values.entries)) }
{
    let (mut falling, mut values) = (falling, values);
    let mut terms = Vec::new(alloc);
    while let Some(term) = falling.pop() {
        put(&mut terms, term)?;
    }
    while let Some((column, value)) = values.pop_first() {
        put(&mut terms, Term { column, value })?;
    }
    Ok(terms)
}

impl Terms {
    pub(crate) fn empty(alloc: Global) -> Terms
        ensures { result ≡ [] }
    {
        Terms {
            falling: Vec::new(alloc),
            values: BTreeMap::new(alloc),
        }
    }

    /// The value of a row.
    #[tactic(auto, using(crate::proofs::FallingLemmas::value_lemmas))]
    pub(crate) fn value(&self, row: u64) -> Option<Frac>
        ensures { result ≡ find self.now row }
    {
        if self.is_below(row) {
            return None;
        }
        match value_among(&self.falling, row) {
            Some(value) => Some(value),
            None => self.values.get(&row).copied(),
        }
    }

    /// Whether the row is below all that have a value, and these came in falling order.
    fn is_below(&self, row: u64) -> bool
        ensures { result ≡ true → Ascending (suc row) self.now }
    {
        match self.falling.last() {
            Some(last) => row < last.column,
            None => self.values.is_empty(),
        }
    }

    /// Gives a row its value.
    #[tactic(auto, using(crate::proofs::FallingLemmas::add_lemmas))]
    pub(crate) fn add(&mut self, alloc: Global, row: u64, value: Frac) -> Result<(), AllocError>
        requires { find self.old row ≡ None }
        ensures { OnOk result (self.new ≡ with_term row value self.old) }
    {
        if self.is_below(row) {
            self.falling.push(Term { column: row, value })?;
            return Ok(());
        }
        let falling = mem::replace(&mut self.falling, Vec::new(alloc));
        keep_all(&mut self.values, falling)?;
        self.values.insert(row, value)?;
        Ok(())
    }

    /// No row has a value any more.
    pub(crate) fn clear(&mut self)
        ensures { self.new ≡ [] }
    {
        self.falling.clear();
        self.values.clear();
    }

    /// The values that aren't 0 as a form; afterwards there are none.
    #[tactic(auto, using(core_defs::proofs::TermLemmas::nonzero_form))]
    pub(crate) fn take_form(&mut self, alloc: Global) -> Result<Form, AllocError>
        ensures form { IfOk result (λ form. form ≡ nonzero_terms self.old) }
        ensures none { OnOk result (self.new ≡ []) }
    {
        let falling = mem::replace(&mut self.falling, Vec::new(alloc));
        let values = mem::replace(&mut self.values, BTreeMap::new(alloc));
        Ok(Form::from_terms(alloc, rising(alloc, falling, values)?))
    }
}
