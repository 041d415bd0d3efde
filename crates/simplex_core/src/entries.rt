//! The entries of rows.
ghost use Rattle.std.specs.Prelude.{◌≡◌, ◌≢◌, ◌+◌, ◌<◌, ◌≤◌, [], OnOk, OnErr};
ghost use Rattle.std.specs.Vec.{vec_len, vec_capacity};
ghost use Rattle.rationals.specs.Passes.{div_walk};
ghost use Rattle.rationals.specs.Rational.{zero_ℚ};
ghost use Rattle.rationals.specs.Sparse.{Ascending};
ghost use Rattle.lp_defs.specs.Lines.{value_at, keep, less_entries, cleared_form, divided_entries};
ghost use Rattle.simplex_core.specs.Gives.{Gives};

use crate::sign::is_zero;
use frac128::{ArithmeticFault, Frac, Memory, Passed, Term, value_in};
use std::marker::Model;

/// Entries whose columns rise.
#[derive(Drop)]
pub struct Entries {
    terms: Vec<Term>,
}

impl Model for Entries {
    ghost use Rattle.std.specs.Prelude.{List};
    ghost use Rattle.rationals.specs.Sparse.{Entry, Ascending};

    ghost Value = { List Entry };

    ghost view = { λ e. e.terms.items };

    ghost invariant = { λ e. Ascending 0 e.terms.items };
}

/// The entry of a column.
#[inline(always)]
pub fn find(terms: &[Term], column: u64) -> Frac
    requires { Ascending 0 terms.now }
    ensures { result ≡ value_at terms.now column }
{
    value_in(terms, column)
}

/// The quotient. Most pivots are 1, and a number divided by 1 is the number itself.
#[inline(always)]
pub fn over(value: Frac, by: Frac) -> Result<Frac, Passed>
    requires { by ≢ zero_ℚ }
    ensures { result ≡ div_walk value by }
{
    if by.is_one() {
        return Ok(value.over_one());
    }
    value.div(by)
}

#[inline(always)]
fn push(done: &mut Vec<Term>, column: u64, value: Frac)
    requires { vec_len done.old < vec_capacity done.old }
    ensures items { done.new.items ≡ keep done.old.items column value }
    ensures len { vec_len done.new ≤ vec_len done.old + 1 }
    ensures capacity { vec_capacity done.new ≡ vec_capacity done.old }
{
    if !is_zero(value) {
        done.push_reserved(Term { column, value });
    }
}

/// Appends the entries of `row` less `factor` times those of `pivot`.
fn subtract_terms(
    factor: Frac,
    row: &[Term],
    pivot: &[Term],
    done: &mut Vec<Term>,
) -> Result<(), ArithmeticFault>
    ensures { Gives (less_entries factor row.now pivot.now done.old.items) result done.new.items }
{
    done.reserve(row.len() + pivot.len())?;
    let zero = Frac::zero();
    let mut i = 0;
    let mut j = 0;
    'both: while i < row.len() && j < pivot.len() {
        let x = row[i];
        let y = pivot[j];
        if x.column < y.column {
            done.push_reserved(x);
            i += 1;
        } else if y.column < x.column {
            let value = zero.less_product(factor, y.value)?;
            push(done, y.column, value);
            j += 1;
        } else {
            let value = x.value.less_product(factor, y.value)?;
            push(done, x.column, value);
            i += 1;
            j += 1;
        }
    }
    done.extend_from_slice(&row[i..])?;
    'right: while j < pivot.len() {
        let y = pivot[j];
        let value = zero.less_product(factor, y.value)?;
        push(done, y.column, value);
        j += 1;
    }
    Ok(())
}

fn divide_all(terms: &mut [Term], by: Frac) -> Result<(), ArithmeticFault>
    requires nonzero { by ≢ zero_ℚ }
    requires rise { Ascending 0 terms.old }
    ensures gives { Gives (divided_entries by terms.old []) result terms.new }
    ensures rise { Ascending 0 terms.new }
{
    for i in 0..terms.len() {
        let term = terms[i];
        let value = over(term.value, by)?;
        terms[i] = Term {
            column: term.column,
            value,
        };
    }
    Ok(())
}

/// Makes `kept` hold these terms, in as much memory as they take and no more.
fn copy(kept: &mut Vec<Term>, terms: &[Term]) -> Result<(), Memory>
    ensures ok { OnOk result (kept.new.items ≡ terms.now) }
    ensures err { OnErr result (kept.new.items ≡ []) }
{
    kept.clear();
    kept.reserve_exact(terms.len())?;
    kept.extend_from_slice(terms)?;
    kept.shrink_to_fit();
    Ok(())
}

impl Entries {
    pub fn new(terms: Vec<Term>) -> Entries
        requires { Ascending 0 terms.items }
        ensures { result ≡ terms.items }
    {
        Entries { terms }
    }

    pub fn terms(&self) -> &[Term]
        ensures { result.now ≡ self.now }
    {
        self.terms.as_slice()
    }

    #[inline(always)]
    pub fn value_at(&self, column: u64) -> Frac
        ensures { result ≡ value_at self.now column }
    {
        find(self.terms.as_slice(), column)
    }

    pub fn divide(&mut self, by: Frac) -> Result<(), ArithmeticFault>
        requires { by ≢ zero_ℚ }
        ensures { Gives (divided_entries by self.old []) result self.new }
    {
        divide_all(self.terms.as_mut_slice(), by)?;
        Ok(())
    }

    /// Takes `factor` times other entries away.
    pub fn subtract(
        &mut self,
        factor: Frac,
        other: &Entries,
        spare: &mut Vec<Term>,
    ) -> Result<(), ArithmeticFault>
        ensures { Gives (less_entries factor self.old other.now []) result self.new }
    {
        spare.clear();
        subtract_terms(factor, self.terms.as_slice(), other.terms.as_slice(), spare)?;
        copy(&mut self.terms, spare)?;
        Ok(())
    }

    /// Takes `factor` times the pivot's entries away, where `factor` isn't 0.
    pub fn clear(
        &mut self,
        factor: Frac,
        pivot: &Entries,
        spare: &mut Vec<Term>,
    ) -> Result<(), ArithmeticFault>
        ensures { Gives (cleared_form factor pivot.now self.old) result self.new }
    {
        if is_zero(factor) {
            return Ok(());
        }
        self.subtract(factor, pivot, spare)
    }
}
