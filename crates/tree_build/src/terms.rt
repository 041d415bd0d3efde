//! Values in forms.
ghost use Rattle.std.specs.Prelude.{◌≡◌, ◌≤◌, ◌↔◌, IsTrue, length, take, drop, IfOk, OnOk};
ghost use Rattle.rationals.specs.Sparse.{Ascending};
ghost use Rattle.rationals.specs.Forms.{IsForm, EndsBelow};
ghost use Rattle.tree_build.specs.Values.{put_at, StandsAt};

use frac128::{Form, Frac, Memory, Term};
use std::alloc::Global;

/// How many terms stand before a column, found by bisection.
fn place(xs: &[Term], column: u64) -> usize
    requires { Ascending 0 xs.now }
    ensures before { EndsBelow column (take result xs.now) }
    ensures behind { Ascending column (drop result xs.now) }
    ensures within { result ≤ length xs.now }
{
    let mut first = 0;
    let mut end = xs.len();
    'bisection: while first < end {
        let middle = first + (end - first) / 2;
        let x = xs[middle];
        if x.column < column {
            first = middle + 1;
        } else {
            end = middle;
        }
    }
    first
}

/// Whether a term of that column stands in that place.
fn stands_at(xs: &[Term], at: usize, column: u64) -> bool
    ensures { IsTrue result ↔ StandsAt xs.now at column }
{
    if at < xs.len() {
        let x = xs[at];
        x.column == column
    } else {
        false
    }
}

/// Sets the value in a column: it replaces the one that is there, and 0 removes it.
fn set_term(xs: &mut Vec<Term>, column: u64, value: Frac) -> Result<(), Memory>
    requires { IsForm xs.old.items }
    ensures { OnOk result (xs.new.items ≡ put_at column value xs.old.items) }
{
    let at = place(xs, column);
    if stands_at(xs, at, column) {
        if value.is_zero() {
            xs.remove(at);
        } else {
            xs[at] = Term { column, value };
        }
    } else if !value.is_zero() {
        xs.insert(at, Term { column, value })?;
    }
    Ok(())
}

/// The form with that value in a column.
pub(crate) fn with_value(
    alloc: Global,
    form: Form,
    column: u64,
    value: Frac,
) -> Result<Form, Memory>
    ensures { IfOk result (λ new. new ≡ put_at column value form) }
{
    let mut terms = form.into_terms();
    set_term(&mut terms, column, value)?;
    Ok(Form::from_terms(alloc, terms))
}
