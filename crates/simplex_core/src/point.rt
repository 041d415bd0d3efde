//! The points and rays of tableaus as forms.
ghost use Rattle.std.specs.Prelude.{◌≡◌, ◌≢◌, ℕ, OnOk, IfOk};
ghost use Rattle.rationals.specs.Sparse.{coefficient};
ghost use Rattle.lp_defs.specs.Basis.{point, ray};
ghost use Rattle.lp_defs.specs.Trace.{NotIn};
ghost use Rattle.lp_defs.specs.Placed.{placed, placed_nonzero, point_form, ray_form, BasicsDiffer};

use crate::row::Row;
use crate::sign::is_zero;
use frac128::{Form, Frac, Memory, Term};
use std::alloc::Global;

/// Puts a value behind those of lesser columns.
fn place(terms: &mut Vec<Term>, column: u64, value: Frac) -> Result<(), Memory>
    ensures { OnOk result (terms.new.items ≡ placed column value terms.old.items) }
{
    let mut index = 0;
    'lesser: while index < terms.len() && terms[index].column < column {
        index += 1;
    }
    terms.insert(index, Term { column, value })?;
    Ok(())
}

/// Puts a value into its place, unless it is 0.
fn place_nonzero(terms: &mut Vec<Term>, column: u64, value: Frac) -> Result<(), Memory>
    ensures { OnOk result (terms.new.items ≡ placed_nonzero column value terms.old.items) }
{
    if is_zero(value) {
        return Ok(());
    }
    place(terms, column, value)
}

fn point_terms(alloc: Global, rows: &[Row]) -> Result<Vec<Term>, Memory>
    ensures { IfOk result (λ terms. terms.items ≡ point_form rows.now) }
{
    let mut terms = Vec::new(alloc);
    for row in rows {
        place_nonzero(&mut terms, row.basic(), row.line().right())?;
    }
    Ok(terms)
}

fn ray_terms(alloc: Global, rows: &[Row], column: u64) -> Result<Vec<Term>, Memory>
    ensures { IfOk result (λ terms. terms.items ≡ ray_form column rows.now) }
{
    let mut terms = Vec::new(alloc);
    terms.push(Term {
        column,
        value: Frac::one(),
    })?;
    for row in rows {
        place_nonzero(&mut terms, row.basic(), row.line().value_at(column).neg())?;
    }
    Ok(terms)
}

/// The point of a tableau: each basic column has its row's right side.
pub fn point(alloc: Global, rows: &[Row]) -> Result<Form, Memory>
    requires { BasicsDiffer rows.now }
    ensures { IfOk result (λ form. (column : ℕ) → coefficient form column ≡ point rows.now column) }
{
    Ok(Form::from_terms(alloc, point_terms(alloc, rows)?))
}

/// The ray along a column: it grows by 1, and each basic column by what keeps its row.
pub fn ray(alloc: Global, rows: &[Row], column: u64) -> Result<Form, Memory>
    requires differ { BasicsDiffer rows.now }
    requires apart { NotIn column rows.now }
    ensures { IfOk result (λ form. (k : ℕ) → coefficient form k ≡ ray column rows.now k) }
{
    Ok(Form::from_terms(alloc, ray_terms(alloc, rows, column)?))
}
