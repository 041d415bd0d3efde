//! Equations with slack columns.
ghost use Rattle.std.specs.Prelude.{◌≡◌, ◌+◌, ◌<◌, ◌^◌, ◌++◌, IfOk, OnOk, length};
ghost use Rattle.lp_defs.specs.Program.{IsFormBelow};
ghost use Rattle.slack_form.specs.Limits.{IsLimits, AllBelow};
ghost use Rattle.slack_form.specs.Standard.{turned_form, slack_at, next_slack, behind, equation, equations, turned_rights, standard_of};

use crate::limits::{Limit, Limits};
use crate::signs::{is_turned, turned};
use frac128::{Form, Frac, Memory, Term};
use simplex_core::Standard;
use smps_words::RowKind;
use std::alloc::Global;

/// The rows as equations, in standard form.
///
/// Equation i is row i, with its slack column unless it is an equation itself; the cost stays as it is.
pub fn standard(alloc: Global, limits: &Limits) -> Result<Standard, Memory>
    requires { IsLimits limits.now }
    ensures { IfOk result (λ form. form ≡ standard_of limits.now) }
{
    let columns = behind(limits.columns, &limits.rows);
    let rows = equations(alloc, limits.columns, &limits.rows)?;
    let right = rights(alloc, &limits.rows)?;
    let cost = limits.cost.copy(alloc)?;
    Ok(Standard::new(columns, rows, right, cost))
}

/// The column behind the slack columns of the rows.
fn behind(columns: u64, rows: &[Limit]) -> u64
    requires few_columns { columns < 2 ^ 62 }
    requires few_rows { length rows.now < 2 ^ 62 }
    ensures { result ≡ behind columns rows.now }
{
    let mut slack = columns;
    for row in rows {
        slack = next_slack(slack, row.kind);
    }
    slack
}

/// The slack column of the next row.
fn next_slack(slack: u64, kind: RowKind) -> u64
    requires { slack < 2 ^ 63 }
    ensures { result ≡ next_slack slack kind }
{
    match kind {
        RowKind::Less => slack + 1,
        RowKind::Greater => slack + 1,
        RowKind::Equal => slack,
    }
}

/// The equations of the rows, whose slack columns come behind `columns` columns.
fn equations(alloc: Global, columns: u64, rows: &[Limit]) -> Result<Vec<Form>, Memory>
    requires few_columns { columns < 2 ^ 62 }
    requires few_rows { length rows.now < 2 ^ 62 }
    requires forms { AllBelow columns rows.now }
    ensures { IfOk result (λ forms. forms.items ≡ equations columns rows.now) }
{
    let mut forms = Vec::with_capacity(alloc, rows.len())?;
    let mut slack = columns;
    for row in rows {
        forms.push(equation(alloc, row, slack)?)?;
        slack = next_slack(slack, row.kind);
    }
    Ok(forms)
}

/// The equation of a row with this slack column.
fn equation(alloc: Global, row: &Limit, slack: u64) -> Result<Form, Memory>
    requires { IsFormBelow slack row.now.entries }
    ensures { IfOk result (λ form. form ≡ equation slack row.now) }
{
    let is_turned = is_turned(row);
    let mut terms = turned_terms(alloc, row.entries.terms(), is_turned)?;
    push_slack(&mut terms, row.kind, slack, is_turned)?;
    Ok(Form::from_terms(alloc, terms))
}

/// The terms, with the other signs where the row is multiplied by -1, and room for one more.
fn turned_terms(alloc: Global, entries: &[Term], is_turned: bool) -> Result<Vec<Term>, Memory>
    ensures { IfOk result (λ terms. terms.items ≡ turned_form is_turned entries.now) }
{
    let mut terms = Vec::with_capacity(alloc, entries.len() + 1)?;
    for entry in entries {
        let value = turned(is_turned, entry.value);
        terms.push(Term {
            column: entry.column,
            value,
        })?;
    }
    Ok(terms)
}

/// Adds the entry in the slack column, where the row has one.
fn push_slack(
    terms: &mut Vec<Term>,
    kind: RowKind,
    column: u64,
    is_turned: bool,
) -> Result<(), Memory>
    ensures { OnOk result (terms.new.items ≡ terms.old.items ++ turned_form is_turned (slack_at column kind)) }
{
    let one = match kind {
        RowKind::Less => Frac::one(),
        RowKind::Greater => Frac::one().neg(),
        RowKind::Equal => return Ok(()),
    };
    terms.push(Term {
        column,
        value: turned(is_turned, one),
    })?;
    Ok(())
}

/// The right sides of the equations.
fn rights(alloc: Global, rows: &[Limit]) -> Result<Vec<Frac>, Memory>
    ensures { IfOk result (λ right. right.items ≡ turned_rights rows.now) }
{
    let mut right = Vec::with_capacity(alloc, rows.len())?;
    for row in rows {
        right.push(turned(is_turned(row), row.right))?;
    }
    Ok(right)
}
