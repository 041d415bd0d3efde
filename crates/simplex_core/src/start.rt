//! The rows and the objective row with which a phase begins.
ghost use Rattle.std.specs.Prelude.{◌≡◌, ◌+◌, ◌<◌, ◌≤◌, ◌^◌, ◌∷◌, ◌++◌, [], length, IfOk};
ghost use Rattle.rationals.specs.Rational.{one_ℚ};
ghost use Rattle.rationals.specs.Sparse.{Ascending};
ghost use Rattle.frac128.specs.Faults.{IfNotMemory};
ghost use Rattle.lp_defs.specs.Program.{IsFormBelow, AllFormsBelow};
ghost use Rattle.lp_defs.specs.Phases.{unit_rows, with_units, priced};

use crate::entries::{Entries, find};
use crate::line::Line;
use crate::row::Row;
use frac128::{ArithmeticFault, Form, Frac, Memory, Term};
use std::alloc::Global;

/// A form with its artificial column and its right side.
fn artificial_row(
    alloc: Global,
    form: &Form,
    right: Frac,
    first: u64,
    column: u64,
) -> Result<Row, Memory>
    requires below { IsFormBelow first form.now }
    requires column { first ≤ column }
    ensures { IfOk result (λ row. row ≡ record {
      basic = column;
      line = record { entries = form.now ++ record { column = column; value = one_ℚ } ∷ []; right = right };
    }) }
{
    let _first = first;
    let entries = form.terms();
    let mut terms = Vec::with_capacity(alloc, entries.len() + 1)?;
    terms.extend_from_slice(entries)?;
    terms.push(Term {
        column,
        value: Frac::one(),
    })?;
    Ok(Row::new(column, Line::new(Entries::new(terms), right)))
}

/// A row for each form with its artificial column and its right side; the artificial columns are `first`
/// and those behind it.
pub fn artificial_rows(
    alloc: Global,
    forms: &[Form],
    right: &[Frac],
    first: u64,
) -> Result<Vec<Row>, Memory>
    requires one_each { length right.now ≡ length forms.now }
    requires room { first + length forms.now < 2 ^ 64 }
    requires below { AllFormsBelow first forms.now }
    ensures { IfOk result (λ rows. rows.items ≡ unit_rows first (with_units first forms.now) right.now) }
{
    let mut rows = Vec::new(alloc);
    for index in 0..forms.len() {
        let column = first + index as u64;
        rows.push(artificial_row(alloc, &forms[index], right[index], first, column)?)?;
    }
    Ok(rows)
}

/// The cost less, for each row in order, its basic column's cost times the row.
pub fn price(
    alloc: Global,
    cost: &[Term],
    rows: &[Row],
    spare: &mut Vec<Term>,
) -> Result<Entries, ArithmeticFault>
    requires { Ascending 0 cost.now }
    ensures { IfNotMemory result (priced cost.now rows.now cost.now) }
{
    let mut objective = Entries::new(cost.to_vec(alloc)?);
    for row in rows {
        objective.clear(find(cost, row.basic()), row.line().entries(), spare)?;
    }
    Ok(objective)
}
