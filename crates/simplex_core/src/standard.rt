//! Programs in standard form.
ghost use Rattle.std.specs.Prelude.{◌≡◌, ◌↔◌, IsSome, IfSome};
ghost use Rattle.lp_defs.specs.Program.{IsProgram};
ghost use Rattle.simplex_core.specs.Checks.{form_below, forms_below, none_negative, is_program};

use crate::sign::{is_below_zero, is_zero};
use frac128::{Form, Frac, Term};
use std::marker::Model;

/// A linear program in standard form: minimise the cost where all columns are at least 0 and each row's
/// form equals its right side.
///
/// There is one right side for each row, each at least 0; all forms are over the columns below `columns`,
/// which are fewer than 2^63.
#[derive(Drop)]
pub struct Standard {
    columns: u64,
    rows: Vec<Form>,
    right: Vec<Frac>,
    cost: Form,
}

impl Model for Standard {
    ghost use Rattle.lp_defs.specs.Program.{Program, IsProgram};

    ghost Value = { Program };

    ghost view = { λ s. record { columns = s.columns; rows = s.rows.items; right = s.right.items; cost = s.cost } };

    ghost invariant = { λ s. IsProgram (record { columns = s.columns; rows = s.rows.items; right = s.right.items; cost = s.cost }) };
}

const LIMIT: u64 = 1 << 63;

/// Whether the columns rise, all below `columns`, and no value is 0.
fn is_form_below(terms: &[Term], columns: u64) -> bool
    ensures { result ≡ form_below columns 0 terms.now }
{
    let mut least = 0;
    for term in terms {
        if term.column < least || columns <= term.column || is_zero(term.value) {
            return false;
        }
        least = term.column + 1;
    }
    true
}

fn are_forms_below(forms: &[Form], columns: u64) -> bool
    ensures { result ≡ forms_below columns forms.now }
{
    for form in forms {
        if !is_form_below(form.terms(), columns) {
            return false;
        }
    }
    true
}

fn are_not_negative(values: &[Frac]) -> bool
    ensures { result ≡ none_negative values.now }
{
    for value in values {
        if is_below_zero(*value) {
            return false;
        }
    }
    true
}

/// Whether these are the parts of a program.
fn are_parts(columns: u64, rows: &[Form], right: &[Frac], cost: &Form) -> bool
    ensures { result ≡ is_program columns rows.now right.now cost.now }
{
    columns < LIMIT
        && right.len() == rows.len()
        && are_forms_below(rows, columns)
        && are_not_negative(right)
        && is_form_below(cost.terms(), columns)
}

impl Standard {
    pub fn new(columns: u64, rows: Vec<Form>, right: Vec<Frac>, cost: Form) -> Standard
        requires { IsProgram (record { columns = columns; rows = rows.items; right = right.items; cost = cost }) }
        ensures { result ≡ record { columns = columns; rows = rows.items; right = right.items; cost = cost } }
    {
        Standard {
            columns,
            rows,
            right,
            cost,
        }
    }

    /// How many columns there are.
    pub fn columns(&self) -> u64
        ensures same { result ≡ self.now.columns }
        ensures is_program { IsProgram self.now }
    {
        self.columns
    }

    /// The forms of the rows.
    pub fn rows(&self) -> &[Form]
        ensures { result.now ≡ self.now.rows }
    {
        self.rows.as_slice()
    }

    /// The right sides, by row.
    pub fn right(&self) -> &[Frac]
        ensures { result.now ≡ self.now.right }
    {
        self.right.as_slice()
    }

    pub fn cost(&self) -> &Form
        ensures { result.now ≡ self.now.cost }
    {
        &self.cost
    }

    /// The program of these parts, where they are one: one right side for each row, each at least 0, all
    /// forms over the columns below `columns`, and these fewer than 2^63.
    pub fn checked(columns: u64, rows: Vec<Form>, right: Vec<Frac>, cost: Form) -> Option<Standard>
        ensures exact { IsSome result ↔ IsProgram (record { columns = columns; rows = rows.items; right = right.items; cost = cost }) }
        ensures value { IfSome result
            (λ program. program ≡ record { columns = columns; rows = rows.items; right = right.items; cost = cost }) }
    {
        if are_parts(columns, &rows, &right, &cost) {
            Some(Standard::new(columns, rows, right, cost))
        } else {
            None
        }
    }
}
