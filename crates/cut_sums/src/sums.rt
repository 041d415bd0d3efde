// The sums of a cut over a node's rows and columns, operation by operation.
ghost use Rattle.std.specs.Prelude.{◌≡◌, ◌++◌, OnOk, []};
ghost use Rattle.rationals.specs.Sparse.{coefficient};
ghost use Rattle.rationals.specs.Rational.{at_most};
ghost use Rattle.rationals.specs.Passes.{less_product_walk};
ghost use Rattle.rationals.specs.Forms.{EndsBelow, put};
ghost use Rattle.scen_defs.specs.Ends.{used_end};
ghost use Rattle.scen_defs.specs.Walks.{less_from};
ghost use Rattle.cut_defs.specs.Stored.{cost_of};
ghost use Rattle.cut_sums.specs.Walks.{worth_step, rows_worth, columns_worth};

use crate::datum::NodeDatum;
use crate::tally::near;
use crate::unreduced::Unreduced;
use cut_defs::CutKind;
use frac128::{Form, Frac, Memory, Passed};
use scen_defs::NodeRow;

/// The reduced cost of a column with the column's bounds.
#[derive(Clone, Copy, Debug)]
pub struct Priced {
    pub lower: Option<Frac>,
    pub upper: Option<Frac>,
    pub value: Frac,
}

/// What multipliers are worth, and whether each end that they use is finite.
#[derive(Drop)]
pub struct Worth {
    pub sum: Unreduced,
    pub is_good: bool,
}

/// A number less an entry times the row's multiplier, which isn't looked up where the entry is 0.
fn less_entry(start: Frac, entry: Frac, row: u32, multipliers: &Form) -> Result<Frac, Passed>
    ensures { result ≡ less_product_walk start entry (coefficient multipliers.now row) }
{
    if entry.is_zero() {
        Ok(start.over_one())
    } else {
        start.less_product(entry, multipliers.get(row as u64))
    }
}

/// A number less, row by row, the entry of a column times the multiplier.
pub fn less_rows(
    rows: &[NodeRow],
    multipliers: &Form,
    column: u64,
    start: Frac,
) -> Result<Frac, Passed>
    ensures { result ≡ less_from column (coefficient multipliers.now) start rows.now }
{
    let mut rest = start;
    for row in rows {
        rest = less_entry(rest, row.entries.get(column), row.row, multipliers)?;
    }
    Ok(rest)
}

/// What a column costs the cut.
pub fn cost_of(datum: &NodeDatum, kind: CutKind, column: u64) -> Frac
    ensures { result ≡ cost_of datum.now kind column }
{
    match kind {
        CutKind::Bound => datum.cost().get(column),
        CutKind::Ray => Frac::zero(),
    }
}

/// Adds a value in a column above all others of a form, unless it is 0.
pub fn push_nonzero(form: &mut Form, column: u64, value: Frac) -> Result<(), Memory>
    requires { EndsBelow column form.old }
    ensures { OnOk result (form.new ≡ form.old ++ put column value []) }
{
    if !value.is_zero() {
        form.push(column, value)?;
    }
    Ok(())
}

/// The worth and a multiplier times the end that it uses; without the term where the end isn't finite.
pub fn add_worth(worth: Worth, multiplier: Frac, end: Option<Frac>) -> Result<Worth, Passed>
    ensures { result ≡ worth_step worth multiplier end }
{
    match end {
        None => Ok(Worth {
            sum: worth.sum,
            is_good: false,
        }),
        Some(end) => {
            let sum = worth.sum.add_product(multiplier, end)?;
            Ok(Worth {
                sum,
                is_good: worth.is_good,
            })
        }
    }
}

/// Whether the first number is at most the second.
pub(crate) fn is_at_most(a: Frac, b: Frac) -> bool
    ensures { result ≡ at_most a b }
{
    a <= b
}

/// The low end for a multiplier above 0, the high end below 0, and 0 for 0.
fn used_end(low: Option<Frac>, high: Option<Frac>, multiplier: Frac) -> Option<Frac>
    ensures { result ≡ used_end low high multiplier }
{
    let sign = multiplier.sign();
    if sign > 0 {
        low
    } else if sign < 0 {
        high
    } else {
        Some(Frac::zero())
    }
}

pub fn add_rows(rows: &[NodeRow], multipliers: &Form, start: Worth) -> Result<Worth, Passed>
    ensures { result ≡ rows_worth multipliers.now start rows.now }
{
    multipliers.keeps_order();
    let terms = multipliers.terms();
    let mut worth = start;
    let mut guess = 0;
    for row in rows {
        let found = near(terms, guess, row.row as u64);
        guess = found.next;
        let multiplier = found.value;
        worth = add_worth(worth, multiplier, used_end(row.low, row.high, multiplier))?;
    }
    Ok(worth)
}

pub fn add_columns(priced: &[Priced], start: Worth) -> Result<Worth, Passed>
    ensures { result ≡ columns_worth start priced.now }
{
    let mut worth = start;
    for column in priced {
        let value = column.value;
        worth = add_worth(worth, value, used_end(column.lower, column.upper, value))?;
    }
    Ok(worth)
}
