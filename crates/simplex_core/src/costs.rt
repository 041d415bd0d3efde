//! The objective row with which phase one begins, in one pass over the rows: its numbers stand by column, each in a
//! place of its own.
ghost use Rattle.std.specs.Prelude.{◌≡◌, ◌+◌, ◌<◌, ◌^◌, ◌++◌, length, replicate, IfOk};
ghost use Rattle.rationals.specs.Rational.{zero_ℚ, one_ℚ};
ghost use Rattle.rationals.specs.Sparse.{Ascending};
ghost use Rattle.rationals.specs.Forms.{EndsBelow};
ghost use Rattle.frac128.specs.Faults.{IfNotMemory};
ghost use Rattle.lp_defs.specs.Lines.{value_at};
ghost use Rattle.lp_defs.specs.Linear.{AllLines, AllRows};
ghost use Rattle.lp_defs.specs.Phases.{unit_costs, priced};
ghost use Rattle.simplex_core.specs.Dense.{gathered, less_at, less_all, less_rows};
ghost use Rattle.simplex_core.specs.Gives.{Gives};

use crate::entries::Entries;
use crate::row::Row;
use crate::sign::is_zero;
use frac128::{ArithmeticFault, Frac, Memory, Term};
use std::alloc::Global;

/// A cost of 0 in each column below `first`, and of 1 in each of `count` columns from it on.
fn costs(alloc: Global, first: u64, count: u64) -> Result<Vec<Frac>, Memory>
    requires { first + count < 2 ^ 64 }
    ensures { IfOk result (λ costs. costs.items ≡ replicate first zero_ℚ ++ replicate count one_ℚ) }
{
    let end = first + count;
    let mut costs = Vec::with_capacity(alloc, end as usize)?;
    costs.resize(first as usize, Frac::zero())?;
    costs.resize(end as usize, Frac::one())?;
    Ok(costs)
}

/// Takes a value away from the number of its column.
fn subtract_at(values: &mut [Frac], column: usize, value: Frac) -> Result<(), ArithmeticFault>
    requires { column < length values.old }
    ensures { Gives (less_at values.old column value) result values.new }
{
    values[column] = values[column].less_product(Frac::one(), value)?;
    Ok(())
}

/// Takes entries away from the numbers of their columns.
fn subtract(values: &mut [Frac], entries: &[Term]) -> Result<(), ArithmeticFault>
    requires { EndsBelow (length values.old) entries.now }
    ensures { Gives (less_all values.old entries.now) result values.new }
{
    for entry in entries {
        subtract_at(values, entry.column as usize, entry.value)?;
    }
    Ok(())
}

/// Takes rows away, in order.
fn subtract_rows(values: &mut [Frac], rows: &[Row]) -> Result<(), ArithmeticFault>
    requires { AllLines (λ line. EndsBelow (length values.old) line.entries) rows.now }
    ensures { Gives (less_rows values.old rows.now) result values.new }
{
    for row in rows {
        subtract(values, row.line().entries().terms())?;
    }
    Ok(())
}

/// The numbers that aren't 0, with their columns.
fn gather(alloc: Global, values: &[Frac]) -> Result<Vec<Term>, Memory>
    ensures { IfOk result (λ terms. terms.items ≡ gathered 0 values.now) }
{
    let mut terms = Vec::new(alloc);
    for column in 0..values.len() {
        let value = values[column];
        if !is_zero(value) {
            terms.push(Term {
                column: column as u64,
                value,
            })?;
        }
    }
    Ok(terms)
}

/// A cost of 1 in each of `count` columns from `first` on, less each row in order; each row is basic in one of
/// these columns.
pub fn first_objective(
    alloc: Global,
    rows: &[Row],
    first: u64,
    count: u64,
) -> Result<Entries, ArithmeticFault>
    requires room { first + count < 2 ^ 64 }
    requires rise { AllLines (λ line. Ascending 0 line.entries) rows.now }
    requires below { AllLines (λ line. EndsBelow (first + count) line.entries) rows.now }
    requires basic { AllRows (λ r. value_at (unit_costs first count) r.basic ≡ one_ℚ) rows.now }
    ensures { IfNotMemory result (priced (unit_costs first count) rows.now (unit_costs first count)) }
{
    let mut values = costs(alloc, first, count)?;
    subtract_rows(values.as_mut_slice(), rows)?;
    let terms = gather(alloc, values.as_slice())?;
    Ok(Entries::new(terms))
}
