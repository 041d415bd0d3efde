// The sums of a cut, operation by operation.
ghost use Rattle.std.specs.Prelude.{◌≡◌, MatchResult, IfOk, IfSome, Ok, []};
ghost use Rattle.scen_defs.specs.Lists.{NumbersRise};
ghost use Rattle.frac128.specs.Faults.{FaultOf, IfNotMemory};
ghost use Rattle.rationals.specs.Passes.{then_walk};
ghost use Rattle.cut_proof.specs.View.{uses_content, source_content};
ghost use Rattle.cut_sums.specs.Tallies.{AreSums};
ghost use Rattle.cut_sums.specs.Walks.{all_columns, earlier_walk, uses_from, column_walk, prices_walk, form_from};
ghost use Rattle.cut_sums.specs.Walks.{rows_worth, columns_worth, uses_worth, no_worth};

use crate::columns::all_columns;
use crate::cut::{Record, Used};
use crate::gathered::{form_by, priced_by};
use cut_sums::{
    NodeDatum, Priced, Unreduced, Worth, add_columns, add_rows, add_worth, cost_of, is_own,
    less_rows, push_nonzero,
};
use frac128::{ArithmeticFault, Form, Frac, Passed, Term};
use scen_defs::NodeRow;
use std::alloc::Global;

/// A number and, cut by cut, the weight times the coefficient of a column.
fn add_uses(used: &[Used], column: u64, start: Frac) -> Result<Frac, Passed>
    ensures { result ≡ uses_from column start (uses_content used.now) }
{
    let mut sum = start;
    for one in used {
        sum = sum.add_product(one.weight, one.cut.cut().form().get(column))?;
    }
    Ok(sum)
}

/// A column: from a number, less the rows' products, plus the used cuts' products.
fn column_sum(rows: &[NodeRow], source: &Record, column: u64, start: Frac) -> Result<Frac, Passed>
    ensures { result ≡ column_walk rows.now source.now.multipliers (uses_content source.now.used.items) column start }
{
    let rest = less_rows(rows, &source.multipliers, column, start)?;
    add_uses(&source.used, column, rest)
}

/// The reduced costs of the node's own columns, column by column.
fn price_each(
    alloc: Global,
    datum: &NodeDatum,
    source: &Record,
) -> Result<Vec<Priced>, ArithmeticFault>
    ensures { MatchResult result
        (λ v. prices_walk datum.now (source_content source.now) (uses_content source.now.used.items) ≡ Ok v.items)
        (FaultOf (prices_walk datum.now (source_content source.now) (uses_content source.now.used.items))) }
{
    let mut all = Vec::new(alloc);
    let rows = datum.rows();
    for bounds in datum.bounds() {
        let column = bounds.column as u64;
        let value = column_sum(rows, source, column, cost_of(datum, source.kind, column))?;
        all.push(Priced {
            lower: bounds.lower,
            upper: bounds.upper,
            value,
        })?;
    }
    Ok(all)
}

/// The reduced costs of the node's own columns, from the sums of all columns, if they are known.
pub(crate) fn price(
    alloc: Global,
    datum: &NodeDatum,
    source: &Record,
    sums: &Option<Vec<Term>>,
) -> Result<Vec<Priced>, ArithmeticFault>
    requires { IfSome sums.now (λ tally.
        AreSums datum.now (source_content source.now) (uses_content source.now.used.items) tally.items) }
    ensures { MatchResult result
        (λ v. prices_walk datum.now (source_content source.now) (uses_content source.now.used.items) ≡ Ok v.items)
        (FaultOf (prices_walk datum.now (source_content source.now) (uses_content source.now.used.items))) }
{
    match sums {
        Some(tally) => {
            let priced = priced_by(alloc, datum, source, tally)?;
            Ok(priced)
        }
        None => price_each(alloc, datum, source),
    }
}

/// A column of the form; 0 for one of the node's own.
fn earlier(datum: &NodeDatum, source: &Record, column: u64) -> Result<Frac, Passed>
    ensures { result ≡ earlier_walk datum.now (source_content source.now) (uses_content source.now.used.items) column }
{
    if is_own(datum.bounds(), column) {
        Ok(Frac::zero())
    } else {
        column_sum(datum.rows(), source, column, Frac::zero())
    }
}

/// The form over the columns that aren't the node's own, column by column.
fn form_over(
    alloc: Global,
    datum: &NodeDatum,
    source: &Record,
    columns: &[u64],
) -> Result<Form, ArithmeticFault>
    requires { NumbersRise 0 columns.now }
    ensures { IfNotMemory result (form_from datum.now (source_content source.now) (uses_content source.now.used.items) [] columns.now) }
{
    let mut form = Form::empty(alloc);
    for column in columns {
        let value = earlier(datum, source, *column)?;
        push_nonzero(&mut form, *column, value)?;
    }
    Ok(form)
}

/// The same over all columns.
fn form_each(alloc: Global, datum: &NodeDatum, source: &Record) -> Result<Form, ArithmeticFault>
    ensures rises { IfOk result (λ _. NumbersRise 0 (all_columns datum.now.rows (uses_content source.now.used.items))) }
    ensures form { IfNotMemory result
        (form_from datum.now (source_content source.now) (uses_content source.now.used.items) []
        (all_columns datum.now.rows (uses_content source.now.used.items))) }
{
    let columns = all_columns(alloc, datum.rows(), &source.used)?;
    form_over(alloc, datum, source, &columns)
}

/// The form over the columns that aren't the node's own, from the sums of all columns, if they are known.
pub(crate) fn form(
    alloc: Global,
    datum: &NodeDatum,
    source: &Record,
    sums: &Option<Vec<Term>>,
) -> Result<Form, ArithmeticFault>
    requires { IfSome sums.now (λ tally.
        AreSums datum.now (source_content source.now) (uses_content source.now.used.items) tally.items) }
    ensures rises { IfOk result (λ _. NumbersRise 0 (all_columns datum.now.rows (uses_content source.now.used.items))) }
    ensures form { IfNotMemory result
        (form_from datum.now (source_content source.now) (uses_content source.now.used.items) []
        (all_columns datum.now.rows (uses_content source.now.used.items))) }
{
    match sums {
        Some(tally) => {
            let form = form_by(alloc, datum, source, tally)?;
            Ok(form)
        }
        None => form_each(alloc, datum, source),
    }
}

fn add_constants(used: &[Used], start: Worth) -> Result<Worth, Passed>
    ensures { result ≡ uses_worth start (uses_content used.now) }
{
    let mut worth = start;
    for one in used {
        let constant = one.cut.cut().constant();
        worth = add_worth(worth, one.weight, Some(constant))?;
    }
    Ok(worth)
}

/// The constant: the rows' terms, the columns' terms, the used cuts' terms.
pub(crate) fn constant(
    rows: &[NodeRow],
    source: &Record,
    priced: &[Priced],
) -> Result<Worth, Passed>
    ensures { result ≡ then_walk (rows_worth source.now.multipliers no_worth rows.now)
        (λ a. then_walk (columns_worth a priced.now) (λ b. uses_worth b (uses_content source.now.used.items))) }
{
    let start = Worth {
        sum: Unreduced::zero(),
        is_good: true,
    };
    let of_rows = add_rows(rows, &source.multipliers, start)?;
    let of_columns = add_columns(priced, of_rows)?;
    add_constants(&source.used, of_columns)
}
