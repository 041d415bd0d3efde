//! What is made of the end of the path.
ghost use Rattle.std.specs.Prelude.{◌≡◌, ◌++◌, ◌<◌, ◌+◌, ◌^◌, [], length, suc, take, drop, IfOk, OnOk, MatchResult};
ghost use Rattle.std.specs.Prelude.{Ok};
ghost use Rattle.rationals.specs.declared.Op.TheVariants.{Add};
ghost use Rattle.rationals.specs.Rational.{zero_ℚ};
ghost use Rattle.rationals.specs.Sparse.{coefficient};
ghost use Rattle.rationals.specs.Forms.{EndsBelow, put};
ghost use Rattle.rationals.specs.Choices.{pick};
ghost use Rattle.frac128.specs.Faults.{IfNotMemory};
ghost use Rattle.cut_defs.specs.Data.{BoundsRise};
ghost use Rattle.interval_form.specs.Rows.{terms_walk};
ghost use Rattle.cut_defs.specs.Data.{RowsRise};
ghost use Rattle.node_lp.specs.Walk.{point_from, child_walk, children_from, total_walk, multipliers_from};

use cut_defs::{ColumnBounds, Share};
use cut_proof::push_nonzero;
use frac128::{ArithmeticFault, Form, Frac, Memory, Passed, Term};
use interval_form::{Part, Vector, limit_count, part_at, split, sum, value};
use scen_defs::NodeRow;
use std::alloc::Global;

/// The multipliers of the own rows that aren't 0, by the number of the row.
pub(crate) fn own_multipliers(
    alloc: Global,
    rows: &[NodeRow],
    duals: &[Frac],
) -> Result<Form, ArithmeticFault>
    requires { RowsRise 0 rows.now }
    ensures { IfNotMemory result (multipliers_from [] rows.now duals.now) }
{
    let mut form = Form::empty(alloc);
    let mut left = duals;
    for row in rows {
        let (these, others) = split(left, limit_count(row.low, row.high));
        let dual = sum(these)?;
        push_nonzero(&mut form, row.row as u64, dual)?;
        left = others;
    }
    Ok(form)
}

/// The weights of so many cuts, which stand first among the multipliers behind those of the own rows.
pub(crate) fn weights(alloc: Global, behind: &[Frac], cuts: usize) -> Result<Vec<Frac>, Memory>
    ensures { IfOk result (λ weights. weights.items ≡ take cuts behind.now) }
{
    let (these, _others) = split(behind, cuts);
    let mut weights = Vec::new(alloc);
    weights.extend_from_slice(these)?;
    Ok(weights)
}

/// The values of the own columns that aren't 0, at a point over the new columns.
pub(crate) fn point(
    alloc: Global,
    bounds: &[ColumnBounds],
    parts: &[Part],
    found: &Form,
) -> Result<Form, ArithmeticFault>
    requires { BoundsRise 0 bounds.now }
    ensures { IfNotMemory result (point_from (coefficient found.now) parts.now [] 0 bounds.now) }
{
    let mut form = Form::empty(alloc);
    for (place, bound) in bounds.iter().enumerate() {
        let number = value(Vector::Point, part_at(parts, place as u64), found)?;
        push_nonzero(&mut form, bound.column as u64, number)?;
    }
    Ok(form)
}

/// The costs times the values of their columns, added by column.
fn own_cost(cost: &[Term], values: &Form) -> Result<Frac, Passed>
    ensures { result ≡ terms_walk Add (coefficient values.now) zero_ℚ cost.now }
{
    let mut sum = Frac::zero();
    for term in cost {
        sum = sum.add_product(term.value, values.get(term.column))?;
    }
    Ok(sum)
}

/// A share times the child's cost, added.
fn with_child(sum: Frac, share: Frac, part: Part, found: &Form) -> Result<Frac, Passed>
    ensures { result ≡ child_walk (coefficient found.now) sum share part }
{
    let cost = value(Vector::Point, part, found)?;
    sum.add_product(share, cost)
}

/// The shares times the children's costs, added by child; the first child's place is `first`.
fn children_cost(
    start: Frac,
    first: u64,
    shares: &[Share],
    parts: &[Part],
    found: &Form,
) -> Result<Frac, Passed>
    requires { first + length shares.now < 2 ^ 63 }
    ensures { result ≡ children_from (coefficient found.now) parts.now start first shares.now }
{
    let mut sum = start;
    let mut place = first;
    for share in shares {
        sum = with_child(sum, share.share, part_at(parts, place), found)?;
        place += 1;
    }
    Ok(sum)
}

/// What a point costs: the own costs by column, then, where the children are priced, the shares by child.
pub(crate) fn cost(
    priced: bool,
    own_columns: u64,
    costs: &Form,
    shares: &[Share],
    parts: &[Part],
    found: &Form,
    values: &Form,
) -> Result<Frac, Passed>
    requires { own_columns + length shares.now < 2 ^ 63 }
    ensures { result ≡ total_walk priced own_columns costs.now shares.now parts.now (coefficient found.now) values.now }
{
    let sum = own_cost(costs.terms(), values)?;
    if priced {
        children_cost(sum, own_columns, shares, parts, found)
    } else {
        Ok(sum)
    }
}
