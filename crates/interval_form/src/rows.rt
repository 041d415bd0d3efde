//! The own rows of a program as rows of three kinds, operation by operation.
ghost use Rattle.std.specs.Prelude.{◌≡◌, ◌++◌, ◌<◌, ◌≤◌, ◌+◌, ◌*◌, ◌^◌, ◌∷◌, [], length, IfOk};
ghost use Rattle.std.specs.Prelude.{MatchResult, Ok};
ghost use Rattle.rationals.specs.Rational.{one_ℚ};
ghost use Rattle.rationals.specs.Forms.{IsForm};
ghost use Rattle.scen_defs.specs.Lists.{Each};
ghost use Rattle.frac128.specs.Faults.{FaultOf, IfNotMemory};
ghost use Rattle.cut_defs.specs.Data.{BoundsRise};
ghost use Rattle.interval_form.specs.Parts.{AreParts, behind_all, parts_from};
ghost use Rattle.interval_form.specs.Rows.{HasForm, limit_walk, ends_walk, own_limits_from, bound_walk, bound_limits_from};

use crate::part::{Part, behind, part_of};
use crate::place::{right_side, spread_own};
use cut_defs::ColumnBounds;
use frac128::{ArithmeticFault, Form, Frac};
use scen_defs::NodeRow;
use slack_form::Limit;
use smps_words::RowKind;
use std::alloc::Global;

/// The limit of an end of a row.
fn limit(
    alloc: Global,
    bounds: &[ColumnBounds],
    parts: &[Part],
    trial: &Form,
    entries: &Form,
    kind: RowKind,
    end: Frac,
) -> Result<Limit, ArithmeticFault>
    requires parts { AreParts 0 parts.now }
    requires one_each { length bounds.now ≤ length parts.now }
    requires rises { BoundsRise 0 bounds.now }
    requires form { IsForm entries.now }
    ensures { IfNotMemory result (limit_walk bounds.now parts.now trial.now entries.now kind end) }
{
    let right = right_side(false, bounds, parts, trial, end, entries.terms())?;
    let terms = spread_own(alloc, bounds, parts, entries.terms())?;
    let entries = Form::from_terms(alloc, terms);
    Ok(Limit {
        entries,
        kind,
        right,
    })
}

/// Adds the limits of a row: one equation where its ends are equal, else one limit for each end.
fn push_ends(
    alloc: Global,
    bounds: &[ColumnBounds],
    parts: &[Part],
    trial: &Form,
    row: &NodeRow,
    limits: &mut Vec<Limit>,
) -> Result<(), ArithmeticFault>
    requires parts { AreParts 0 parts.now }
    requires one_each { length bounds.now ≤ length parts.now }
    requires rises { BoundsRise 0 bounds.now }
    requires form { IsForm row.now.entries }
    ensures { MatchResult result
        (λ _. ends_walk bounds.now parts.now trial.now row.now.entries limits.old.items row.now.low row.now.high ≡ Ok limits.new.items)
        (FaultOf (ends_walk bounds.now parts.now trial.now row.now.entries limits.old.items row.now.low row.now.high)) }
{
    let entries = &row.entries;
    match (row.low, row.high) {
        (None, None) => {}
        (Some(low), None) => {
            limits.push(limit(alloc, bounds, parts, trial, entries, RowKind::Greater, low)?)?
        }
        (None, Some(high)) => {
            limits.push(limit(alloc, bounds, parts, trial, entries, RowKind::Less, high)?)?
        }
        (Some(low), Some(high)) => {
            if low == high {
                limits.push(limit(alloc, bounds, parts, trial, entries, RowKind::Equal, low)?)?;
            } else {
                limits.push(limit(alloc, bounds, parts, trial, entries, RowKind::Greater, low)?)?;
                limits.push(limit(alloc, bounds, parts, trial, entries, RowKind::Less, high)?)?;
            }
        }
    }
    Ok(())
}

/// The limits of the rows, at the values of the trial.
pub fn own_limits(
    alloc: Global,
    bounds: &[ColumnBounds],
    parts: &[Part],
    trial: &Form,
    rows: &[NodeRow],
) -> Result<Vec<Limit>, ArithmeticFault>
    requires parts { AreParts 0 parts.now }
    requires one_each { length bounds.now ≤ length parts.now }
    requires rises { BoundsRise 0 bounds.now }
    requires forms { Each HasForm rows.now }
    ensures { MatchResult result (λ limits. own_limits_from bounds.now parts.now trial.now [] rows.now ≡ Ok limits.items)
        (FaultOf (own_limits_from bounds.now parts.now trial.now [] rows.now)) }
{
    let mut limits = Vec::new(alloc);
    for row in rows {
        push_ends(alloc, bounds, parts, trial, row, &mut limits)?;
    }
    Ok(limits)
}

/// The form with 1 in one column.
fn unit(alloc: Global, column: u64) -> Result<Form, ArithmeticFault>
    ensures { IfNotMemory result (Ok (record { column = column; value = one_ℚ } ∷ [])) }
{
    let mut form = Form::empty(alloc);
    form.push(column, Frac::one())?;
    Ok(form)
}

/// Adds the limit of a column with two bounds, whose first new column is `new`.
fn push_bound(
    alloc: Global,
    new: u64,
    bound: &ColumnBounds,
    limits: &mut Vec<Limit>,
) -> Result<(), ArithmeticFault>
    ensures { MatchResult result (λ _. bound_walk new limits.old.items bound.now.lower bound.now.upper ≡ Ok limits.new.items)
        (FaultOf (bound_walk new limits.old.items bound.now.lower bound.now.upper)) }
{
    if let (Some(low), Some(high)) = (bound.lower, bound.upper) {
        let right = high.sub(low)?;
        let entries = unit(alloc, new)?;
        limits.push(Limit {
            entries,
            kind: RowKind::Less,
            right,
        })?;
    }
    Ok(())
}

/// Adds the limits of the columns with two bounds, and counts the new columns.
pub fn push_bounds(
    alloc: Global,
    bounds: &[ColumnBounds],
    limits: &mut Vec<Limit>,
) -> Result<u64, ArithmeticFault>
    requires { length bounds.now < 2 ^ 60 }
    ensures count { IfOk result (λ new. new ≡ behind_all 0 (parts_from 0 bounds.now)) }
    ensures exact { MatchResult result (λ _. bound_limits_from 0 limits.old.items bounds.now ≡ Ok limits.new.items)
        (FaultOf (bound_limits_from 0 limits.old.items bounds.now)) }
{
    let mut new = 0;
    for bound in bounds {
        push_bound(alloc, new, bound, limits)?;
        new = behind(&part_of(new, bound.lower, bound.upper));
    }
    Ok(new)
}
