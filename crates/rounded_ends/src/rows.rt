//! The sum of a row, rounded.
ghost use Rattle.std.specs.Prelude.{◌≡◌, IsTrue, IfSome};
ghost use Rattle.rationals.specs.Rational.{at_most};
ghost use Rattle.rationals.specs.Sparse.{product};
ghost use Rattle.rationals.specs.Intervals.{AtLeast, AtMost, Between};
ghost use Rattle.scen_defs.specs.Values.{at};
ghost use Rattle.scen_defs.specs.Flat.{along};
ghost use Rattle.scen_defs.specs.Program.{content, view_of};
ghost use Rattle.rounded_sums.specs.Sides.{Beside};

use frac128::{Frac, Term};
use rounded_sums::{Side, add_product};
use scen_defs::{NodeRow, Program, Values};
use scen_nodes::home;

fn is_at_most(a: Frac, b: Frac) -> bool
    ensures { result ≡ at_most a b }
{
    a <= b
}

/// The sum of entry times value along the path of a node, rounded to a side.
fn row_sum(
    side: Side,
    program: &Program,
    entries: &[Term],
    values: &Values,
    node: u64,
    near: &mut usize,
) -> Option<Frac>
    ensures { IfSome result (Beside side (product entries.now (along (view_of (content program.now)) (at values.now) node))) }
{
    let mut sum = Frac::zero();
    for term in entries {
        let value = values.get_near(home(program, node, term.column), term.column, near);
        match add_product(side, sum, term.value, value) {
            Some(next) => sum = next,
            None => return None,
        }
    }
    Some(sum)
}

/// Whether a row's sum is shown to be at least its low end.
fn is_above(
    program: &Program,
    low: Option<Frac>,
    entries: &[Term],
    values: &Values,
    node: u64,
    near: &mut usize,
) -> bool
    ensures { IsTrue result → AtLeast low (product entries.now (along (view_of (content program.now)) (at values.now) node)) }
{
    match low {
        Some(low) => match row_sum(Side::Below, program, entries, values, node, near) {
            Some(sum) => is_at_most(low, sum),
            None => false,
        },
        None => true,
    }
}

/// Whether a row's sum is shown to be at most its high end.
fn is_below(
    program: &Program,
    high: Option<Frac>,
    entries: &[Term],
    values: &Values,
    node: u64,
    near: &mut usize,
) -> bool
    ensures { IsTrue result → AtMost high (product entries.now (along (view_of (content program.now)) (at values.now) node)) }
{
    match high {
        Some(high) => match row_sum(Side::Above, program, entries, values, node, near) {
            Some(sum) => is_at_most(sum, high),
            None => false,
        },
        None => true,
    }
}

/// Whether a row's sum is shown to lie in its interval: rounded down it isn't below the low end, rounded up not above the high one. A sum
/// that fits is exact.
pub(crate) fn is_row_met(
    program: &Program,
    row: &NodeRow,
    values: &Values,
    node: u64,
    near: &mut usize,
) -> bool
    ensures { let r = row.now in
        IsTrue result → Between r.low r.high (product r.entries (along (view_of (content program.now)) (at values.now) node)) }
{
    is_above(program, row.low, row.entries.terms(), values, node, near)
        && is_below(program, row.high, row.entries.terms(), values, node, near)
}
