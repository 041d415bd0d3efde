// Whether parts are a datum.
ghost use Rattle.std.specs.Prelude.{◌≡◌, ◌&&◌, leb};
ghost use Rattle.cut_defs.specs.Data.{BoundsRise, is_own};
ghost use Rattle.cut_sums.specs.Checks.{in_order, row_holds, rows_hold, bound_holds, bounds_hold};
ghost use Rattle.cut_sums.specs.Checks.{share_holds, shares_hold, costs_hold, is_datum};

use crate::own::is_own;
use crate::sums::is_at_most;
use cut_defs::{ColumnBounds, Share};
use frac128::{Form, Frac, Term};
use scen_defs::NodeRow;

/// Whether no low end is above the high one.
fn in_order(low: Option<Frac>, high: Option<Frac>) -> bool
    ensures { result ≡ in_order low high }
{
    match low {
        None => true,
        Some(low) => match high {
            None => true,
            Some(high) => is_at_most(low, high),
        },
    }
}

/// Whether a place is at least another.
fn is_from(next: u64, place: u32) -> bool
    ensures { result ≡ leb next place }
{
    next <= place as u64
}

fn row_holds(next: u64, row: &NodeRow) -> bool
    ensures { result ≡ row_holds next row.now }
{
    is_from(next, row.row) && in_order(row.low, row.high)
}

fn bound_holds(next: u64, bounds: &ColumnBounds) -> bool
    ensures { result ≡ bound_holds next bounds.now }
{
    is_from(next, bounds.column) && in_order(bounds.lower, bounds.upper)
}

fn share_holds(next: u64, share: &Share) -> bool
    ensures { result ≡ share_holds next share.now }
{
    is_from(next, share.child) && !is_at_most(share.share, Frac::zero())
}

/// Whether rows rise and the ends of each are in order.
fn rows_hold(rows: &[NodeRow]) -> bool
    ensures { result ≡ rows_hold 0 rows.now }
{
    let mut next = 0;
    for row in rows {
        if !row_holds(next, row) {
            return false;
        }
        next = row.row as u64 + 1;
    }
    true
}

/// Whether columns rise and the bounds of each are in order.
fn bounds_hold(bounds: &[ColumnBounds]) -> bool
    ensures { result ≡ bounds_hold 0 bounds.now }
{
    let mut next = 0;
    for column in bounds {
        if !bound_holds(next, column) {
            return false;
        }
        next = column.column as u64 + 1;
    }
    true
}

/// Whether children rise and each share is above 0.
fn shares_hold(shares: &[Share]) -> bool
    ensures { result ≡ shares_hold 0 shares.now }
{
    let mut next = 0;
    for share in shares {
        if !share_holds(next, share) {
            return false;
        }
        next = share.child as u64 + 1;
    }
    true
}

/// Whether each cost is of one of the columns.
fn costs_hold(bounds: &[ColumnBounds], cost: &[Term]) -> bool
    requires { BoundsRise 0 bounds.now }
    ensures { result ≡ costs_hold bounds.now cost.now }
{
    for term in cost {
        if !is_own(bounds, term.column) {
            return false;
        }
    }
    true
}

/// Whether columns rise, the bounds of each are in order, and each cost is of one of them.
fn columns_hold(bounds: &[ColumnBounds], cost: &[Term]) -> bool
    ensures { result ≡ (bounds_hold 0 bounds.now && costs_hold bounds.now cost.now) }
{
    if bounds_hold(bounds) {
        costs_hold(bounds, cost)
    } else {
        false
    }
}

/// Whether these parts are a datum.
pub(crate) fn is_datum(
    cost: &Form,
    rows: &[NodeRow],
    bounds: &[ColumnBounds],
    shares: &[Share],
) -> bool
    ensures { result ≡ is_datum cost.now rows.now bounds.now shares.now }
{
    rows_hold(rows) && shares_hold(shares) && columns_hold(bounds, cost.terms())
}
