//! Rows that are multiplied by -1, and their multipliers.
ghost use Rattle.std.specs.Prelude.{◌≡◌, IfOk, length};
ghost use Rattle.slack_form.specs.Standard.{turned, is_turned, signed, turned_back};

use crate::limits::{Limit, Limits};
use frac128::{Frac, Memory};
use std::alloc::Global;

/// Whether the row is multiplied by -1.
pub(crate) fn is_turned(row: &Limit) -> bool
    ensures { result ≡ is_turned row.now }
{
    row.right.sign() < 0
}

/// The value, with the other sign in a row that is multiplied by -1.
pub(crate) fn turned(is_turned: bool, value: Frac) -> Frac
    ensures { result ≡ turned is_turned value }
{
    if is_turned { value.neg() } else { value }
}

/// The multipliers of the rows, from those of their equations: a row that was multiplied by -1 has its
/// equation's with the other sign.
pub fn own_duals(alloc: Global, limits: &Limits, duals: &[Frac]) -> Result<Vec<Frac>, Memory>
    requires { length duals.now ≡ length limits.now.rows.items }
    ensures { IfOk result (λ own. own.items ≡ signed limits.now duals.now) }
{
    turned_back(alloc, &limits.rows, duals)
}

fn turned_back(alloc: Global, rows: &[Limit], duals: &[Frac]) -> Result<Vec<Frac>, Memory>
    requires { length duals.now ≡ length rows.now }
    ensures { IfOk result (λ own. own.items ≡ turned_back rows.now duals.now) }
{
    let mut own = Vec::with_capacity(alloc, rows.len())?;
    for (row, dual) in rows.iter().zip(duals) {
        own.push(turned(is_turned(row), *dual))?;
    }
    Ok(own)
}
