//! What a line of BOUNDS does to the bounds of a column.
ghost use Rattle.std.specs.Prelude.{◌≡◌, Some, None, if◌then◌else◌};
ghost use Rattle.rationals.specs.Rational.{neg_ℚ};
ghost use Rattle.core_defs.specs.Bounds.{infinite, is_at_most, bounded, crossed};
ghost use Rattle.core_defs.specs.Step.{is_sudden, are_crossed};

use crate::number::is_negative;
use core_defs::{BoundKind, ColumnBounds};
use frac128::Frac;

/// Ten to the thirtieth, which stands for no bound.
fn infinite() -> Frac
    ensures { result ≡ infinite }
{
    let Some(value) = Frac::new(1_000_000_000_000_000_000_000_000_000_000, 1) else {
        unreachable!();
    };
    value
}

fn is_at_most(one: Frac, other: Frac) -> bool
    ensures { result ≡ is_at_most one other }
{
    one <= other
}

/// The lower bound that a line LO sets.
fn lower_bound(value: Frac) -> Option<Frac>
    ensures { result ≡ (if is_at_most value (neg_ℚ infinite) then None else Some value) }
{
    if is_at_most(value, infinite().neg()) {
        return None;
    }
    Some(value)
}

/// The upper bound that a line UP sets.
fn upper_bound(value: Frac) -> Option<Frac>
    ensures { result ≡ (if is_at_most infinite value then None else Some value) }
{
    if is_at_most(infinite(), value) {
        return None;
    }
    Some(value)
}

/// The bounds behind a line of this kind and value.
pub(crate) fn bounded(old: &ColumnBounds, kind: BoundKind, value: Frac) -> ColumnBounds
    ensures { result ≡ bounded old.now kind value }
{
    match kind {
        BoundKind::Lower => ColumnBounds {
            lower: lower_bound(value),
            upper: old.upper,
            stated: true,
        },
        BoundKind::Upper => ColumnBounds {
            lower: old.lower,
            upper: upper_bound(value),
            stated: old.stated,
        },
        BoundKind::Fixed => ColumnBounds {
            lower: Some(value),
            upper: Some(value),
            stated: true,
        },
        BoundKind::Free => ColumnBounds {
            lower: None,
            upper: None,
            stated: true,
        },
        BoundKind::NoLower => ColumnBounds {
            lower: None,
            upper: old.upper,
            stated: true,
        },
        BoundKind::NoUpper => ColumnBounds {
            lower: old.lower,
            upper: None,
            stated: old.stated,
        },
    }
}

/// Whether the line is an upper bound below 0, and none set or removed the lower bound.
pub(crate) fn is_sudden(kind: BoundKind, value: Frac, old: &ColumnBounds) -> bool
    ensures { result ≡ is_sudden kind value old.now }
{
    match kind {
        BoundKind::Upper => is_negative(value) && !old.stated,
        BoundKind::Lower
        | BoundKind::Fixed
        | BoundKind::Free
        | BoundKind::NoLower
        | BoundKind::NoUpper => false,
    }
}

/// Whether the lower bound is above the upper.
pub(crate) fn are_crossed(bounds: &ColumnBounds) -> bool
    ensures { result ≡ are_crossed bounds.now }
{
    match (bounds.lower, bounds.upper) {
        (Some(lower), Some(upper)) => lower > upper,
        _ => false,
    }
}
