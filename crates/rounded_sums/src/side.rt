//! The side of a number on which a rounded one stands.
ghost use Rattle.std.specs.Prelude.{◌≡◌, IsTrue};
ghost use Rattle.rationals.specs.Rational.{at_most, zero_ℚ};
ghost use Rattle.rationals.specs.Choices.{pick};
ghost use Rattle.rounded_sums.specs.Sides.{Beside, opposite, factor_side};

use frac128::Frac;

/// The side of a number on which a rounded one stands; the number itself stands on both.
#[derive(Clone, Copy, Debug)]
pub enum Side {
    Above,
    Below,
}

impl Side {
    pub(crate) fn opposite(self) -> Side
        ensures { result ≡ opposite self }
    {
        match self {
            Side::Above => Side::Below,
            Side::Below => Side::Above,
        }
    }
}

fn is_at_most(a: Frac, b: Frac) -> bool
    ensures { result ≡ at_most a b }
{
    a <= b
}

/// Whether a number stands on a side of another.
pub(crate) fn is_beside(side: Side, exact: Frac, rounded: Frac) -> bool
    ensures { IsTrue result → Beside side exact rounded }
{
    match side {
        Side::Above => is_at_most(exact, rounded),
        Side::Below => is_at_most(rounded, exact),
    }
}

/// The side on which a factor is rounded, so that its product with another number stands on this side.
pub(crate) fn factor_side(side: Side, other: Frac) -> Side
    ensures { result ≡ factor_side side other }
{
    if is_at_most(Frac::zero(), other) {
        side
    } else {
        side.opposite()
    }
}
