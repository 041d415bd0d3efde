//! The sign of a number as a test.
ghost use Rattle.std.specs.Prelude.{◌≡◌};
ghost use Rattle.lp_defs.specs.Tests.{is_zero, is_above_zero, is_below_zero};

use frac128::Frac;

#[inline(always)]
pub fn is_zero(value: Frac) -> bool
    ensures { result ≡ is_zero value }
{
    value.is_zero()
}

#[inline(always)]
pub fn is_above_zero(value: Frac) -> bool
    ensures { result ≡ is_above_zero value }
{
    value.sign() > 0
}

#[inline(always)]
pub fn is_below_zero(value: Frac) -> bool
    ensures { result ≡ is_below_zero value }
{
    value.sign() < 0
}
