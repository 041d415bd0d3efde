//! Signs of numbers.
ghost use Rattle.std.specs.Prelude.{◌≡◌};
ghost use Rattle.rationals.specs.Forms.{is_zero};
ghost use Rattle.core_defs.specs.Number.{is_negative};

use frac128::Frac;

pub(crate) fn is_zero(value: Frac) -> bool
    ensures { result ≡ is_zero value }
{
    value.sign() == 0
}

pub(crate) fn is_negative(value: Frac) -> bool
    ensures { result ≡ is_negative value }
{
    value.sign() < 0
}
