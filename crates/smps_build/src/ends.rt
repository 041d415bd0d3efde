// The interval of a row.
ghost use Rattle.std.specs.Prelude.{◌≡◌};
ghost use Rattle.rationals.specs.Rational.{at_most, zero_ℚ};
ghost use Rattle.smps_build.specs.Ends.{size, interval_walk};

use frac128::{Frac, Passed};
use smps_words::RowKind;

fn is_from_zero(number: Frac) -> bool
    ensures { result ≡ at_most zero_ℚ number }
{
    Frac::zero() <= number
}

/// The number without its sign.
fn size(number: Frac) -> Frac
    ensures { result ≡ size number }
{
    if is_from_zero(number) {
        number
    } else {
        number.neg()
    }
}

/// The low and the high end of a row's interval, by its kind, right-hand side and range.
pub fn interval(
    kind: RowKind,
    rhs: Frac,
    range: Option<Frac>,
) -> Result<(Option<Frac>, Option<Frac>), Passed>
    ensures { result ≡ interval_walk kind rhs range }
{
    match (kind, range) {
        (RowKind::Less, None) => Ok((None, Some(rhs))),
        (RowKind::Less, Some(range)) => {
            let low = rhs.sub(size(range))?;
            Ok((Some(low), Some(rhs)))
        }
        (RowKind::Greater, None) => Ok((Some(rhs), None)),
        (RowKind::Greater, Some(range)) => {
            let high = rhs.add(size(range))?;
            Ok((Some(rhs), Some(high)))
        }
        (RowKind::Equal, None) => Ok((Some(rhs), Some(rhs))),
        (RowKind::Equal, Some(range)) => {
            let other = rhs.add(range)?;
            if is_from_zero(range) {
                Ok((Some(rhs), Some(other)))
            } else {
                Ok((Some(other), Some(rhs)))
            }
        }
    }
}
