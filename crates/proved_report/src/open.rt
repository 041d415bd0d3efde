//! Why a report is left open.
ghost use Rattle.std.specs.Prelude.{◌≡◌};
ghost use Rattle.rationals.specs.Passes.{passes};
ghost use Rattle.proved_report.specs.Open.{finding_of};

use frac128::{Frac, Passed};
use rationals::Op;
use scen_defs::{Finding, Place};

/// Why a method didn't come to its end.
#[derive(Clone, Copy, Debug)]
pub enum Open {
    /// So many solves were made, and no more were allowed.
    Solves(u64),
    /// The solve of this number came to the end of its pivots.
    Pivots(u64),
    /// This operation of this place passes 128 bits.
    Passed(Place, Passed),
}

/// Whether a quotient passes 128 bits.
fn is_wide_quotient(a: Frac, b: Frac) -> bool
    ensures { result ≡ passes Op.Div a b }
{
    if b.is_zero() {
        false
    } else {
        a.div(b).is_err()
    }
}

/// Does an operation again, and tells whether it passes 128 bits. A division by 0 doesn't.
pub fn is_passing(passed: Passed) -> bool
    ensures { result ≡ passes passed.op passed.a passed.b }
{
    match passed.op {
        Op::Add => passed.a.add(passed.b).is_err(),
        Op::Sub => passed.a.sub(passed.b).is_err(),
        Op::Mul => passed.a.mul(passed.b).is_err(),
        Op::Div => is_wide_quotient(passed.a, passed.b),
    }
}

/// The finding of a report that is left open. Where the operation that is named doesn't pass, which never comes
/// of a correct method, so many solves are told in its place.
pub(crate) fn open_finding(why: Open, solves: u64) -> Finding
    ensures { result ≡ finding_of why solves }
{
    match why {
        Open::Solves(count) => Finding::OpenSolves(count),
        Open::Pivots(solve) => Finding::OpenPivots(solve),
        Open::Passed(place, passed) => {
            if is_passing(passed) {
                Finding::OpenPassed(place, passed)
            } else {
                Finding::OpenSolves(solves)
            }
        }
    }
}
