//! What is found of a program.
ghost use Rattle.std.specs.Prelude.{◌≡◌};

use proved_report::{Claim, Open};
use scen_defs::Place;

/// What is claimed of a program; why its report is open, where that doesn't settle it; and where a test of the claim that passes
/// 128 bits is told.
#[derive(Drop)]
pub struct Found {
    pub claim: Claim,
    pub why: Open,
    pub place: Place,
}

/// Nothing is claimed.
pub(crate) fn nothing(why: Open) -> Found
    ensures why { result.why ≡ why }
    ensures place { result.place ≡ Place.Cost 0 }
{
    Found {
        claim: Claim::Ends {
            policy: None,
            dual: None,
        },
        why,
        place: Place::Cost(0),
    }
}
