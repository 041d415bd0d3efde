// The number that a field of a line is.
ghost use Rattle.std.specs.Prelude.{◌≡◌};
ghost use Rattle.core_defs.specs.Number.{number_of};

use frac128::{Frac, NumFault, parse};
use refusals::Cause;

/// The number that a field is.
pub fn number_of(word: &[u8]) -> Result<Frac, Cause>
    ensures { result ≡ number_of word.now }
{
    match parse(word) {
        Ok(value) => Ok(value),
        Err(NumFault::Bad) => Err(Cause::NumberBad),
        Err(NumFault::Wide) => Err(Cause::NumberWide),
    }
}
