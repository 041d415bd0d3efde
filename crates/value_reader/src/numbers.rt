//! The numbers of a text, each as it is printed.
ghost use Rattle.std.specs.Prelude.{◌≡◌};
ghost use Rattle.value_reader.specs.Differences.{AreDifferences, difference};

use crate::fault::Fault;
use frac128::{Frac, NumFault, parse, print};
use std::alloc::Global;

/// The six numbers that a text states; a number isn't there where the text has `none`.
#[derive(Clone, Copy, Debug)]
pub struct StatedMeasures {
    /// The least cost of the program (RP).
    pub whole: Option<Frac>,
    /// The mean of the least costs of the scenarios, each by itself (WS).
    pub scenarios: Option<Frac>,
    /// The least cost of the program of the means (EV).
    pub means: Option<Frac>,
    /// The least cost where the first period is decided as for the means (EEV).
    pub fixed: Option<Frac>,
    /// What it is worth to know what comes (EVPI).
    pub information: Option<Frac>,
    /// What it is worth to plan for all that may come, and not for the means (VSS).
    pub model: Option<Frac>,
}

/// Those that aren't differences of others.
#[derive(Clone, Copy, Debug)]
pub(crate) struct Costs {
    pub(crate) whole: Option<Frac>,
    pub(crate) scenarios: Option<Frac>,
    pub(crate) means: Option<Frac>,
    pub(crate) fixed: Option<Frac>,
}

/// The one less the other; none where one isn't there, or the operation passes 128 bits.
fn difference(one: Option<Frac>, other: Option<Frac>) -> Option<Frac>
    ensures { result ≡ difference one other }
{
    match (one, other) {
        (Some(one), Some(other)) => match one.sub(other) {
            Ok(value) => Some(value),
            Err(_) => None,
        },
        (None, _) | (Some(_), None) => None,
    }
}

impl Costs {
    /// None of them.
    pub(crate) fn none() -> Costs {
        Costs {
            whole: None,
            scenarios: None,
            means: None,
            fixed: None,
        }
    }

    /// All six numbers.
    pub(crate) fn measures(&self) -> StatedMeasures
        ensures { AreDifferences result }
    {
        StatedMeasures {
            whole: self.whole,
            scenarios: self.scenarios,
            means: self.means,
            fixed: self.fixed,
            information: difference(self.whole, self.scenarios),
            model: difference(self.fixed, self.whole),
        }
    }
}

/// The number that a field is: a fraction as it is printed.
fn printed(alloc: Global, field: &[u8]) -> Result<Frac, Fault> {
    match parse(field) {
        Ok(value) => {
            let mut text = Vec::new(alloc);
            print(alloc, value, &mut text)?;
            if text.as_slice() == field {
                Ok(value)
            } else {
                Err(Fault::Other)
            }
        }
        Err(NumFault::Bad) => Err(Fault::Other),
        Err(NumFault::Wide) => Err(Fault::Wide),
    }
}

/// The number of a line, which stands there behind a word.
pub(crate) fn number_behind(
    alloc: Global,
    line: &[u8],
    word: &[u8],
) -> Result<Option<Frac>, Fault> {
    match line.strip_prefix(word) {
        Some(b"none") => Ok(None),
        Some(field) => Ok(Some(printed(alloc, field)?)),
        None => Err(Fault::Other),
    }
}
