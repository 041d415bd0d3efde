// What the costs are multiplied by, and what the added columns cost.
ghost use Rattle.std.specs.Prelude.{◌≡◌};
ghost use Rattle.rationals.specs.Rational.{one_ℚ, ◌<ℚ◌};
ghost use Rattle.tail_risk.specs.TailWalk.{rates_walk};

use frac128::{Frac, Passed};

/// What the costs are multiplied by, and what the added columns cost.
#[derive(Clone, Copy, Debug)]
pub(crate) struct Rates {
    /// The factor of all old costs.
    pub old: Frac,
    /// The cost of TAIL_H.
    pub h: Frac,
    /// The cost of TAIL_U.
    pub u: Frac,
}

/// By level and weight: first `1 - level`, then the weight divided by it, then `1 - weight`.
pub(crate) fn rates_of(level: Frac, weight: Frac) -> Result<Rates, Passed>
    requires { level <ℚ one_ℚ }
    ensures { result ≡ rates_walk level weight }
{
    let rest = Frac::one().sub(level)?;
    let u = weight.div(rest)?;
    let old = Frac::one().sub(weight)?;
    Ok(Rates { old, h: weight, u })
}
