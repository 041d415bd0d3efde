//! The ends of the least cost that are known, and what shows that there is none.
ghost use Rattle.std.specs.Prelude.{◌≡◌};
ghost use Rattle.rationals.specs.Rational.{zero_ℚ};
ghost use Rattle.found_ends.specs.Ends.{no_ends, below, wants, raises, with_lower, meet, falls};

use cut_proof::SharedCut;
use frac128::Frac;
use scen_defs::Values;

/// A policy with what it costs.
#[derive(Drop)]
pub struct Priced {
    pub cost: Frac,
    pub policy: Values,
}

/// A cut of the root with its value.
#[derive(Drop)]
pub struct Bounded {
    pub value: Frac,
    pub cut: SharedCut,
}

/// The ends that are known, and what shows that there is none.
#[derive(Drop)]
pub struct Ends {
    /// The least cost of a joined policy of a Feasible or Cost run, with the earliest policy of that cost.
    pub upper: Option<Priced>,
    /// The greatest root value of a Cost run, with the earliest cut of that value.
    pub lower: Option<Bounded>,
    /// The cost of the joined policy of the Recession run, at the last commit that left it complete.
    pub direction: Option<Priced>,
    /// The cut of the root's last solve in the present run.
    pub root: Option<SharedCut>,
    /// The root has no point in a Feasible run: its cut shows that.
    pub nowhere: Option<SharedCut>,
}

/// Whether one number is less than another.
fn is_below(one: Frac, other: Frac) -> bool
    ensures { result ≡ below one other }
{
    one < other
}

/// Whether a root value would be the lower end: it is the first, or greater.
fn is_raising(lower: &Option<Bounded>, value: Frac) -> bool
    ensures { result ≡ raises lower.now value }
{
    match lower {
        Some(best) => is_below(best.value, value),
        None => true,
    }
}

impl Ends {
    /// Nothing is known.
    pub fn none() -> Ends
        ensures { result ≡ no_ends }
    {
        Ends {
            upper: None,
            lower: None,
            direction: None,
            root: None,
            nowhere: None,
        }
    }

    /// Whether a policy of this cost would be the upper end: it is the first, or costs less.
    pub fn wants(&self, cost: Frac) -> bool
        ensures { result ≡ wants self.now.upper cost }
    {
        match &self.upper {
            Some(best) => is_below(cost, best.cost),
            None => true,
        }
    }

    /// Takes a root value as the lower end, where it is the first or greater.
    pub fn take_lower(&mut self, found: Bounded)
        ensures { self.new ≡ with_lower self.old found }
    {
        if is_raising(&self.lower, found.value) {
            self.lower = Some(found);
        }
    }

    /// Whether both ends are there and equal.
    pub fn meet(&self) -> bool
        ensures { result ≡ meet self.now.lower self.now.upper }
    {
        match (&self.lower, &self.upper) {
            (Some(lower), Some(upper)) => lower.value == upper.cost,
            (None, _) | (Some(_), None) => false,
        }
    }

    /// Whether the direction's cost is below 0.
    pub fn falls(&self) -> bool
        ensures { result ≡ falls self.now.direction }
    {
        match &self.direction {
            Some(direction) => is_below(direction.cost, Frac::zero()),
            None => false,
        }
    }
}
