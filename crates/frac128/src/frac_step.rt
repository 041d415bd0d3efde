// Steps: a product that is at once added to a number, or taken from it.
ghost use Rattle.std.specs.Prelude.{◌≡◌, Some, Err, IsTrue};
ghost use Rattle.rationals.specs.Rational.{◌+ℚ◌, ◌*ℚ◌};
ghost use Rattle.rationals.specs.Passes.{add_product_walk, less_product_walk, named_by, too_wide, fitted};
ghost use Rattle.frac128.specs.Fraction.{AreShort};

use crate::fraction::Frac;
use crate::passed::Passed;
use rationals::Op;

impl Frac {
    /// Whether three numbers are whole and short.
    #[inline(always)]
    fn are_short(self, factor: Frac, times: Frac) -> bool
        ensures { IsTrue result → AreShort self factor times }
    {
        self.parts().is_short() && factor.parts().is_short() && times.parts().is_short()
    }

    /// The number and a product, added, where all three are whole and short.
    #[inline(always)]
    fn short_step(self, factor: Frac, times: Frac) -> Frac
        requires { AreShort self factor times }
        ensures { Some result ≡ fitted (self +ℚ factor *ℚ times) }
    {
        Frac::from_parts(self.parts().short_step(factor.parts(), times.parts()))
    }

    /// The number and a product that passes by itself, added, or nothing where the sum passes.
    #[cold]
    #[inline(never)]
    fn wide_step(self, factor: Frac, times: Frac) -> Option<Frac>
        ensures { result ≡ fitted (self +ℚ factor *ℚ times) }
    {
        match self
            .parts()
            .add_product_widened(factor.parts(), times.parts())
        {
            Ok(p) => Some(Frac::from_parts(p)),
            Err(_) => None,
        }
    }

    // A function and a match of its own, so that copies for that call are made only where it is called.
    #[inline(always)]
    fn step_rarely(self, factor: Frac, times: Frac) -> Option<Frac>
        ensures { result ≡ fitted (self +ℚ factor *ℚ times) }
    {
        match self.wide_step(factor, times) {
            Some(sum) => Some(sum),
            None => None,
        }
    }

    /// The number and a product, added, or nothing where the sum passes.
    #[inline(always)]
    fn step(self, factor: Frac, times: Frac) -> Option<Frac>
        ensures { result ≡ fitted (self +ℚ factor *ℚ times) }
    {
        if self.are_short(factor, times) {
            return Some(self.short_step(factor, times));
        }
        match factor.product(times) {
            Some(product) => self.sum(product),
            None => self.step_rarely(factor, times),
        }
    }

    /// What a step names that passes: the product, where that passes by itself, else the sum or the
    /// difference with the product.
    #[cold]
    #[inline(never)]
    fn named(self, op: Op, factor: Frac, times: Frac) -> Passed
        ensures { result ≡ named_by (too_wide (factor *ℚ times)) op self factor times }
    {
        match factor.product(times) {
            Some(product) => Passed {
                op,
                a: self,
                b: product,
            },
            None => Passed {
                op: Op::Mul,
                a: factor,
                b: times,
            },
        }
    }

    // As `step_rarely`.
    #[inline(always)]
    fn passed(self, op: Op, factor: Frac, times: Frac) -> Result<Frac, Passed>
        ensures { result ≡ Err (named_by (too_wide (factor *ℚ times)) op self factor times) }
    {
        let passed = self.named(op, factor, times);
        Err(passed)
    }

    /// The number and the product of two others, added. It passes where a part of the sum's lowest terms
    /// is above `i128::MAX` in size, however large the product is.
    #[inline(always)]
    pub fn add_product(self, factor: Frac, times: Frac) -> Result<Frac, Passed>
        ensures { result ≡ add_product_walk self factor times }
    {
        match self.step(factor, times) {
            Some(sum) => Ok(sum),
            None => self.passed(Op::Add, factor, times),
        }
    }

    /// The number less the product of two others. It passes where a part of the difference's lowest
    /// terms is above `i128::MAX` in size, however large the product is.
    #[inline(always)]
    pub fn less_product(self, factor: Frac, times: Frac) -> Result<Frac, Passed>
        ensures { result ≡ less_product_walk self factor times }
    {
        match self.step(factor.neg(), times) {
            Some(difference) => Ok(difference),
            None => self.passed(Op::Sub, factor, times),
        }
    }
}
