//! A sum in parts, for one that fits though what it has come to on the way doesn't.
ghost use Rattle.std.specs.Prelude.{◌≡◌, ◌<◌, IfSome, length, slice_set};
ghost use Rattle.rationals.specs.Rational.{zero_ℚ, ◌+ℚ◌, ◌-ℚ◌, ◌*ℚ◌};
ghost use Rattle.rounded_sums.specs.Sides.{Beside};
ghost use Rattle.rounded_sums.specs.Parts.{sum_of};

use crate::shares::{floor_of, share_of};
use crate::side::{Side, factor_side};
use crate::steps::{add_product, exact_product, exact_sum, rounded_sum, shown_end};
use frac128::Frac;
use std::marker::Model;

/// So many parts a sum has, beside the whole one.
const PARTS: usize = 32;

/// So many parts are looked at, all in all, before a sum is rounded.
const LOOKS: u32 = 100_000;

/// A sum in parts. A number that is added is split by the primes of its denominator, as partial fractions are: each part takes what has
/// its primes. So what cancels does so within a part, and no part grows longer than it has to be.
#[derive(Drop)]
pub struct SplitSum {
    /// Whether nothing was rounded.
    is_exact: bool,
    looks: u32,
    whole: Frac,
    parts: [Frac; 32],
}

impl Model for SplitSum {
    ghost use Rattle.rationals.specs.Rational.{ℚ, ◌+ℚ◌};
    ghost use Rattle.rounded_sums.specs.Parts.{sum_of};

    ghost Value = { ℚ };

    ghost view = { λ s. s.whole +ℚ sum_of s.parts };
}

/// The difference, where it fits.
fn exact_difference(a: Frac, b: Frac) -> Option<Frac>
    ensures { IfSome result (λ difference. difference ≡ a -ℚ b) }
{
    match a.sub(b) {
        Ok(difference) => Some(difference),
        Err(_) => None,
    }
}

/// Two numbers with the same sum, where one gives a share to the other.
fn moved(from: Frac, to: Frac, share: Frac) -> Option<(Frac, Frac)>
    ensures { IfSome result (λ pair. pair.0 +ℚ pair.1 ≡ from +ℚ to) }
{
    match exact_difference(from, share) {
        Some(rest) => match exact_sum(to, share) {
            Some(more) => Some((rest, more)),
            None => None,
        },
        None => None,
    }
}

/// The whole number and a part below 1, with the same sum; both as they were where that doesn't fit.
fn settled(whole: Frac, part: Frac) -> (Frac, Frac)
    ensures { result.0 +ℚ result.1 ≡ whole +ℚ part }
{
    match moved(part, whole, floor_of(part)) {
        Some((rest, more)) => (more, rest),
        None => (whole, part),
    }
}

/// Parts that are all 0.
fn no_parts() -> [Frac; 32]
    ensures { sum_of result ≡ zero_ℚ }
{
    [Frac::zero(); 32]
}

/// The parts with another one at a place.
fn with_part(parts: [Frac; 32], place: usize, part: Frac) -> [Frac; 32]
    requires { place < length parts }
    ensures { result ≡ slice_set parts place part }
{
    let mut changed = parts;
    changed[place] = part;
    changed
}

/// The sum of two numbers: exact where it fits, else rounded or none.
fn sum_or_none(side: Side, rounds: bool, a: Frac, b: Frac) -> Option<Frac>
    ensures { IfSome result (Beside side (a +ℚ b)) }
{
    match a.add(b) {
        Ok(sum) => Some(sum),
        Err(_) => {
            if rounds {
                rounded_sum(side, a, b)
            } else {
                None
            }
        }
    }
}

/// A number and the parts, each sum as `sum_or_none` has it.
fn sum_with(side: Side, rounds: bool, whole: Frac, parts: &[Frac]) -> Option<Frac>
    ensures { IfSome result (Beside side (whole +ℚ sum_of parts.now)) }
{
    let mut sum = whole;
    for part in parts {
        match sum_or_none(side, rounds, sum, *part) {
            Some(next) => sum = next,
            None => return None,
        }
    }
    Some(sum)
}

impl SplitSum {
    /// 0.
    pub fn zero() -> SplitSum
        ensures { result ≡ zero_ℚ }
    {
        SplitSum::of(true, Frac::zero())
    }

    /// A number by itself.
    fn of(is_exact: bool, whole: Frac) -> SplitSum
        ensures { result ≡ whole }
    {
        SplitSum {
            is_exact,
            looks: 0,
            whole,
            parts: no_parts(),
        }
    }

    fn copy(&self) -> SplitSum
        ensures { result ≡ self.now }
    {
        SplitSum {
            is_exact: self.is_exact,
            looks: self.looks,
            whole: self.whole,
            parts: self.parts,
        }
    }

    /// The sum where the part at a place has taken its share of a number, and what is left of that.
    fn put(&self, place: usize, number: Frac, fills: bool) -> (SplitSum, Frac)
        requires { place < 32 }
        ensures { result.0 +ℚ result.1 ≡ self.now +ℚ number }
    {
        let part = self.parts[place];
        match moved(number, part, share_of(part, number, fills)) {
            Some((left, more)) => {
                let (whole, part) = settled(self.whole, more);
                let looks = self.looks.saturating_add(1);
                let parts = with_part(self.parts, place, part);
                let is_exact = self.is_exact;
                (
                    SplitSum {
                        is_exact,
                        looks,
                        whole,
                        parts,
                    },
                    left,
                )
            }
            None => (self.copy(), number),
        }
    }

    /// The sum where each part has taken its share of a number, or where the first that is free takes all, and what is left of the number.
    fn spread(&self, number: Frac, fills: bool) -> (SplitSum, Frac)
        ensures { result.0 +ℚ result.1 ≡ self.now +ℚ number }
    {
        let mut sum = self.copy();
        let mut left = number;
        for place in 0..PARTS {
            if !left.is_zero() {
                (sum, left) = sum.put(place, left, fills);
            }
        }
        (sum, left)
    }

    /// The sum and a number, where the parts can take it.
    fn add(&self, number: Frac) -> Option<SplitSum>
        ensures { IfSome result (λ sum. sum ≡ self.now +ℚ number) }
    {
        let (shared, rest) = self.spread(number, false);
        let (sum, left) = shared.spread(rest, true);
        if left.is_zero() { Some(sum) } else { None }
    }

    /// The parts together, where the sum of the first ones always fits, or with rounding.
    fn together(&self, side: Side, rounds: bool) -> Option<Frac>
        ensures { IfSome result (Beside side self.now) }
    {
        sum_with(side, rounds, self.whole, &self.parts)
    }

    /// The sum and a product, where that fits and the parts can take it.
    fn add_exactly(&self, factor: Frac, times: Frac) -> Option<SplitSum>
        ensures { IfSome result (λ sum. sum ≡ self.now +ℚ factor *ℚ times) }
    {
        if !self.is_exact || self.looks > LOOKS {
            return None;
        }
        match exact_product(factor, times) {
            Some(product) => self.add(product),
            None => None,
        }
    }

    /// The sum and a product, rounded.
    fn add_rounded(&self, side: Side, factor: Frac, times: Frac) -> Option<SplitSum>
        ensures { IfSome result (Beside side (self.now +ℚ factor *ℚ times)) }
    {
        match self.together(side, true) {
            Some(sum) => match add_product(side, sum, factor, times) {
                Some(next) => Some(SplitSum::of(false, next)),
                None => None,
            },
            None => None,
        }
    }

    /// The sum and the product of two numbers: exactly while the parts can take it, then rounded to a side. None where even that doesn't
    /// fit.
    pub fn add_product(self, side: Side, factor: Frac, times: Frac) -> Option<SplitSum>
        ensures { IfSome result (Beside side (self +ℚ factor *ℚ times)) }
    {
        match self.add_exactly(factor, times) {
            Some(sum) => Some(sum),
            None => self.add_rounded(side, factor, times),
        }
    }

    /// The sum and the product of a number and another sum: exactly where that and the whole of the other one fit, else rounded to a side.
    pub fn add_times(self, side: Side, factor: Frac, times: SplitSum) -> Option<SplitSum>
        ensures { IfSome result (Beside side (self +ℚ factor *ℚ times)) }
    {
        let own = factor_side(side, factor);
        match times.exact_total(own) {
            Some(number) => self.add_product(side, factor, number),
            None => match times.together(own, true) {
                Some(number) => self.add_rounded(side, factor, number),
                None => None,
            },
        }
    }

    /// The sum as it is told: as it is where it is exact and fits, else rounded to a side, with fifteen places behind its point where
    /// its denominator is longer.
    pub fn told(self, side: Side) -> Option<Frac>
        ensures { IfSome result (Beside side self) }
    {
        match self.exact_total(side) {
            Some(total) => Some(total),
            None => self.rounded_total(side),
        }
    }

    /// The sum where nothing was rounded and it fits.
    fn exact_total(&self, side: Side) -> Option<Frac>
        ensures { IfSome result (Beside side self.now) }
    {
        if self.is_exact {
            self.together(side, false)
        } else {
            None
        }
    }

    fn rounded_total(&self, side: Side) -> Option<Frac>
        ensures { IfSome result (Beside side self.now) }
    {
        match self.together(side, true) {
            Some(total) => Some(shown_end(side, total)),
            None => None,
        }
    }
}
