// Sums over a denominator that isn't the least.
ghost use Rattle.std.specs.Prelude.{◌≡◌, ◌*◌, ◌*ℤ◌, ◌+ℤ◌, ◌<◌, ◌^◌, pos, unsigned_abs, IfSome};
ghost use Rattle.rationals.specs.Rational.{◌÷◌, ◌+ℚ◌, ◌*ℚ◌, zero_ℚ};
ghost use Rattle.rationals.specs.Passes.{add_product_walk, IsNarrow};

use frac128::{Frac, Passed};
use std::marker::Model;

/// A fraction that need not be in lowest terms, of two parts that are at most `i128::MAX` in size.
#[derive(Drop)]
pub struct Unreduced {
    num: i128,
    den: u128,
}

impl Model for Unreduced {
    ghost use Rattle.rationals.specs.Rational.{ℚ, ◌÷◌};

    ghost Value = { ℚ };

    ghost use Rattle.cut_sums.specs.Unreduced.{IsUnreduced};

    ghost view = { λ s. s.num ÷ s.den };

    ghost invariant = { λ s. IsUnreduced s.num s.den };
}

// Two numbers below this in size have a product below 2^126.
const HALF: u128 = 0x8000_0000_0000_0000;

/// The product of numbers that are below 2^63 in size.
fn short_product(a: i128, b: i128) -> Option<i128>
    ensures { IfSome result (λ product. product ≡ a *ℤ b) }
{
    if a.unsigned_abs() < HALF && b.unsigned_abs() < HALF {
        Some(a * b)
    } else {
        None
    }
}

/// The product of numbers that are below 2^63.
fn size_product(a: u128, b: u128) -> Option<u128>
    ensures product { IfSome result (λ product. product ≡ a * b) }
    ensures small { IfSome result (λ product. product < 2 ^ 127) }
{
    if a < HALF && b < HALF {
        Some(a * b)
    } else {
        None
    }
}

/// A number some times over.
fn repeated(number: i128, times: u128) -> Option<i128>
    ensures { IfSome result (λ product. product ≡ number *ℤ pos times) }
{
    if times == 1 {
        Some(number)
    } else if times < HALF {
        short_product(number, times as i128)
    } else {
        None
    }
}

/// The sum, where it is at most `i128::MAX` in size.
fn sum_of(a: i128, b: i128) -> Option<i128>
    ensures sum { IfSome result (λ sum. sum ≡ a +ℤ b) }
    ensures small { IfSome result (λ sum. unsigned_abs sum < 2 ^ 127) }
{
    match a.checked_add(b) {
        Some(sum) if sum != i128::MIN => Some(sum),
        _ => None,
    }
}

/// Rounded down, in 64 bits where both numbers have 64.
fn quotient(a: u128, b: u128) -> u128
    requires { 0 < b }
{
    if a < HALF && b < HALF {
        (a as u64 / b as u64) as u128
    } else {
        a / b
    }
}

impl Unreduced {
    /// 0.
    pub fn zero() -> Unreduced
        ensures { result ≡ zero_ℚ }
    {
        Unreduced { num: 0, den: 1 }
    }

    /// The number.
    fn of(number: Frac) -> Unreduced
        ensures { result ≡ number }
    {
        Unreduced {
            num: number.num(),
            den: number.den() as u128,
        }
    }

    /// Tells that the parts of the lowest terms are at most `i128::MAX` in size.
    fn keeps_size(&self)
        ensures { IsNarrow self.now }
    {
        let _num = self.num;
    }

    /// The number in lowest terms.
    pub fn reduced(&self) -> Frac
        ensures { result ≡ self.now }
    {
        match Frac::new(self.num, self.den as i128) {
            Some(number) => number,
            None => unreachable!(),
        }
    }

    /// The sum with `num` over `den`, where the denominators times these factors are the same.
    fn over(&self, own: u128, num: i128, den: u128, across: u128) -> Option<Unreduced>
        requires own { 0 < own }
        requires den { 0 < den }
        ensures { IfSome result (λ sum. sum ≡ self.now +ℚ num ÷ den) }
    {
        let common = size_product(self.den, own)?;
        let also = size_product(den, across)?;
        if common != also {
            return None;
        }
        let left = repeated(self.num, own)?;
        let right = repeated(num, across)?;
        let sum = sum_of(left, right)?;
        Some(Unreduced {
            num: sum,
            den: common,
        })
    }

    /// The sum with `num` over `den`, over the least common denominator.
    #[cold]
    fn widened(&self, num: i128, den: u128) -> Option<Unreduced>
        requires den { 0 < den }
        requires small { den < 2 ^ 127 }
        ensures { IfSome result (λ sum. sum ≡ self.now +ℚ num ÷ den) }
    {
        match Frac::new(self.den as i128, den as i128) {
            Some(between) => self.over(
                between.den() as u128,
                num,
                den,
                between.num().unsigned_abs(),
            ),
            None => None,
        }
    }

    /// The sum with `num` over `den`, or nothing where a number on the way is large.
    fn plus(&self, num: i128, den: u128) -> Option<Unreduced>
        requires den { 0 < den }
        requires small { den < 2 ^ 127 }
        ensures { IfSome result (λ sum. sum ≡ self.now +ℚ num ÷ den) }
    {
        let across = quotient(self.den, den);
        match self.over(1, num, den, across) {
            Some(sum) => Some(sum),
            None => self.widened(num, den),
        }
    }

    /// The sum with a product, or nothing where a number on the way is large.
    fn step(&self, factor: Frac, times: Frac) -> Option<Unreduced>
        ensures { IfSome result (λ sum. sum ≡ self.now +ℚ factor *ℚ times) }
    {
        let num = short_product(factor.num(), times.num())?;
        let den = size_product(factor.den() as u128, times.den() as u128)?;
        self.plus(num, den)
    }

    /// The sum with a product, by lowest terms.
    #[cold]
    fn reduced_step(&self, factor: Frac, times: Frac) -> Result<Unreduced, Passed>
        ensures { result ≡ add_product_walk self.now factor times }
    {
        let sum = self.reduced().add_product(factor, times)?;
        Ok(Unreduced::of(sum))
    }

    /// The number and a product, which passes where a part of the lowest terms of the sum is above `i128::MAX` in size.
    pub fn add_product(self, factor: Frac, times: Frac) -> Result<Unreduced, Passed>
        ensures { result ≡ add_product_walk self factor times }
    {
        if factor.is_zero() || times.is_zero() {
            self.keeps_size();
            return Ok(self);
        }
        match self.step(factor, times) {
            Some(sum) => {
                sum.keeps_size();
                Ok(sum)
            }
            None => self.reduced_step(factor, times),
        }
    }
}
