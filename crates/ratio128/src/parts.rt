// Fractions as their parts, and the arithmetic on them.
ghost use Rattle.std.specs.Prelude.{◌≡◌, ◌≢◌, ℤ, pos, ◌<◌, ◌^◌, ◌/◌, IsTrue, ◌↔◌, neg_ℤ, ◌<ℤ◌};
ghost use Rattle.std.specs.Prelude.{unsigned_abs, int_div};
ghost use Rattle.std.specs.Prelude.{◌*ℤ◌, ◌+ℤ◌, ◌*◌, IfOk};
ghost use Rattle.std.specs.Option.{SomeIff};
ghost use Rattle.std.specs.Result.{OkIff};
ghost use Rattle.ratio128.specs.Ratio.{Fits, IsLowest, quotient, lowest, signed, sum_of, product_of, negated, IsShort, whole, inverted};
ghost use Rattle.ratio128.specs.Wide.{multiplied};

use crate::gcd::gcd_of;
use crate::wide::TooWide;
use std::marker::Model;

/// The parts of a fraction in lowest terms, both at most `i128::MAX` in size.
#[derive(Clone, Copy)]
pub struct Parts {
    pub num: i128,
    pub den: u128,
}

impl Model for Parts {
    ghost use Rattle.ratio128.specs.Ratio.{Ratio, IsFrac};

    ghost Value = { Ratio };

    ghost view = { λ f. record { num = f.num; den = f.den } };

    ghost invariant = { λ f. IsFrac f.num f.den };

    ghost inverse = { λ r. record { num = r.num; den = r.den } };
}

/// The factors of a product in lowest terms: `left` and `right` of its numerator, `below` and `beside`
/// of its denominator.
#[derive(Clone, Copy)]
pub struct Cross {
    pub left: i128,
    pub right: i128,
    pub below: u128,
    pub beside: u128,
}

const MAX: u128 = i128::MAX as u128;

const LOW: u128 = u64::MAX as u128;

pub fn with_sign(is_negative: bool, size: u128) -> i128
    requires { size < 2 ^ 127 }
    ensures { result ≡ signed is_negative size }
{
    if is_negative {
        -(size as i128)
    } else {
        size as i128
    }
}

const HALF: u128 = 0x8000_0000_0000_0000;

const SHORT: i128 = 1 << 62;

/// A product that fits.
fn times(a: i128, b: u128) -> Result<i128, TooWide>
    requires { b < 2 ^ 127 }
    ensures { OkIff result (unsigned_abs (a *ℤ pos b) < 2 ^ 127) (a *ℤ pos b) }
{
    if b < HALF && a.unsigned_abs() <= HALF {
        return Ok(a * b as i128);
    }
    match a.checked_mul(b as i128) {
        Some(product) if product != i128::MIN => Ok(product),
        _ => Err(TooWide),
    }
}

/// In 64 bits where both numbers have 64.
pub fn share(n: u128, g: u128) -> u128
    requires { 0 < g }
    ensures { result ≡ n / g }
{
    if g == 1 {
        n
    } else if n <= LOW && g <= LOW {
        (n as u64 / g as u64) as u128
    } else {
        n / g
    }
}

/// Rounded toward zero.
fn divide(a: i128, b: u128) -> i128
    requires above_zero { 0 < b }
    requires small { unsigned_abs a < 2 ^ 127 }
    ensures { result ≡ int_div a (pos b) }
{
    if b == 1 {
        a
    } else {
        with_sign(a < 0, share(a.unsigned_abs(), b))
    }
}

// Two numbers below this in size are added without a look at the sum.
const QUARTER: i128 = 1 << 125;

fn plus(a: i128, b: i128) -> Result<i128, TooWide>
    ensures { OkIff result (unsigned_abs (a +ℤ b) < 2 ^ 127) (a +ℤ b) }
{
    if -QUARTER <= a && a < QUARTER && -QUARTER <= b && b < QUARTER {
        return Ok(a + b);
    }
    match a.checked_add(b) {
        Some(sum) if sum != i128::MIN => Ok(sum),
        _ => Err(TooWide),
    }
}

/// `a * b + c * d`, or an error where that or a product may not fit.
fn sum_of_products(a: i128, b: u128, c: i128, d: u128) -> Result<i128, TooWide>
    requires first { b < 2 ^ 127 }
    requires second { d < 2 ^ 127 }
    ensures { IfOk result (λ t. (unsigned_abs t < 2 ^ 127) × (t ≡ a *ℤ pos b +ℤ c *ℤ pos d)) }
{
    let left = times(a, b)?;
    let right = times(c, d)?;
    plus(left, right)
}

#[inline(always)]
pub fn signed_product(a: i128, b: i128) -> Result<i128, TooWide>
    ensures { OkIff result (unsigned_abs (a *ℤ b) < 2 ^ 127) (a *ℤ b) }
{
    if a.unsigned_abs() < HALF && b.unsigned_abs() < HALF {
        return Ok(a * b);
    }
    match a.checked_mul(b) {
        Some(product) if product != i128::MIN => Ok(product),
        _ => Err(TooWide),
    }
}

pub fn product(a: u128, b: u128) -> Result<u128, TooWide>
    ensures { OkIff result (a * b < 2 ^ 127) (a * b) }
{
    if a < HALF && b < HALF {
        return Ok(a * b);
    }
    match a.checked_mul(b) {
        Some(product) if product <= MAX => Ok(product),
        _ => Err(TooWide),
    }
}

impl Parts {
    pub fn from_int(n: i64) -> Parts
        ensures { result ≡ whole n }
    {
        Parts {
            num: n as i128,
            den: 1,
        }
    }

    /// `num` over `den`, or `None` where the lowest terms do not fit.
    pub fn new(num: i128, den: i128) -> Option<Parts>
        requires { den ≢ pos 0 }
        ensures { SomeIff result (Fits (quotient num den)) (quotient num den) }
    {
        let is_negative = (num < 0) != (den < 0);
        Parts::from_sizes(is_negative, num.unsigned_abs(), den.unsigned_abs())
    }

    /// The fraction of that sign and of the sizes `num` over `den`.
    pub fn from_sizes(is_negative: bool, num: u128, den: u128) -> Option<Parts>
        requires { 0 < den }
        ensures { SomeIff result (Fits (lowest (signed is_negative num) den)) (lowest (signed is_negative num) den) }
    {
        let common = gcd_of(num, den);
        let size = share(num, common);
        let below = share(den, common);
        if size > MAX {
            return None;
        }
        if below > MAX {
            return None;
        }
        Some(Parts {
            num: with_sign(is_negative, size),
            den: below,
        })
    }

    /// The sum, which passes where its lowest terms do not fit.
    #[inline(always)]
    pub fn add(self, other: Parts) -> Result<Parts, TooWide>
        ensures { OkIff result (Fits (sum_of self other)) (sum_of self other) }
    {
        if self.den == 1 && other.den == 1 {
            let whole = plus(self.num, other.num)?;
            return Ok(Parts { num: whole, den: 1 });
        }
        self.add_fractions(other)
    }

    // A function and a match of its own, so that memory for this result is made ready only here and not
    // before each sum of whole numbers.
    #[inline(always)]
    fn add_fractions(self, other: Parts) -> Result<Parts, TooWide>
        ensures { OkIff result (Fits (sum_of self other)) (sum_of self other) }
    {
        match self.add_over_common_den(other) {
            Ok(sum) => Ok(sum),
            Err(_) => self.add_rarely(other),
        }
    }

    // A function and a match of its own, so that copies for that call are made only where it is called.
    #[inline(always)]
    fn add_rarely(self, other: Parts) -> Result<Parts, TooWide>
        ensures { OkIff result (Fits (sum_of self other)) (sum_of self other) }
    {
        match self.add_widened(other) {
            Ok(sum) => Ok(sum),
            Err(too_wide) => Err(too_wide),
        }
    }

    /// The sum, by the least common denominator, or an error where 128 bits do not do on the way.
    #[inline(never)]
    fn add_over_common_den(self, other: Parts) -> Result<Parts, TooWide>
        ensures { IfOk result (λ p. Fits (sum_of self other) × (p ≡ sum_of self other)) }
    {
        let common = gcd_of(self.den, other.den);
        let below = share(self.den, common);
        let across = share(other.den, common);
        let sum = sum_of_products(self.num, across, other.num, below)?;
        let rest = gcd_of(sum.unsigned_abs(), common);
        let beside = share(other.den, rest);
        let den = product(below, beside)?;
        Ok(Parts {
            num: divide(sum, rest),
            den,
        })
    }

    /// The product, which passes where its lowest terms do not fit.
    #[inline(always)]
    pub fn mul(self, other: Parts) -> Result<Parts, TooWide>
        ensures { OkIff result (Fits (product_of self other)) (product_of self other) }
    {
        if self.den == 1 && other.den == 1 {
            let whole = signed_product(self.num, other.num)?;
            return Ok(Parts { num: whole, den: 1 });
        }
        self.mul_fractions(other)
    }

    // As `add_fractions`.
    #[inline(always)]
    fn mul_fractions(self, other: Parts) -> Result<Parts, TooWide>
        ensures { OkIff result (Fits (product_of self other)) (product_of self other) }
    {
        match self.mul_across(other) {
            Ok(product) => Ok(product),
            Err(too_wide) => Err(too_wide),
        }
    }

    /// The product, by what each numerator shares with the other denominator.
    #[inline(never)]
    fn mul_across(self, other: Parts) -> Result<Parts, TooWide>
        ensures { OkIff result (Fits (product_of self other)) (product_of self other) }
    {
        let cross = self.crossed(other);
        let num = signed_product(cross.left, cross.right)?;
        let den = product(cross.below, cross.beside)?;
        Ok(Parts { num, den })
    }

    /// The factors of the product's lowest terms.
    #[inline(always)]
    pub(crate) fn crossed(self, other: Parts) -> Cross
        ensures lowest { IsLowest (product_of self other) }
        ensures value { product_of self other ≡ multiplied result }
    {
        let first = gcd_of(self.num.unsigned_abs(), other.den);
        let second = gcd_of(other.num.unsigned_abs(), self.den);
        Cross {
            left: divide(self.num, first),
            right: divide(other.num, second),
            below: share(self.den, second),
            beside: share(other.den, first),
        }
    }

    /// Whether the number is whole and has at most 63 bits with its sign: -2^62 to 2^62 - 1.
    #[inline(always)]
    pub fn is_short(self) -> bool
        ensures { IsTrue result → IsShort self }
    {
        self.den == 1 && -SHORT <= self.num && self.num < SHORT
    }

    /// The number and a product, added, where all three are whole and short: the sum always fits.
    #[inline(always)]
    pub fn short_step(self, factor: Parts, times: Parts) -> Parts
        requires from { IsShort self }
        requires factor { IsShort factor }
        requires times { IsShort times }
        ensures fits { Fits result }
        ensures is { result ≡ sum_of self (product_of factor times) }
    {
        Parts {
            num: self.num + factor.num * times.num,
            den: 1,
        }
    }

    /// One over the number.
    pub fn invert(self) -> Parts
        requires { self.num ≢ pos 0 }
        ensures { result ≡ inverted self }
    {
        Parts {
            num: with_sign(self.num < 0, self.den),
            den: self.num.unsigned_abs(),
        }
    }

    pub fn negate(self) -> Parts
        ensures { result ≡ negated self }
    {
        Parts {
            num: -self.num,
            den: self.den,
        }
    }
}
