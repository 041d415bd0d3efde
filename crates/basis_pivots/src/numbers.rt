//! What a matrix is factored over.

/// The least entry that elimination keeps.
const CLEARED: f64 = 1e-14;

/// The least entry that may be a pivot.
const WEAK: f64 = 1e-11;

/// Numbers that a matrix is factored over.
pub trait Number: Copy {
    /// The number that adds nothing.
    fn zero() -> Self;

    /// Whether it is 0.
    fn is_zero(self) -> bool;

    /// How large it is, for the threshold: in a finite field all but 0 are alike.
    fn size(self) -> f64;

    /// The product.
    fn times(self, other: Self) -> Self;

    /// The number less the product of two others.
    fn less_product(self, a: Self, b: Self) -> Self;

    /// What gives 1 with it.
    fn inverse(self) -> Self;

    /// Whether it counts as 0 behind a subtraction.
    fn is_cleared(self) -> bool;

    /// Whether it is too small for a pivot.
    fn is_weak(self) -> bool;
}

impl Number for f64 {
    #[inline(always)]
    fn zero() -> f64 {
        0.0
    }

    #[inline(always)]
    fn is_zero(self) -> bool {
        self == 0.0
    }

    #[inline(always)]
    fn size(self) -> f64 {
        if self < 0.0 { -self } else { self }
    }

    #[inline(always)]
    fn times(self, other: f64) -> f64 {
        self * other
    }

    #[inline(always)]
    fn less_product(self, a: f64, b: f64) -> f64 {
        self - a * b
    }

    #[inline(always)]
    fn inverse(self) -> f64 {
        1.0 / self
    }

    #[inline(always)]
    fn is_cleared(self) -> bool {
        self < CLEARED && self > -CLEARED
    }

    #[inline(always)]
    fn is_weak(self) -> bool {
        !(self >= WEAK || self <= -WEAK)
    }
}
