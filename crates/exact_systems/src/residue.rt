//! Integers modulo the prime 2^61 - 1.

use basis_factors::Number;

/// The prime.
pub(crate) const PRIME: u64 = 2305843009213693951;

const BASE: u128 = 2305843009213693952;

/// An integer modulo the prime.
#[derive(Clone, Copy)]
pub(crate) struct Residue {
    value: u64,
}

/// The remainder of a number: its digits to the base 2^61, which is 1 more than the prime, are added.
fn folded(n: u128) -> Residue {
    let low = (n % BASE) as u64;
    let middle = ((n >> 61) % BASE) as u64;
    let high = ((n >> 122) % 64) as u64;
    let sum = low.wrapping_add(middle).wrapping_add(high);
    let sum = (sum % (PRIME + 1)).wrapping_add(sum >> 61);
    let value = if sum >= PRIME { sum - PRIME } else { sum };
    Residue { value }
}

/// Whether a number modulo 2^128 stands for one below 0.
fn is_below_zero(n: u128) -> bool {
    n >> 127 == 1
}

impl Residue {
    pub(crate) fn none() -> Residue {
        Residue { value: 0 }
    }

    pub(crate) fn one() -> Residue {
        Residue { value: 1 }
    }

    /// The residue of a natural number.
    pub(crate) fn of(n: u128) -> Residue {
        folded(n)
    }

    /// The residue of an integer from -2^127 on to below 2^127 that is given modulo 2^128.
    pub(crate) fn of_signed(n: u128) -> Residue {
        if is_below_zero(n) {
            let size = folded(0u128.wrapping_sub(n));
            Residue::none().less(size)
        } else {
            folded(n)
        }
    }

    /// The least number from 0 on with this residue.
    pub(crate) fn value(self) -> u64 {
        self.value
    }

    fn less(self, other: Residue) -> Residue {
        let sum = PRIME.wrapping_sub(other.value).wrapping_add(self.value);
        folded(sum as u128)
    }

    pub(crate) fn product(self, other: Residue) -> Residue {
        folded(self.value as u128 * other.value as u128)
    }

    /// The power with the exponent 2^61 - 3, which is one over the residue where that isn't 0.
    pub(crate) fn inverted(self) -> Residue {
        let mut all = Residue::one();
        let mut square = self;
        let mut left = PRIME - 2;
        for _bit in 0..61 {
            if left % 2 == 1 {
                all = all.product(square);
            }
            square = square.product(square);
            left /= 2;
        }
        all
    }
}

impl Number for Residue {
    #[inline(always)]
    fn zero() -> Residue {
        Residue::none()
    }

    #[inline(always)]
    fn is_zero(self) -> bool {
        self.value == 0
    }

    #[inline(always)]
    fn size(self) -> f64 {
        if self.value == 0 { 0.0 } else { 1.0 }
    }

    #[inline(always)]
    fn times(self, other: Residue) -> Residue {
        self.product(other)
    }

    #[inline(always)]
    fn less_product(self, a: Residue, b: Residue) -> Residue {
        let product = PRIME.wrapping_sub(a.value) as u128 * b.value as u128;
        folded(product.wrapping_add(self.value as u128))
    }

    #[inline(always)]
    fn inverse(self) -> Residue {
        self.inverted()
    }

    #[inline(always)]
    fn is_cleared(self) -> bool {
        self.value == 0
    }

    #[inline(always)]
    fn is_weak(self) -> bool {
        self.value == 0
    }
}
