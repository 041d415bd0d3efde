//! Fractions of 128-bit parts: their arithmetic, through 256 bits where 128 do not do, and comparisons.
#![tactic(auto)]

mod gcd;
mod order;
mod parts;
mod step;
mod wide;
mod wide_parts;

pub use order::compare_products;
pub use parts::Parts;
pub use wide::TooWide;
