//! Exact fractions for people: as decimals of 12 significant digits, as floats, and how far two of them lie apart.
#![tactic(auto)]

mod apart;
mod digits;
mod floats;
mod rounded;
mod text;

pub use apart::put_apart;
pub use floats::{float, float_difference};
pub use rounded::{Decimal, rounded_is_nearest};
pub use text::print_decimal;
