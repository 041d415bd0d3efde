//! Exact fractions of 128-bit numbers.
#![tactic(auto)]

mod digits;
mod fault;
mod form;
mod frac_step;
mod fraction;
mod literal;
mod memory;
mod passed;
mod significand;
mod term;
mod text;
mod unfinished;

pub use fault::ArithmeticFault;
pub use form::{Form, value_in};
pub use fraction::Frac;
pub use memory::Memory;
pub use passed::Passed;
pub use term::Term;
pub use text::{NumFault, literals_are_exact, parse, print};
pub use unfinished::Unfinished;
