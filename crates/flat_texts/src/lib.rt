//! Tests of programs as one core file, by hand.
#![tactic(auto)]

#[cfg(test)]
mod meant;
#[cfg(test)]
mod tests;
