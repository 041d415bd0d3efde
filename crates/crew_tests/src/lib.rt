//! Tests of several workers: what they leave is what one worker leaves.
#![tactic(auto)]

#[cfg(test)]
mod tests;
