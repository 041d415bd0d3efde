//! Tests of the program of a weighted mean and conditional value at risk: what it costs, by hand and as published, and its refusals.
#![tactic(auto)]

#[cfg(test)]
mod tests;
