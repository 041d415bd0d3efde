//! Tests of the programs by which information is valued: what they cost, by hand and as published.
#![tactic(auto)]

#[cfg(test)]
mod tests;
