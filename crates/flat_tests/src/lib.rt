//! Tests of the flat calls on programs that are read from core files, beside plain sums and by what reports
//! carry, and on a program on a tree.
#![tactic(auto)]

#[cfg(test)]
mod certificates;
#[cfg(test)]
mod claims;
#[cfg(test)]
mod rows;
#[cfg(test)]
mod tests;
#[cfg(test)]
mod tree;
