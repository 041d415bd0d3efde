//! Tests of fractions: their texts, operations at the edges of 128 bits, and how far two of them lie apart.
#![tactic(auto)]

#[cfg(test)]
mod apart;
#[cfg(test)]
mod literals;
#[cfg(test)]
mod operations;
