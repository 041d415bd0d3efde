//! Tests of tables of words, of the words of a command, of the outside, and of the texts of a made program.
#![tactic(auto)]

#[cfg(test)]
mod commands;
#[cfg(test)]
mod outside;
#[cfg(test)]
mod tables;
#[cfg(test)]
mod workloads;
