//! Tests of what no case shows: that the library for command lines finds nothing wrong with the words of commands, and what is said of a
//! run while it goes on.
#![tactic(auto)]

#[cfg(test)]
mod lines;
#[cfg(test)]
mod words;
