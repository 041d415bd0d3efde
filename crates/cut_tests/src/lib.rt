//! Tests by hand of cuts, pools and assemblies on a node with one row, of the solve of a node, and of the table of a run.
#![tactic(auto)]

#[cfg(test)]
mod cuts;
#[cfg(test)]
mod fixtures;
#[cfg(test)]
mod guesses;
#[cfg(test)]
mod node;
#[cfg(test)]
mod pools;
#[cfg(test)]
mod table;
