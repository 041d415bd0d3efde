//! Tests of the simplex method, of rows as equations, and of multipliers that show that there is no point.
#![tactic(auto)]

#[cfg(test)]
mod paths;
#[cfg(test)]
mod rays;
#[cfg(test)]
mod slacks;
