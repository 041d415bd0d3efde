//! The builder's loop makes the program that is meant. No code that runs.
#![tactic(auto)]

ghost use Rattle.build_laws.specs.Law.{BuiltIsMeant};

/// The program that the builder's loop makes of a core, its periods and its cases is the one that they mean, and too much of it is
/// found exactly where there is too much.
pub fn built_is_meant()
    ensures { BuiltIsMeant }
{}
