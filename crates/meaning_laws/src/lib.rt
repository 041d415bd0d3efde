//! Cores with the same parts mean the same with all further files. No code that runs.
#![tactic(auto)]

ghost use Rattle.meaning_laws.specs.Law.{SameCoresMeanTheSame, CoreFilesDontExceed};

/// Of cores with the same parts, a time file and a stoch file mean the same, and so does what is built of them. Two cores that a text
/// means have the same parts, though they may stand at other places of memory.
pub fn same_cores_mean_the_same()
    ensures { SameCoresMeanTheSame }
{}

/// The program of a core file alone is within the limits of scenarios, nodes, entries, rows and costs.
pub fn core_files_dont_exceed()
    ensures { CoreFilesDontExceed }
{}
