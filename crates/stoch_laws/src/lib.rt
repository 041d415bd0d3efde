//! What reading a stoch file gives is what its lines mean together.
#![tactic(auto)]

ghost use Rattle.stoch_laws.specs.Law.{StochMeaningLaw};

/// What is read of a stoch file line by line is what all of its lines mean together.
pub fn stoch_files_mean_their_lines()
    ensures { StochMeaningLaw }
{}
