//! What is built of a core, its periods and its cases keeps what programs keep.
ghost use Rattle.tree_build.specs.Law.{BuiltArePrograms, ReadCasesHold, ReadPeriodsAreNamed};

/// The program of a core, of 1 to 16 periods that keep the triangle and have names that are fields and differ, and of cases that keep it
/// and have probabilities above 0, keeps all that programs keep, where it is within the limits.
pub fn built_are_programs()
    ensures { BuiltArePrograms }
{}

/// The cases that are read of a stoch file keep the triangle and have probabilities above 0, which add up to 1; the parents of
/// scenarios come before them.
pub fn read_cases_hold()
    ensures { ReadCasesHold }
{}

/// The names of the periods that are read of a time file are fields: at least one byte, none of them a blank or a line feed.
pub fn read_periods_are_named()
    ensures { ReadPeriodsAreNamed }
{}
