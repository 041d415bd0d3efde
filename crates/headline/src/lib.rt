//! What `solve` and `check` say of a program, in the words of linear programming; and that true reports say what is so. No code that runs.
#![tactic(auto)]

ghost use Rattle.headline.specs.Laws.{TrueReportsAreSo, HeldReportsAreSo, RisksAreLeast, BestIsLeast};

/// What a report that is true of a program says of it is so, for whatever reasons the report may be open; and so is what a report says of
/// which all claims hold. Both are so of the program with another cost too, by the program that is made for that.
pub fn true_reports_are_so()
    ensures solved { TrueReportsAreSo }
    ensures checked { HeldReportsAreSo }
    ensures risk { RisksAreLeast }
{}

/// A report has a best policy exactly where its policy is least, at its upper end.
pub fn best_is_least()
    ensures { BestIsLeast }
{}
