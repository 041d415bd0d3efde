//! What a report says of its program, however it was found. No code that runs.
#![tactic(auto)]

ghost use Rattle.report_defs.specs.Laws.{EqualEndsAreBest};

/// A report whose ends are shown and equal has a feasible policy that costs as much, and no feasible point costs less.
pub fn equal_ends_are_best()
    ensures { EqualEndsAreBest }
{}
