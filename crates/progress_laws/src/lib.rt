//! What the runs of the nested method come to on a program, and its way through a script of edits and reports. No code that runs.
#![tactic(auto)]

ghost use Rattle.progress_laws.specs.Apart.{SolvesApartStay};
ghost use Rattle.progress_laws.specs.Laws.{ClosedRunsMeet, RunsGoOn, EndsAreSettled, NeverRefuses};
ghost use Rattle.progress_laws.specs.Finished.{EndsAreFinished};
ghost use Rattle.progress_laws.specs.Settled.{SettledClaimsHold};
ghost use Rattle.progress_laws.specs.Stuck.{SolvesAreUsed, OpeningsAreMade, NeverStuck};
ghost use Rattle.progress_laws.specs.WhereMet.{ReasonsWereMet};
ghost use Rattle.progress_laws.specs.Ways.{WaysBegin, SolvesKeepWay, WaysHaveNumbers, ReportsKeepWay, EditsKeepWay};

/// A closed Cost run that nothing stops has both ends, and they are equal: the least cost is found.
pub fn closed_runs_meet()
    ensures { ClosedRunsMeet }
{}

/// Where something is left to find and nothing stops the method, a node may be begun, or the run is closed and another one follows it.
pub fn runs_go_on()
    ensures { RunsGoOn }
{}

/// So the method comes to an end only where nothing is left to find.
pub fn ends_are_settled()
    ensures { EndsAreSettled }
{}

/// A cut that a solve gives is never refused by the pool of its node.
pub fn never_refuses()
    ensures { NeverRefuses }
{}

/// While something is left to find the method is never stuck behind a solve.
pub fn solves_are_used()
    ensures { SolvesAreUsed }
{}

/// Nor is it before the run behind a closed one, which opens.
pub fn openings_are_made()
    ensures { OpeningsAreMade }
{}

/// So what stops the method is never told as a number of solves, as it would be where it is stuck.
pub fn never_stuck()
    ensures { NeverStuck }
{}

/// Where a run shows its finding, what is claimed of the program holds, unless an operation passes in the assembly of its multipliers.
pub fn settled_claims_hold()
    ensures { SettledClaimsHold }
{}

/// A report is left open by the number of solves only where they are spent.
pub fn ends_are_finished()
    ensures { EndsAreFinished }
{}

/// A method begins on its way through a script.
pub fn ways_begin()
    ensures { WaysBegin }
{}

/// Solves keep it on its way.
pub fn solves_keep_way()
    ensures { SolvesKeepWay }
{}

/// On its way there are numbers for all solves and changes of pools.
pub fn ways_have_numbers()
    ensures { WaysHaveNumbers }
{}

/// A report that is told keeps the method on its way.
pub fn reports_keep_way()
    ensures { ReportsKeepWay }
{}

/// An edit does so too: the cuts that are left behind it are made of the data of the program after it.
pub fn edits_keep_way()
    ensures { EditsKeepWay }
{}

/// An operation that a state keeps of a cut or of a cost passed behind the solve with its number, on the way to the state.
pub fn reasons_were_met()
    ensures { ReasonsWereMet }
{}

/// A solve that was begun stays as it was begun where a node apart from its own is solved before it ends.
pub fn solves_apart_stay()
    ensures { SolvesApartStay }
{}
