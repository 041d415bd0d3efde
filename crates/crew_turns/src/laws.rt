//! Laws, as contracts of functions that do nothing.
ghost use Rattle.crew_turns.specs.Turn.{TurnsKeepValid};
ghost use Rattle.crew_turns.specs.Work.{TurnsAddCuts};
ghost use Rattle.crew_turns.specs.Order.{TurnsGoRound};
ghost use Rattle.crew_turns.specs.Besides.{TablesFitBesides};
ghost use Rattle.crew_turns.specs.Clear.{EventsKeepFair};
ghost use Rattle.crew_turns.specs.Alike.{CommitsAreTurns};
ghost use Rattle.crew_turns.specs.Crew.{CrewsTakeTurns};
ghost use Rattle.crew_turns.specs.Reads.{ReadsStay};
ghost use Rattle.crew_turns.specs.Rounds.{RoundsKeepClear};

/// A turn keeps a machine valid, and leaves no solve in flight.
pub fn turns_keep_valid()
    ensures { TurnsKeepValid }
{}

/// One worker takes the nodes by rising numbers, from the one on behind the node that was begun last, and then again from the root on.
pub fn turns_go_round()
    ensures { TurnsGoRound }
{}

/// Turns that leave a last solve and add no cut are at most as many, one behind the other, as there are live nodes.
pub fn turns_add_cuts()
    ensures { TurnsAddCuts }
{}

/// A machine stays fair by its events, where only clear nodes are begun.
pub fn events_keep_fair()
    ensures { EventsKeepFair }
{}

/// A commit of a solve whose reads are present is a turn of an idle machine.
pub fn commits_are_turns()
    ensures { CommitsAreTurns }
{}

/// Rounds of several workers keep solves in flight apart, though only the nodes above a node are looked at.
pub fn rounds_keep_clear()
    ensures { RoundsKeepClear }
{}

/// What solves in flight have read stays so until they end.
pub fn reads_stay()
    ensures { ReadsStay }
{}

/// What several workers leave is one run of turns.
pub fn crews_take_turns()
    ensures { CrewsTakeTurns }
{}

/// A table that fits a machine with solves in flight tells the same of one without any, and the end of a solve is a turn of that one.
pub fn tables_fit_besides()
    ensures { TablesFitBesides }
{}
