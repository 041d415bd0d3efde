//! What pools keep.
ghost use Rattle.kept_cut_laws.specs.Laws.{NothingIsStale, SolvesGiveCuts, OffersKeepCuts, FirstCutsAreKept, EditsKeepCuts, DuesAreFew};

/// No cut that is up to date rests on a touch that such a pool knows.
pub fn nothing_is_stale()
    ensures { NothingIsStale }
{}

/// The cut that a solve gives is up to date, where those of its task are.
pub fn solves_give_cuts()
    ensures { SolvesGiveCuts }
{}

/// Pools to which such a cut is offered keep nothing but cuts that are up to date.
pub fn offers_keep_cuts()
    ensures { OffersKeepCuts }
{}

/// So do pools with the first cuts of a run.
pub fn first_cuts_are_kept()
    ensures { FirstCutsAreKept }
{}

/// Behind an edit the pools keep nothing but cuts that are made of the data of the program after it, and up to date.
pub fn edits_keep_cuts()
    ensures { EditsKeepCuts }
{}

/// An edit has few sweeps.
pub fn dues_are_few()
    ensures { DuesAreFew }
{}
