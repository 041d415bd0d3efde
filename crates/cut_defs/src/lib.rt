//! Cuts: their sums, when they are sound, and the flat dual of one.
#![tactic(auto)]

mod datum;
mod kinds;
mod versions;

ghost use Rattle.cut_defs.specs.Laws.{CutsAreSound, FlatsAreGood, GroundCutsAreMade, StoredCutsAreSound, StoredFlatsAreGood};
ghost use Rattle.cut_defs.specs.Laws.{FlatsAreSumsOverWays, EndsMeet, RepairsAreMade, RaysShowInfeasible, SupportLaws, CutsAreMadeFor};

pub use datum::{ColumnBounds, Share};
pub use kinds::{Bank, CutKind, Part};
pub use versions::{Due, Shift, Stamp, Touch};

/// A cut that is made is a lower bound on what its node and the nodes below it cost.
pub fn cuts_are_sound()
    ensures { CutsAreSound }
{}

/// The weights of a root cut, passed down, give multipliers that are good and worth at least its constant.
pub fn flats_are_good()
    ensures { FlatsAreGood }
{}

/// A good flat dual, divided by the totals, gives one cut for each live node, which is made and so sound.
pub fn ground_cuts_are_made()
    ensures { GroundCutsAreMade }
{}

/// A cut that is kept with its sums is sound after every number of edits at which its versions are the present ones.
pub fn stored_cuts_are_sound()
    ensures { StoredCutsAreSound }
{}

/// And so is its flat dual good, and worth at least its constant.
pub fn stored_flats_are_good()
    ensures { StoredFlatsAreGood }
{}

/// The flat dual is the sum over all ways down.
pub fn flats_are_sums_over_ways()
    ensures { FlatsAreSumsOverWays }
{}

/// Where the nodes' numbers cover the costs of a feasible point and a root cut reaches the root's, both ends are equal.
pub fn ends_meet()
    ensures { EndsMeet }
{}

/// The repair of a made cut is made.
pub fn repairs_are_made()
    ensures { RepairsAreMade }
{}

/// A root Ray cut whose constant is above 0 shows that nothing is feasible.
pub fn rays_show_infeasible()
    ensures { RaysShowInfeasible }
{}

/// What the support of a cut says: which data the cut rests on, and that it is sound while they are the present ones.
pub fn supports_are_exact()
    ensures { SupportLaws }
{}

/// A record with its sums over a book's data, and used cuts that are made for the book, is made for it.
pub fn cuts_are_made_for()
    ensures { CutsAreMadeFor }
{}
