//! Whether nothing is left to find in a run, and why.
ghost use Rattle.std.specs.Prelude.{◌≡◌, ◌&&◌};
ghost use Rattle.found_ends.specs.Ends.{falls};
ghost use Rattle.found_ends.specs.Settled.{where_so, shown, ended, why_open};

use crate::ends::Ends;
use proved_report::Open;
use scen_defs::Kind;

/// Why nothing is left to find.
#[derive(Clone, Copy, Debug, PartialEq, Eq)]
pub enum Settled {
    /// The root has no point although all costs are 0.
    Infeasible,
    /// A direction costs less than 0.
    Unbounded,
    /// Both ends are there and equal.
    Optimal,
    /// The method can't go on.
    Stopped,
    /// The solves that are allowed have ended.
    Spent,
}

/// The case, where it holds.
fn where_so(holds: bool, case: Settled) -> Option<Settled>
    ensures { result ≡ where_so holds case }
{
    if holds { Some(case) } else { None }
}

/// Whether the run is closed, and its direction costs less than 0.
fn is_falling(is_closed: bool, ends: &Ends) -> bool
    ensures { result ≡ (is_closed && falls ends.now.direction) }
{
    if is_closed { ends.falls() } else { false }
}

/// What a run of a kind shows by its ends, where all nodes are up to date or not.
pub fn shown(kind: Kind, is_closed: bool, ends: &Ends) -> Option<Settled>
    ensures { result ≡ shown kind is_closed ends.now }
{
    match kind {
        Kind::Feasible => where_so(ends.nowhere.is_some(), Settled::Infeasible),
        Kind::Recession => where_so(is_falling(is_closed, ends), Settled::Unbounded),
        Kind::Cost => where_so(ends.meet(), Settled::Optimal),
    }
}

/// What ends the method, where something does: why it can't go on, or that as many solves were counted as are allowed.
pub fn ended(stop: Option<Open>, counted: u64, allowed: u64) -> Option<Settled>
    ensures { result ≡ ended stop counted allowed }
{
    match stop {
        Some(_why) => Some(Settled::Stopped),
        None => where_so(counted >= allowed, Settled::Spent),
    }
}

/// Why a report is open, if it is: why the method can't go on, or that so many solves were allowed.
pub fn why_open(stop: Option<Open>, allowed: u64) -> Open
    ensures { result ≡ why_open stop allowed }
{
    match stop {
        Some(why) => why,
        None => Open::Solves(allowed),
    }
}
