//! What a watcher sees of the method.

use crate::state::State;
use found_ends::{Bounded, Priced};
use frac128::Frac;
use run_watch::Seen;

fn cost(priced: &Priced) -> Frac {
    priced.cost
}

fn value(bounded: &Bounded) -> Frac {
    bounded.value
}

impl State {
    /// What a watcher sees of it.
    pub fn seen(&self) -> Seen {
        Seen {
            kind: self.kind,
            round: self.table.round(),
            waiting: self.table.waiting(),
            solves: self.counts.since_report,
            lower: self.ends.lower.as_ref().map(value),
            upper: self.ends.upper.as_ref().map(cost),
        }
    }
}
