//! Who watches a run, and lends it workers. Nothing that a run finds rests on who watches.

use frac128::Frac;
use scen_defs::Kind;
use std::thread::Threads;

/// What is seen of the nested method before it solves a node.
#[derive(Clone, Copy, Debug)]
pub struct Seen {
    /// What the method looks for at present.
    pub kind: Kind,
    /// Which round over the tree this is since it looks for that, counted from 1.
    pub round: u64,
    /// How many nodes wait: their last solves didn't know what is known now, or there are none.
    pub waiting: u64,
    /// How many nodes it solved since the last report, one as often as it was solved.
    pub solves: u64,
    /// The lower end of the least cost, where there is one so far.
    pub lower: Option<Frac>,
    /// The upper end of the least cost, where there is one so far.
    pub upper: Option<Frac>,
}

/// Watches a run, and lends it the threads in which several workers solve nodes side by side.
pub trait Watch {
    /// What starts threads.
    type Host: Threads + Sync;

    /// Nothing is to be said of the run.
    fn be_quiet(&mut self);

    /// Whether it is time to look. This is asked before each solve of a node, so it has to be quick.
    fn is_due(&mut self) -> bool;

    /// The nested method goes on.
    fn see(&mut self, seen: Seen);

    /// All nodes are solved together.
    fn see_whole(&mut self);

    /// The run has ended.
    fn see_end(&mut self);

    /// So many workers are to solve nodes side by side.
    fn employ(&mut self, workers: u32);

    /// How many workers solve nodes side by side: 1 before any were employed.
    fn workers(&self) -> u32;

    /// What starts their threads.
    fn host(&self) -> &Self::Host;
}

/// Nobody watches.
#[derive(Clone, Copy, Debug)]
pub struct Unwatched<'a, R> {
    host: &'a R,
    workers: u32,
}

impl<'a, R> Unwatched<'a, R> {
    /// One worker, whom nobody watches.
    pub fn new(host: &'a R) -> Unwatched<'a, R> {
        Unwatched { host, workers: 1 }
    }
}

impl<'a, R: Threads + Sync> Watch for Unwatched<'a, R> {
    type Host = R;

    fn be_quiet(&mut self) {}

    fn is_due(&mut self) -> bool {
        false
    }

    fn see(&mut self, _seen: Seen) {}

    fn see_whole(&mut self) {}

    fn see_end(&mut self) {}

    fn employ(&mut self, workers: u32) {
        self.workers = workers;
    }

    fn workers(&self) -> u32 {
        self.workers
    }

    fn host(&self) -> &R {
        self.host
    }
}
