//! Who watches a run for standard error, and lends it the threads of the process.

use crate::lines::{ended_line, seen_line, whole_line};
use frac128::Memory;
use run_watch::{Seen, Watch};
use std::alloc::Global;
use std::thread::Threads;
use std::time::{Clock, Instant};

/// So many seconds lie between two lines, and go before the first.
const SECONDS: u64 = 2;

/// Says on standard error how a run goes on, in a line about every two seconds, and that it has ended where it said something. It says
/// nothing where standard error isn't read by a person, where there is no clock, or where memory or standard error is wanting.
#[derive(Drop)]
pub struct Watcher<'a, R: Clock + Eprint> {
    rt: &'a R,
    alloc: Global,
    /// When the run began; none where nothing is said.
    began: Option<Instant>,
    /// How many seconds it has taken by the last look.
    seconds: u64,
    /// The next line comes after so many seconds.
    due: u64,
    has_spoken: bool,
    workers: u32,
}

impl<'a, R: Clock + Eprint> Watcher<'a, R> {
    /// Watches a run that begins now; says nothing of it where it isn't read.
    pub fn new(rt: &'a R, alloc: Global, is_read: bool) -> Watcher<'a, R> {
        let began = if is_read { Instant::now(rt).ok() } else { None };
        Watcher {
            rt,
            alloc,
            began,
            seconds: 0,
            due: SECONDS,
            has_spoken: false,
            workers: 1,
        }
    }

    /// Looks at the clock.
    fn look(&mut self) {
        if let Some(began) = self.began {
            if let Ok(passed) = began.elapsed(self.rt) {
                self.seconds = passed.as_secs();
            }
        }
    }

    /// Says a line. The next one comes two seconds later.
    fn say(&mut self, line: Result<String, Memory>) {
        if let Ok(line) = line {
            let _ = self.rt.eprint(line.as_str());
        }
        self.has_spoken = true;
        self.due = self.seconds.saturating_add(SECONDS);
    }
}

impl<'a, R: Clock + Eprint + Threads + Sync> Watch for Watcher<'a, R> {
    type Host = R;

    fn be_quiet(&mut self) {
        self.began = None;
    }

    fn is_due(&mut self) -> bool {
        self.look();
        self.seconds >= self.due
    }

    fn see(&mut self, seen: Seen) {
        self.say(seen_line(self.alloc, self.seconds, seen, self.workers));
    }

    fn see_whole(&mut self) {
        if self.is_due() {
            self.say(whole_line(self.alloc, self.seconds));
        }
    }

    fn see_end(&mut self) {
        if self.has_spoken {
            self.look();
            self.say(ended_line(self.alloc, self.seconds));
        }
    }

    fn employ(&mut self, workers: u32) {
        self.workers = workers;
    }

    fn workers(&self) -> u32 {
        self.workers
    }

    fn host(&self) -> &R {
        self.rt
    }
}
