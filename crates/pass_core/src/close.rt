//! Whether anything is left to find, and what the report is to say.
ghost use Rattle.std.specs.Prelude.{◌≡◌, ◌≤◌, ◌↔◌, ◌||◌, ℕ, leb, None, Some, IfOk, IsTrue, IsSome, is_some};
ghost use Rattle.scen_defs.specs.Program.{Program};
ghost use Rattle.scen_tree.specs.Trees.{Tree};
ghost use Rattle.proved_report.specs.declared.open.Open.{Open as OpenOf};
ghost use Rattle.pass_table.specs.Machine.{Machine, IsClosed};
ghost use Rattle.pass_table.specs.Fits.{Fits};
ghost use Rattle.found_ends.specs.Settled.{shown, ended, settled, why_open};
ghost use Rattle.found_ends.specs.Claims.{IsReason, closed_by};
ghost use Rattle.pass_core.specs.Counting.{after_report};
ghost use Rattle.pass_core.specs.Explained.{IsExplained, AreExplained, KeepsExplained};
ghost use Rattle.pass_core.specs.Tabled.{IsTabledBy};

use crate::budget::Budget;
use crate::state::State;
use found_ends::{Closed, Settled, claimed, ended, shown, why_open};
use frac128::Memory;
use proved_report::Open;
use std::alloc::Global;

impl State {
    /// What a report may take.
    pub fn budget(&self) -> Budget
        ensures { result ≡ self.now.budget }
    {
        self.budget
    }

    /// How many solves there were.
    pub fn commits(&self) -> u64
        ensures { result ≡ self.now.counts.all }
    {
        self.counts.all
    }

    /// Whether nothing is left to find, and why. The first case that holds is told.
    pub fn settled(&self) -> Option<Settled>
        ensures case { let s = self.now in
            result ≡ settled s.kind s.table.closed s.ends s.stop s.counts.since_report s.budget.solves }
        // the table's flag tells whether every node is fresh with a point
        ensures flag { (m : Machine) → Fits self.now.table m → IsTrue self.now.table.closed ↔ IsClosed m }
        ensures stopped { result ≡ Some Settled.Stopped → IsSome self.now.stop }
        ensures spent { result ≡ Some Settled.Spent → self.now.budget.solves ≤ self.now.counts.since_report }
    {
        match self.shown() {
            Some(case) => Some(case),
            None => self.ended(),
        }
    }

    /// What the run shows.
    fn shown(&self) -> Option<Settled>
        ensures { result ≡ shown self.now.kind self.now.table.closed self.now.ends }
    {
        shown(self.kind, self.table.is_closed(), &self.ends)
    }

    /// What ends the method, where something does.
    fn ended(&self) -> Option<Settled>
        ensures { result ≡ ended self.now.stop self.now.counts.since_report self.now.budget.solves }
    {
        ended(self.stop, self.counts.since_report, self.budget.solves)
    }

    /// Why the report is open, if it is.
    fn why(&self) -> Open
        ensures { result ≡ why_open self.now.stop self.now.budget.solves }
    {
        why_open(self.stop, self.budget.solves)
    }

    /// Whether an edit may come, before which so many solves are asked for.
    pub fn is_ripe(&self, work: u64) -> bool
        ensures { let s = self.now in
            let case = settled s.kind s.table.closed s.ends s.stop s.counts.since_report s.budget.solves in
            result ≡ (leb work s.counts.since_item || is_some case) }
    {
        self.counts.since_item >= work || self.settled().is_some()
    }

    /// What was found, with the lists that show it.
    pub fn found(&self, alloc: Global) -> Result<Closed, Memory>
        ensures claim { let s = self.now in
            let case = settled s.kind s.table.closed s.ends s.stop s.counts.since_report s.budget.solves in
            IfOk result (λ closed. closed ≡ closed_by case s.ends (why_open s.stop s.budget.solves)) }
        ensures why { IfOk result (λ closed. IsReason self.now.ends (why_open self.now.stop self.now.budget.solves) closed.why) }
        // where nothing stopped the method and a number of solves is told, it is the number that was allowed
        ensures allowed { IfOk result (λ closed. (n : ℕ) → self.now.stop ≡ None → closed.why ≡ Open.Solves n
            → n ≡ self.now.budget.solves) }
        // where the method was stopped, that is told, or the operation in which the multipliers' assembly ends
        ensures stopped { IfOk result (λ closed. (w : OpenOf) → self.now.stop ≡ Some w → IsReason self.now.ends w closed.why) }
        // it is explained by a program and a tree that explain what stopped the method
        ensures explained { (p : Program) (tree : Tree) → AreExplained p tree self.now
            → IfOk result (λ closed. IsExplained p self.now.frame tree self.now.budget closed.why) }
    {
        let closed = claimed(alloc, self.settled(), &self.ends, self.why())?;
        Ok(closed)
    }

    /// A report was told. The next one may take as many solves again; what stopped the method stays only where no later step of the run
    /// would do it again.
    pub fn close(&mut self)
        ensures state { self.new ≡ record self.old { stop = self.old.lasting; counts = after_report self.old.counts } }
        ensures kept { (p : Program) (tree : Tree) → KeepsExplained p tree self.old self.new }
        ensures tabled { (p : Program) (m : Machine) → IsTabledBy p self.old m → IsTabledBy p self.new m }
    {
        self.stop = self.lasting;
        self.counts.since_report = 0;
        self.counts.since_item = 0;
    }

    /// Whether as many solves were counted since the last report as are allowed.
    pub fn is_spent(&self) -> bool
        ensures { result ≡ leb self.now.budget.solves self.now.counts.since_report }
    {
        self.counts.since_report >= self.budget.solves
    }
}
