//! What several workers do at a desk, beside a Begin and the end of a solve.
ghost use Rattle.std.specs.Prelude.{◌≡◌, ◌^◌, ◌<◌, ◌≤◌, ℕ, true, IfOk, length};
ghost use Rattle.scen_defs.specs.Program.{Program as ProgramOf};
ghost use Rattle.node_lp.specs.Problem.{IsProblem, problem_of};
ghost use Rattle.pass_table.specs.Machine.{Machine};
ghost use Rattle.pass_core.specs.Desks.{IsBegunBy, DropsOn};

use crate::jobs::Job;
use crate::state::{Begun, State};
use frac128::Memory;
use std::alloc::Global;

impl State {
    /// How many solves may be begun side by side: so many at most as there are workers, as are left for the report, and as are asked for
    /// since the last item. None where a run has to open first.
    pub fn wanted(&self, work: u64) -> u32
        ensures { result ≤ length self.now.table.flights.items }
    {
        if self.table.is_closed() {
            return 0;
        }
        let left = self.budget.solves.saturating_sub(self.counts.since_report);
        let asked = work.saturating_sub(self.counts.since_item);
        let workers = self.table.workers();
        if left.min(asked) < workers as u64 {
            left.min(asked) as u32
        } else {
            workers
        }
    }

    /// Whether there are numbers for solves of several workers: fewer than 2^62 were ended so far.
    pub fn has_few(&self) -> bool
        ensures { result ≡ true → self.now.table.commits < 2 ^ 62 }
    {
        self.table.has_few()
    }

    /// The solve that was begun, with what its guess begins with.
    pub fn job(&mut self, alloc: Global, mut begun: Begun) -> Result<Job, Memory>
        requires { IsProblem (problem_of begun.task) }
        ensures job { IfOk result (λ job. job ≡ begun) }
        ensures state { self.new ≡ self.old }
    {
        begun.hint = self.hints.lend(alloc, &begun.task)?;
        Ok(Job::new(begun))
    }

    /// Drops the worker's solve, which isn't wanted any more: nothing is left of it, and it isn't counted.
    pub fn drop_solve(&mut self, worker: u32)
        ensures drops { (p : ProgramOf) (m : Machine) (n : ℕ) → m.commits < 2 ^ 62 → (b : IsBegunBy p self.old m worker n)
            → DropsOn p self.old m b.desk.fits.flying worker self.new }
        ensures others { self.new ≡ record self.old { table = self.new.table } }
    {
        self.table.forget(worker);
    }
}
