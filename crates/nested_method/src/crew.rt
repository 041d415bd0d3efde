//! Steps of several workers.
ghost use Rattle.std.specs.Prelude.{◌≡◌, ◌+◌, ◌^◌, ◌<◌, ◌≤◌, max, ℕ, true, List, [], ◌∷◌, ◌++◌, length, IfOk, OnOk};
ghost use Rattle.scen_defs.specs.Program.{content, Program as ProgramOf};
ghost use Rattle.node_data.specs.Frames.{frame_of};
ghost use Rattle.edit_defs.specs.declared.edit.Edit.{Edit};
ghost use Rattle.pass_table.specs.Machine.{Machine};
ghost use Rattle.pass_core.specs.declared.budget.Budget.{Budget as BudgetOf};
ghost use Rattle.pass_core.specs.declared.state.Begun.{Begun as BegunOf};
ghost use Rattle.pass_core.specs.declared.state.State.{State as StateOf};
ghost use Rattle.pass_core.specs.Tabled.{GoesBySteps};
ghost use Rattle.nested_method.specs.Scripted.{IsInHistory};
ghost use Rattle.nested_method.specs.Stands.{WorksOn, SolvesOnce};
ghost use Rattle.nested_method.specs.Batches.{with_job, Batch, LeavesFewer};

use crate::method::Working;
use frac128::Memory;
use pass_core::{Job, solve_all};
use run_watch::Watch;
use scen_defs::Program;
use std::alloc::Global;

/// Where a program has more nodes than a table has numbers for, one worker solves.
const MOST: usize = u32::MAX as usize;

impl Working {
    /// Where several workers are lent, and something is left to find, solves nodes apart side by side, as many as may be begun and are
    /// wanted. Whether any was solved.
    pub(crate) fn work_beside<W: Watch>(
        &mut self,
        alloc: Global,
        program: &Program,
        work: u64,
        watch: &W,
    ) -> Result<bool, Memory>
        ensures tree { self.new.tree ≡ self.old.tree }
        ensures stays { let p = content program.now in (budget : BudgetOf)
            → WorksOn p budget self.old → OnOk result (WorksOn p budget self.new) }
        ensures steps { let p = content program.now in (m : Machine) → self.old.state.frame ≡ frame_of p
            → GoesBySteps p m self.old.state → OnOk result (GoesBySteps p m self.new.state × (self.new.state.frame ≡ frame_of p)) }
        ensures solves { let p = content program.now in (budget : BudgetOf) (before : StateOf)
            → WorksOn p budget self.old → SolvesOnce p before self.old.state → OnOk result (SolvesOnce p before self.new.state) }
        ensures made { let p = content program.now in (budget : BudgetOf) (first : ProgramOf) (edits rest : List Edit) (came : ℕ)
            → WorksOn p budget self.old → IsInHistory first edits came p rest self.old.state
            → OnOk result (IsInHistory first edits came p rest self.new.state) }
        // no more solves are counted than are asked for
        ensures no_more { OnOk result (self.new.state.counts.since_item ≤ max work self.old.state.counts.since_item) }
        ensures fewer { IfOk result (λ did. LeavesFewer did self.old.state self.new.state) }
    {
        if watch.workers() < 2 || program.nodes.len() >= MOST {
            return Ok(false);
        }
        if self.state.is_ripe(work) {
            return Ok(false);
        }
        let wanted = self.state.wanted(work);
        self.state.get_ready(alloc)?;
        let jobs = self.begin_all(alloc, program, work, wanted)?;
        let did = self.end_all(alloc, program, work, watch, jobs)?;
        Ok(did)
    }

    /// Begins so many solves of nodes apart, each of the node that is next then, or fewer where no other node may be begun.
    fn begin_all(
        &mut self,
        alloc: Global,
        program: &Program,
        work: u64,
        wanted: u32,
    ) -> Result<Vec<Job>, Memory>
        ensures tree { self.new.tree ≡ self.old.tree }
        ensures others { self.new.state ≡ record self.old.state { table = self.new.state.table } }
        ensures begun { let p = content program.now in (start : Machine) (first : StateOf)
            → wanted ≤ length self.old.state.table.flights.items → Batch p self.old.tree start first self.old.state []
            → IfOk result (λ jobs. Batch p self.old.tree start first self.new.state jobs.items) }
    {
        let mut jobs = Vec::new(alloc);
        'begins: while jobs.len() < wanted as usize {
            let worker = jobs.len() as u32;
            let Some(job) = self.begin_one(alloc, program, work, worker)? else {
                break;
            };
            jobs.push(job)?;
        }
        Ok(jobs)
    }

    /// Begins the solve of the node that is next, as the worker's, where something is left to find. None where no node is next.
    fn begin_one(
        &mut self,
        alloc: Global,
        program: &Program,
        work: u64,
        worker: u32,
    ) -> Result<Option<Job>, Memory>
        ensures tree { self.new.tree ≡ self.old.tree }
        ensures others { self.new.state ≡ record self.old.state { table = self.new.state.table } }
        ensures workers { length self.new.state.table.flights.items ≡ length self.old.state.table.flights.items }
        ensures begun { let p = content program.now in (start : Machine) (first : StateOf) (jobs : List BegunOf)
            → length jobs ≡ worker → worker < length self.old.state.table.flights.items → worker + 1 < 2 ^ 32
            → Batch p self.old.tree start first self.old.state jobs
            → IfOk result (λ job. Batch p self.old.tree start first self.new.state (with_job jobs job)) }
    {
        if !self.state.has_few() {
            return Ok(None);
        }
        if self.state.is_ripe(work) {
            return Ok(None);
        }
        let Some(node) = self.state.begin(worker) else {
            return Ok(None);
        };
        let Some(begun) = self.state.set_out(alloc, program, &self.tree, node)? else {
            // it has no program, which never comes
            return Err(Memory);
        };
        let job = self.state.job(alloc, begun)?;
        Ok(Some(job))
    }

    /// Solves the programs of all these, and ends them one behind the other, the last one first. Whether any was wanted still.
    fn end_all<W: Watch>(
        &mut self,
        alloc: Global,
        program: &Program,
        work: u64,
        watch: &W,
        jobs: Vec<Job>,
    ) -> Result<bool, Memory>
        ensures tree { self.new.tree ≡ self.old.tree }
        ensures ended { let p = content program.now in (start : Machine) (first : StateOf)
            → Batch p self.old.tree start first self.old.state jobs.items
            → OnOk result (Batch p self.old.tree start first self.new.state []) }
        ensures no_more { OnOk result (self.new.state.counts.since_item ≤ max work self.old.state.counts.since_item) }
        ensures fewer { IfOk result (λ did. LeavesFewer did self.old.state self.new.state) }
    {
        let mut jobs = jobs;
        solve_all(alloc, &mut jobs, watch);
        let mut did = false;
        'ends: while let Some(job) = jobs.pop() {
            let Ok(worker) = u32::try_from(jobs.len()) else {
                return Err(Memory);
            };
            if self.end_one(alloc, program, work, worker, job)? {
                did = true;
            }
        }
        Ok(did)
    }

    /// Ends the worker's solve, where it is still wanted: where something is left to find, and not as many solves were committed since the
    /// last item as are asked for. Where it isn't, it is dropped. Whether it was wanted.
    fn end_one(
        &mut self,
        alloc: Global,
        program: &Program,
        work: u64,
        worker: u32,
        job: Job,
    ) -> Result<bool, Memory>
        ensures tree { self.new.tree ≡ self.old.tree }
        ensures ended { let p = content program.now in (start : Machine) (first : StateOf) (jobs : List BegunOf)
            → length jobs ≡ worker → Batch p self.old.tree start first self.old.state (jobs ++ job ∷ [])
            → OnOk result (Batch p self.old.tree start first self.new.state jobs) }
        ensures no_more { (first : ℕ) → self.old.state.counts.since_item ≤ max work first
            → OnOk result (self.new.state.counts.since_item ≤ max work first) }
        ensures fewer { IfOk result (λ did. LeavesFewer did self.old.state self.new.state) }
    {
        // the budget has 64 bits
        let _allowed = self.allowed();
        if !self.state.has_few() {
            // more solves than are counted
            return Err(Memory);
        }
        if self.state.is_ripe(work) {
            self.state.drop_solve(worker);
            return Ok(false);
        }
        let (begun, told) = job.parts();
        let mut begun = begun;
        let Some(solved) = told else {
            return Err(Memory);
        };
        self.state
            .end(alloc, program, &self.tree, worker, &mut begun, solved)?;
        Ok(true)
    }
}
