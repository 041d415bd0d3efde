//! Solves that were begun side by side.
ghost use Rattle.std.specs.Prelude.{◌≡◌, ◌<◌, IfSome};
ghost use Rattle.node_lp.specs.Answers.{IsAnswer};
ghost use Rattle.node_lp.specs.Problem.{IsProblem, problem_of};
ghost use Rattle.node_lp.specs.Tested.{IsToldOf};

use crate::state::Begun;
use node_guess::{effort, solved_node};
use node_lp::Solved;
use run_watch::Watch;
use std::alloc::Global;
use std::marker::Model;
use std::thread;

/// A solve that was begun, and what is told of its program once it is solved. Contracts see it as it was begun.
#[derive(Drop)]
pub struct Job {
    begun: Begun,
    solved: Option<Solved>,
}

impl Model for Job {
    ghost use Rattle.std.specs.Prelude.{◌≡◌, IfSome};
    ghost use Rattle.node_lp.specs.Answers.{IsAnswer};
    ghost use Rattle.node_lp.specs.Problem.{IsProblem, problem_of};
    ghost use Rattle.node_lp.specs.Tested.{IsToldOf};
    ghost use Rattle.pass_core.specs.declared.state.Begun.{Begun};
    ghost use Rattle.std.specs.Coded.{codes};
    ghost use Rattle.cut_defs.specs.Codes.{stored_coded};

    ghost Value = { Begun };

    ghost coded = { Prim.hlevel (codes, stored_coded) };

    ghost view = { λ j. j.begun };

    ghost invariant = { λ j. IsProblem (problem_of j.begun.task) ×
        IfSome j.solved (λ all. IsToldOf j.begun.task all × IsAnswer j.begun.task all) };
}

impl Job {
    /// Before its program is solved.
    pub(crate) fn new(begun: Begun) -> Job
        requires { IsProblem (problem_of begun.task) }
        ensures { result ≡ begun }
    {
        Job {
            begun,
            solved: None,
        }
    }

    /// The solve as it was begun, and what is told of its program; none where memory was wanting.
    pub fn parts(self) -> (Begun, Option<Solved>)
        ensures begun { result.0 ≡ self }
        ensures told { IfSome result.1 (IsToldOf self.task) }
        ensures answer { IfSome result.1 (IsAnswer self.task) }
    {
        let Job { begun, solved } = self;
        (begun, solved)
    }

    /// Solves its program.
    fn solve(&mut self, alloc: Global)
        ensures { self.new ≡ self.old }
    {
        if let Ok(solved) = solved_node(alloc, &self.begun.task, &mut self.begun.hint) {
            self.solved = Some(solved);
        }
    }
}

/// A thread is worth its start where it has so much to do: it starts in some 40 microseconds, and an entry is looked at in some 20
/// nanoseconds. By measurement it pays from some 100 microseconds on.
const WORTH: u64 = 5_000;

/// What the smallest node has to do.
const LEAST: u64 = 100;

/// In how many threads they are worth solving: in one at least, and in as many as there are workers at most.
fn threads_for(jobs: &[Job], workers: u32) -> usize
    ensures { 0 < result }
{
    let mut all: u64 = 0;
    for job in jobs {
        all = all.saturating_add(effort(&job.begun.task).max(LEAST));
    }
    (all / WORTH).min(workers as u64).max(1) as usize
}

/// Solves the programs of all these, in as many threads as workers are lent, or in fewer where there is little to do.
pub fn solve_all<W: Watch>(alloc: Global, jobs: &mut [Job], watch: &W)
    ensures { jobs.new ≡ jobs.old }
{
    let threads = threads_for(jobs, watch.workers());
    let solve = |_: usize, job: &mut Job|
        ensures { job.exit.now ≡ job.entry.now }
    { job.solve(alloc) };
    thread::for_each_mut(watch.host(), jobs, threads, &solve);
}
