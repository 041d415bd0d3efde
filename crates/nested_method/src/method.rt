//! The nested method at work on a program.
ghost use Rattle.std.specs.Prelude.{◌≡◌, ◌⊎◌, ◌<◌, ◌-◌, ◌^◌, ℕ, false, List, IfOk, OnOk};
ghost use Rattle.scen_defs.specs.Program.{content, Program as ProgramOf};
ghost use Rattle.node_data.specs.Frames.{frame_of};
ghost use Rattle.pass_table.specs.Machine.{Machine};
ghost use Rattle.pass_core.specs.declared.budget.Budget.{Budget as BudgetOf};
ghost use Rattle.edit_defs.specs.declared.edit.Edit.{Edit};
ghost use Rattle.nested_method.specs.Edited.{IsTreeless};
ghost use Rattle.nested_method.specs.Scripted.{AreToCome, IsInHistory, IsInScript, StaysInScript, IsFoundInHistory, FindsInScript};
ghost use Rattle.pass_core.specs.Tabled.{IsTabledBy, GoesBySteps};
ghost use Rattle.nested_method.specs.Stands.{HasFewNodes, WorksOn, StandsOn, Begins, WorksBySteps, TellsWhy};
ghost use Rattle.nested_method.specs.Stands.{IsAtEnd, EndsAt, SolvesOnce, WorksBySolves, IsFoundBySolves, FindsBySolves};
ghost use Rattle.nested_method.specs.Stands.{SolvesAsAsked, WorksAsAsked, SolvesAnew, WorksAnew, is_spent, after_telling};

use crate::found::{Found, nothing};
use frac128::{ArithmeticFault, Memory};
use pass_core::{Budget, State};
use proved_report::Open;
use run_watch::Watch;
use scen_defs::{Place, Program};
use scen_tree::Tree;
use std::alloc::Global;

/// More nodes than this have no numbers.
const MANY: usize = 1 << 32;

/// More solves than are ever committed.
const ENDLESS: u64 = u64::MAX;

/// More solves than this aren't in flight side by side.
const PLACES: u32 = 1024;

/// The method on a program with its tree.
#[derive(Drop)]
pub struct Working {
    pub(crate) state: State,
    pub(crate) tree: Tree,
}

/// The nested method at work.
#[derive(Drop)]
pub enum Method {
    Working(Working),
    /// It can't begin or go on, which never comes of a program that was built: why, and the budget with which it would.
    Idle(Open, Budget),
}

/// Why there is no tree: its totals or shares don't fit, which never comes of a program that was built.
pub(crate) fn treeless(fault: ArithmeticFault) -> Result<Open, Memory>
    ensures { IfOk result (IsTreeless fault) }
{
    match fault {
        ArithmeticFault::Passed(passed) => Ok(Open::Passed(Place::Dual, passed)),
        ArithmeticFault::Memory => Err(Memory),
    }
}

impl Working {
    /// How many solves are allowed between two reports.
    pub(crate) fn allowed(&self) -> u64
        ensures { result ≡ self.now.state.budget.solves }
    {
        self.state.budget().solves
    }

    /// Lets a watcher look, where it is time.
    fn show<W: Watch>(&self, watch: &mut W) {
        if watch.is_due() {
            watch.see(self.state.seen());
        }
    }

    /// Takes steps until so many solves were committed since the last item, or nothing is left to find.
    fn run<W: Watch>(
        &mut self,
        alloc: Global,
        program: &Program,
        work: u64,
        watch: &mut W,
    ) -> Result<(), Memory>
        ensures stays { let p = content program.now in (budget : BudgetOf)
            → WorksOn p budget self.old → OnOk result (WorksOn p budget self.new) }
        ensures steps { let p = content program.now in (m : Machine) → self.old.state.frame ≡ frame_of p
            → IsTabledBy p self.old.state m → OnOk result (GoesBySteps p m self.new.state) }
        ensures solves { let p = content program.now in (budget : BudgetOf) → HasFewNodes p
            → WorksOn p budget self.old → OnOk result (SolvesOnce p self.old.state self.new.state) }
        ensures made { let p = content program.now in (budget : BudgetOf) (first : ProgramOf) (edits rest : List Edit) (came : ℕ)
            → WorksOn p budget self.old → IsInHistory first edits came p rest self.old.state
            → OnOk result (IsInHistory first edits came p rest self.new.state) }
        // so many solves were committed, and no more, or it can't go on
        ensures amount { let p = content program.now in (budget : BudgetOf) → HasFewNodes p
            → WorksOn p budget self.old → OnOk result (SolvesAsAsked p work self.old.state self.new.state) }
        // where as many are asked for as are ever committed, it can't go on
        ensures endless { work ≡ 2 ^ 64 - 1 → let p = content program.now in (budget : BudgetOf) → HasFewNodes p
            → WorksOn p budget self.old → OnOk result (IsAtEnd p self.new.state) }
    {
        'steps: loop {
            self.show(watch);
            if self.work_beside(alloc, program, work, watch)? {
                continue;
            }
            // the steps end, since this number has 64 bits
            let _allowed = self.allowed();
            if self.state.is_ripe(work) || !self.state.advance(alloc, program, &self.tree)? {
                break;
            }
        }
        Ok(())
    }

    /// What is found where nothing is left to find.
    fn find<W: Watch>(
        &mut self,
        alloc: Global,
        program: &Program,
        watch: &mut W,
    ) -> Result<Found, Memory>
        ensures why { let p = content program.now in (budget : BudgetOf)
            → WorksOn p budget self.old → IfOk result (TellsWhy p budget) }
        ensures stays { let p = content program.now in (budget : BudgetOf)
            → WorksOn p budget self.old → OnOk result (WorksOn p budget self.new) }
        ensures steps { let p = content program.now in (m : Machine) → self.old.state.frame ≡ frame_of p
            → IsTabledBy p self.old.state m → OnOk result (GoesBySteps p m self.new.state) }
        ensures solves { let p = content program.now in (budget : BudgetOf) → HasFewNodes p
            → WorksOn p budget self.old → IfOk result (IsFoundBySolves p self.old.state self.new.state) }
        ensures made { let p = content program.now in (budget : BudgetOf) (first : ProgramOf) (edits rest : List Edit) (came : ℕ)
            → WorksOn p budget self.old → IsInHistory first edits came p rest self.old.state
            → OnOk result (IsInHistory first edits came p rest self.new.state) }
        ensures claims { let p = content program.now in (budget : BudgetOf) (first : ProgramOf) (edits rest : List Edit) (came : ℕ)
            → WorksOn p budget self.old → IsInHistory first edits came p rest self.old.state
            → IfOk result (IsFoundInHistory first edits came p rest) }
        ensures ends { let p = content program.now in (budget : BudgetOf) → HasFewNodes p
            → WorksOn p budget self.old → OnOk result (IsAtEnd p self.new.state) }
    {
        self.run(alloc, program, ENDLESS, watch)?;
        let closed = self.state.found(alloc)?;
        Ok(Found {
            claim: closed.claim,
            why: closed.why,
            place: Place::Cost(self.state.commits()),
        })
    }

    /// Begins the program anew, and makes the first solve.
    fn start_over(&mut self, alloc: Global, program: &Program) -> Result<(), Memory>
        ensures stays { let p = content program.now in (budget : BudgetOf)
            → self.old.state.counts.since_report < self.old.state.budget.solves
            → WorksOn p budget self.old → OnOk result (WorksOn p budget self.new) }
        ensures solves { let p = content program.now in (budget : BudgetOf) → HasFewNodes p
            → self.old.state.counts.since_report < self.old.state.budget.solves → IsAtEnd p self.old.state
            → WorksOn p budget self.old → OnOk result (SolvesAnew p self.old.state self.new.state) }
        ensures made { let p = content program.now in (budget : BudgetOf) (first : ProgramOf) (edits rest : List Edit) (came : ℕ)
            → WorksOn p budget self.old → IsInHistory first edits came p rest self.old.state
            → OnOk result (IsInHistory first edits came p rest self.new.state ⊎ IsInHistory p rest 0 p rest self.new.state) }
    {
        self.state.start_over(alloc, program)?;
        self.state.advance(alloc, program, &self.tree)?;
        Ok(())
    }
}

impl Method {
    /// The method before any solve.
    pub fn begin(alloc: Global, program: &Program, budget: Budget) -> Result<Method, Memory>
        ensures stands { IfOk result (StandsOn (content program.now) budget) }
        ensures begins { let p = content program.now in HasFewNodes p → IfOk result (Begins p budget) }
        // with any edits that are to come
        ensures made { let p = content program.now in (rest : List Edit) → AreToCome p rest → IfOk result (IsInScript p rest 0 p rest) }
    {
        if program.nodes.len() >= MANY {
            return Ok(Method::Idle(Open::Solves(budget.solves), budget));
        }
        let tree = match Tree::of(alloc, program) {
            Ok(tree) => tree,
            Err(fault) => return Ok(Method::Idle(treeless(fault)?, budget)),
        };
        match State::start(alloc, program, budget, PLACES)? {
            Some(state) => Ok(Method::Working(Working { state, tree })),
            None => Ok(Method::Idle(Open::Solves(budget.solves), budget)),
        }
    }

    /// Works on the program until so many solves were committed since the last item, or nothing is left to find.
    pub fn work<W: Watch>(
        &mut self,
        alloc: Global,
        program: &Program,
        work: u64,
        watch: &mut W,
    ) -> Result<(), Memory>
        ensures stays { let p = content program.now in (budget : BudgetOf)
            → StandsOn p budget self.old → OnOk result (StandsOn p budget self.new) }
        ensures steps { OnOk result (WorksBySteps (content program.now) self.old self.new) }
        // where the method stands on the program, it solves programs of its nodes
        ensures solves { let p = content program.now in (budget : BudgetOf) → HasFewNodes p
            → StandsOn p budget self.old → OnOk result (WorksBySolves p self.old self.new) }
        // as many as are asked for, or fewer where it can't go on
        ensures amount { let p = content program.now in (budget : BudgetOf) → HasFewNodes p
            → StandsOn p budget self.old → OnOk result (WorksAsAsked p work self.old self.new) }
        // in a script the method goes on in its history
        ensures made { let p = content program.now in (budget : BudgetOf) (first : ProgramOf) (edits rest : List Edit) (came : ℕ)
            → StandsOn p budget self.old → IsInScript first edits came p rest self.old
            → OnOk result (IsInScript first edits came p rest self.new) }
    {
        match self {
            Method::Working(working) => working.run(alloc, program, work, watch),
            Method::Idle(_, _) => Ok(()),
        }
    }

    /// What it finds of the program, and why a report of that is left open.
    pub fn find<W: Watch>(
        &mut self,
        alloc: Global,
        program: &Program,
        watch: &mut W,
    ) -> Result<Found, Memory>
        ensures why { let p = content program.now in (budget : BudgetOf)
            → StandsOn p budget self.old → IfOk result (TellsWhy p budget) }
        ensures stays { let p = content program.now in (budget : BudgetOf)
            → StandsOn p budget self.old → OnOk result (StandsOn p budget self.new) }
        ensures steps { OnOk result (WorksBySteps (content program.now) self.old self.new) }
        // where the method stands on the program, what it finds comes of solves of programs of its nodes
        ensures solves { let p = content program.now in (budget : BudgetOf) → HasFewNodes p
            → StandsOn p budget self.old → IfOk result (FindsBySolves p self.old self.new) }
        // in a script the method goes on in its history
        ensures made { let p = content program.now in (budget : BudgetOf) (first : ProgramOf) (edits rest : List Edit) (came : ℕ)
            → StandsOn p budget self.old → IsInScript first edits came p rest self.old
            → OnOk result (IsInScript first edits came p rest self.new) }
        // and what it finds is claimed of a state in the history
        ensures claims { let p = content program.now in (budget : BudgetOf) (first : ProgramOf) (edits rest : List Edit) (came : ℕ)
            → StandsOn p budget self.old → IsInScript first edits came p rest self.old
            → IfOk result (FindsInScript first edits came p rest self.old) }
        // it ends only where it can't go on
        ensures ends { let p = content program.now in (budget : BudgetOf) → HasFewNodes p
            → StandsOn p budget self.old → OnOk result (EndsAt p self.new) }
    {
        match self {
            Method::Working(working) => working.find(alloc, program, watch),
            Method::Idle(why, _) => Ok(nothing(*why)),
        }
    }

    /// Whether as many solves were made since the last report as are allowed, or none can be made.
    pub fn is_spent(&self) -> bool
        ensures { result ≡ is_spent self.now }
    {
        match self {
            Method::Working(working) => working.state.is_spent(),
            Method::Idle(_, _) => true,
        }
    }

    /// Begins the program anew, and makes the first solve of it. The solves since the last report stay counted.
    pub fn start_over(&mut self, alloc: Global, program: &Program) -> Result<(), Memory>
        ensures stays { let p = content program.now in (budget : BudgetOf)
            → is_spent self.old ≡ false → StandsOn p budget self.old → OnOk result (StandsOn p budget self.new) }
        ensures solves { let p = content program.now in (budget : BudgetOf) → HasFewNodes p
            → StandsOn p budget self.old → OnOk result (WorksAnew p self.old self.new) }
        // in a script the method stays in its history, or begins a new one
        ensures made { let p = content program.now in (budget : BudgetOf) (first : ProgramOf) (edits rest : List Edit) (came : ℕ)
            → StandsOn p budget self.old → IsInScript first edits came p rest self.old
            → OnOk result (StaysInScript first edits came p rest self.new) }
    {
        match self {
            Method::Working(working) => working.start_over(alloc, program),
            Method::Idle(_, _) => Ok(()),
        }
    }

    /// A report was told: the next one may take as many solves again.
    pub fn close(&mut self)
        ensures after { self.new ≡ after_telling self.old }
        ensures stays { (p : ProgramOf) (budget : BudgetOf) → StandsOn p budget self.old → StandsOn p budget self.new }
        ensures made { (first p : ProgramOf) (edits rest : List Edit) (came : ℕ)
            → IsInScript first edits came p rest self.old → IsInScript first edits came p rest self.new }
    {
        match self {
            Method::Working(working) => working.state.close(),
            Method::Idle(_, _) => {}
        }
    }
}
