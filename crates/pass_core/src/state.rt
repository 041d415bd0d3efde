//! What is known of a program, and the next step.
ghost use Rattle.std.specs.Prelude.{◌≡◌, ◌⊎◌, ◌<◌, ℕ, Ok, None, [], length, replicate, true, false, IfOk, IfSome, IsSome, IsSomeAnd, OnOk};
ghost use Rattle.scen_defs.specs.Program.{content, Program as ProgramOf};
ghost use Rattle.scen_tree.specs.Trees.{Tree as TreeOf, tree_walk};
ghost use Rattle.scen_defs.specs.Valid.{IsProgram, Lives};
ghost use Rattle.node_data.specs.Counts.{untouched, version_of};
ghost use Rattle.node_data.specs.Frames.{frame_of, children_in};
ghost use Rattle.cut_banks.specs.Banks.{empty_banks, pools_of};
ghost use Rattle.cut_banks.specs.Pools.{numbers_read};
ghost use Rattle.node_lp.specs.Tested.{IsToldOf};
ghost use Rattle.node_lp.specs.Answers.{IsAnswer};
ghost use Rattle.pass_table.specs.Machine.{Machine};
ghost use Rattle.pass_table.specs.Marks.{nothing};
ghost use Rattle.pass_core.specs.Counting.{no_commits, with_commit, first_stop, first_or};
ghost use Rattle.pass_core.specs.Beginning.{IsBeginning, StartsOver};
ghost use Rattle.pass_core.specs.Explained.{IsDatumOf, KeepsExplained};
ghost use Rattle.pass_core.specs.Made.{BankBooks, AreBooksOf, CutsAreMade};
ghost use Rattle.pass_core.specs.Tabled.{IsTabled, IsTabledBy, StepsTo};
ghost use Rattle.pass_core.specs.Desks.{IsDesk, BeginsOn, IsBegunBy, EndsOn};
ghost use Rattle.pass_core.specs.Turns.{PointsStand, KeepsPoints, IsTaskOf, CanEnd, IsSetOut, EndsAnyhow, SolvesOn, AreReady, MakesStep};
ghost use Rattle.pass_core.specs.Turns.{Progresses, Rests};

use crate::budget::Budget;
use crew_table::Crew;
use cut_banks::Banks;
use found_ends::{Ends, Lasts};
use frac128::Memory;
use node_data::{Frame, Versions, datum_of};
use node_guess::{Hints, LentHint, solved_node};
use node_lp::{Solved, Task, fits};
use pass_table::Reading;
use proved_report::Open;
use scen_defs::{Kind, Program};
use scen_tree::Tree;
use std::alloc::Global;

/// The worker that solves where there is one alone.
const WORKER: u32 = 0;

/// What the nested method knows of a program.
///
/// It works in runs. The first, Feasible, looks for a policy with all costs 0; the second, Recession, tests whether the cost
/// falls for ever; the third, Cost, looks for the least cost. In each the nodes are solved again and again, in rounds by
/// rising numbers, each that isn't up to date: a node takes the values of the columns above it as they are, and the cuts of its
/// children in place of what is below; its own solve gives a cut to its pool. A run is closed where all nodes are up to date.
///
/// An edit of the program leaves the cuts that don't rest on what it touches, repairs those that it shifts, and retires the others;
/// a Feasible run opens behind it.
#[derive(Drop)]
pub struct State {
    pub(crate) frame: Frame,
    pub(crate) budget: Budget,
    pub(crate) table: Crew,
    pub(crate) kind: Kind,
    pub(crate) banks: Banks,
    /// The last solves of the present run; no places before anything was done.
    pub(crate) lasts: Lasts,
    pub(crate) ends: Ends,
    /// How many edits touched the data of each node.
    pub(crate) versions: Versions,
    /// The first reason why the method can't go on, since the last report and in the present run.
    pub(crate) stop: Option<Open>,
    /// The first operation of an offer or of a policy's cost that passed in the present run: no later step would do it again.
    pub(crate) lasting: Option<Open>,
    pub(crate) counts: Counts,
    /// Whether anything was done since the start or the last edit.
    pub(crate) is_begun: bool,
    /// What the guesses of solves begin with. No contract sees it.
    pub(crate) hints: Hints,
}

/// How many solves there were.
#[derive(Clone, Copy, Debug)]
pub(crate) struct Counts {
    /// Of all.
    pub(crate) all: u64,
    /// Since the last report.
    pub(crate) since_report: u64,
    /// Since the last edit or report.
    pub(crate) since_item: u64,
}

impl Counts {
    fn none() -> Counts
        ensures { result ≡ no_commits }
    {
        Counts {
            all: 0,
            since_report: 0,
            since_item: 0,
        }
    }

    /// One more solve.
    pub(crate) fn raise(&mut self)
        ensures { self.new ≡ with_commit self.old }
    {
        self.all = self.all.saturating_add(1);
        self.since_report = self.since_report.saturating_add(1);
        self.since_item = self.since_item.saturating_add(1);
    }
}

/// No cuts and no last solves, of so many nodes that no edit touched.
fn nothing_found(alloc: Global, nodes: u32) -> Result<(Banks, Lasts, Versions), Memory>
    ensures banks { IfOk result (λ all. all.0 ≡ empty_banks nodes) }
    ensures points { IfOk result (λ all. all.1.nodes.items ≡ []) }
    ensures versions { IfOk result (λ all. all.2 ≡ replicate nodes untouched) }
{
    let banks = Banks::empty(alloc, nodes)?;
    let lasts = Lasts::none(alloc, 0)?;
    let versions = Versions::untouched(alloc, nodes)?;
    Ok((banks, lasts, versions))
}

/// A solve as it was begun: the program of its node, and what was read of the pools of its children.
#[derive(Drop)]
pub struct Begun {
    pub(crate) node: u32,
    pub(crate) task: Task,
    pub(crate) readings: Vec<Reading>,
    /// What its guess begins with, and leaves for the node's next solve. No contract sees it.
    pub(crate) hint: LentHint,
}

impl State {
    /// The state before any solve, of so many workers. None where the program's nodes aren't numbered from the root on, or there is no
    /// worker.
    pub fn start(
        alloc: Global,
        program: &Program,
        budget: Budget,
        workers: u32,
    ) -> Result<Option<State>, Memory>
        ensures beginning { IfOk result (λ all. IfSome all (IsBeginning (content program.now) budget)) }
        ensures counts { IfOk result (λ all. IfSome all (λ s. (s.counts ≡ no_commits) × (length s.table.flights.items ≡ workers))) }
        ensures tabled { IfOk result (λ all. IfSome all (IsTabled (content program.now))) }
        ensures some { 0 < workers → length (content program.now).nodes < nothing → IfOk result (λ all. IsSome all) }
        // there are no cuts, which are made for every book, and no edit touched a node
        ensures made { (b : BankBooks) → IfOk result (λ all. IfSome all (CutsAreMade b)) }
        ensures untouched { (n : ℕ) → IfOk result (λ all. IfSome all (λ s. version_of s.versions n ≡ untouched)) }
    {
        let frame = Frame::of(alloc, program)?;
        let Some(table) = Crew::start(alloc, frame.parents(), workers)? else {
            return Ok(None);
        };
        let (banks, lasts, versions) = nothing_found(alloc, frame.nodes())?;
        let hints = Hints::new(alloc);
        Ok(Some(State {
            frame,
            budget,
            table,
            kind: Kind::Feasible,
            banks,
            lasts,
            ends: Ends::none(),
            versions,
            stop: None,
            lasting: None,
            counts: Counts::none(),
            is_begun: false,
            hints,
        }))
    }

    /// Forgets all that was found, the cuts too, so that the program is begun anew. The solves stay counted.
    pub fn start_over(&mut self, alloc: Global, program: &Program) -> Result<(), Memory>
        // or it does nothing, where the program's nodes aren't numbered from the root on
        ensures over { OnOk result ((self.new ≡ self.old) ⊎ StartsOver (content program.now) self.old self.new) }
        ensures starts { let p = content program.now in length p.nodes < nothing
            → OnOk result (StartsOver p self.old self.new) }
        ensures tabled { let p = content program.now in length p.nodes < nothing → OnOk result (IsTabled p self.new) }
    {
        let counts = self.counts;
        let workers = self.table.workers();
        if let Some(state) = State::start(alloc, program, self.budget, workers)? {
            *self = State { counts, ..state };
        }
        Ok(())
    }

    /// The next step: where the run is closed the next one opens, else a node is solved. False where nothing can be done.
    /// Where what stopped the method before is explained by the program and the tree, so is what stops it from then on; and where solves
    /// gave the cuts that its ends rest on, and found its points, so they do from then on.
    pub fn advance(&mut self, alloc: Global, program: &Program, tree: &Tree) -> Result<bool, Memory>
        ensures explained { OnOk result (KeepsExplained (content program.now) tree.now self.old self.new) }
        // the table goes on fitting a machine of the program, which takes a step
        ensures tabled { let p = content program.now in (m : Machine) → self.old.frame ≡ frame_of p → IsTabledBy p self.old m
            → IfOk result (λ told. StepsTo p m told self.new) }
        // where a node was begun, its program was solved
        ensures solves { let p = content program.now in (m : Machine) → tree_walk p ≡ Ok tree.now
            → self.old.frame ≡ frame_of p → IsTabledBy p self.old m → PointsStand p self.old.lasts.nodes.items
            → IfOk result (λ told. MakesStep p self.old m self.new told) }
        // where something is told to be done, a solve is counted, something stops the method, or the next run is open; else nothing is done
        ensures progress { IfOk result (λ told. told ≡ true → Progresses self.old self.new) }
        ensures rests { IfOk result (λ told. told ≡ false → Rests self.old self.new) }
        // where books are right of the program, and all cuts are made for them, they are so afterwards
        ensures made { let p = content program.now in (b : BankBooks) → tree_walk p ≡ Ok tree.now
            → self.old.frame ≡ frame_of p → AreBooksOf p self.old.versions b → CutsAreMade b self.old
            → OnOk result (CutsAreMade b self.new) }
    {
        self.get_ready(alloc)?;
        if !self.table.has_room() {
            return Ok(false);
        }
        if self.table.is_closed() && self.kind != Kind::Cost {
            self.open_next(alloc, program, tree)?;
            return Ok(true);
        }
        self.table.has_workers();
        match self.begin(WORKER) {
            Some(node) => {
                self.solve(alloc, program, tree, node)?;
                Ok(true)
            }
            None => Ok(false),
        }
    }

    /// Begins the node that is next, as the worker's solve, and answers it. None where no node is next, and where the worker has a
    /// solve in flight or no place.
    pub fn begin(&mut self, worker: u32) -> Option<u32>
        ensures begins { (p : ProgramOf) (m : Machine) → IsProgram p → self.old.frame ≡ frame_of p → self.old.is_begun ≡ true
            → (d : IsDesk p self.old m) → d.fits.flying.flight worker ≡ None → worker < length self.old.table.flights.items
            → BeginsOn p m d.fits.flying worker result self.new }
        ensures others { self.new ≡ record self.old { table = self.new.table } }
        ensures workers { length self.new.table.flights.items ≡ length self.old.table.flights.items }
    {
        self.table.begin(worker)
    }

    /// Where nothing was done yet, there are places for the last solves of all nodes.
    pub fn get_ready(&mut self, alloc: Global) -> Result<(), Memory>
        ensures explained { (p : ProgramOf) (tree : TreeOf) → OnOk result (KeepsExplained p tree self.old self.new) }
        ensures points { (p : ProgramOf) → OnOk result (KeepsPoints p self.old self.new) }
        ensures ready { OnOk result (AreReady self.old self.new.lasts) }
        ensures begun { OnOk result (self.new.is_begun ≡ true) }
        ensures others { OnOk result (self.new ≡ record self.old { lasts = self.new.lasts; is_begun = self.new.is_begun }) }
    {
        if self.is_begun {
            return Ok(());
        }
        self.lasts = Lasts::none(alloc, self.frame.nodes())?;
        self.is_begun = true;
        Ok(())
    }

    /// Solves a node that was begun, and ends the solve.
    fn solve(
        &mut self,
        alloc: Global,
        program: &Program,
        tree: &Tree,
        node: u32,
    ) -> Result<(), Memory>
        ensures explained { OnOk result (KeepsExplained (content program.now) tree.now self.old self.new) }
        ensures tabled { let p = content program.now in (m : Machine) → self.old.frame ≡ frame_of p
            → (b : IsBegunBy p self.old m 0 node) → OnOk result (EndsOn EndsAnyhow p self.old m b.desk.fits.flying 0 node self.new) }
        // the node's program is solved
        ensures solves { let p = content program.now in (m : Machine) → tree_walk p ≡ Ok tree.now
            → self.old.frame ≡ frame_of p → (b : IsBegunBy p self.old m 0 node) → PointsStand p self.old.lasts.nodes.items
            → OnOk result (SolvesOn p self.old m b.desk.fits.flying 0 node self.new) }
        // a solve is counted, or something stops the method
        ensures progress { OnOk result (Progresses self.old self.new) }
        ensures made { let p = content program.now in (b : BankBooks) → tree_walk p ≡ Ok tree.now
            → self.old.frame ≡ frame_of p → AreBooksOf p self.old.versions b → CutsAreMade b self.old
            → OnOk result (CutsAreMade b self.new) }
    {
        let Some(mut begun) = self.set_out(alloc, program, tree, node)? else {
            self.left_stuck(WORKER);
            return Ok(());
        };
        begun.hint = self.hints.lend(alloc, &begun.task)?;
        let solved = solved_node(alloc, &begun.task, &mut begun.hint)?;
        self.end(alloc, program, tree, WORKER, &mut begun, solved)
    }

    /// The solve of a node that was begun, with what is read of its children's pools. None where the node has no program, which never
    /// comes.
    pub fn set_out(
        &self,
        alloc: Global,
        program: &Program,
        tree: &Tree,
        node: u32,
    ) -> Result<Option<Begun>, Memory>
        ensures task { IfOk result (λ all. IfSome all (IsSetOut (content program.now) tree.now self.now)) }
        ensures node { IfOk result (λ all. IfSome all (λ b. b.node ≡ node)) }
        // where a worker's solve of the node is in flight, and the points stand, it has one
        ensures some { let p = content program.now in (m : Machine) (worker : ℕ) → tree_walk p ≡ Ok tree.now → self.now.frame ≡ frame_of p
            → IsBegunBy p self.now m worker node → PointsStand p self.now.lasts.nodes.items → IfOk result (λ all. IsSome all) }
    {
        self.banks.keeps_nodes();
        let Some(begun) = self.begun(alloc, program, tree, node)? else {
            return Ok(None);
        };
        if !fits(&begun.task) {
            return Ok(None);
        }
        Ok(Some(begun))
    }

    /// Ends the worker's solve, with what is told of its program: it is counted, and commits.
    pub fn end(
        &mut self,
        alloc: Global,
        program: &Program,
        tree: &Tree,
        worker: u32,
        begun: &mut Begun,
        solved: Solved,
    ) -> Result<(), Memory>
        requires told { IsToldOf begun.old.task solved }
        requires answer { IsAnswer begun.old.task solved }
        ensures explained { let p = content program.now in CanEnd p tree.now self.old begun.old
            → OnOk result (KeepsExplained p tree.now self.old self.new) }
        // at a desk at which the numbers that it read are still those of the pools, it ends as a whole turn
        ensures tabled { let p = content program.now in (m : Machine) → self.old.frame ≡ frame_of p
            → CanEnd p tree.now self.old begun.old → (b : IsBegunBy p self.old m worker begun.old.node)
            → OnOk result (EndsOn EndsAnyhow p self.old m b.desk.fits.flying worker begun.old.node self.new) }
        // in which the program of the node is solved, where it was begun with that
        ensures solves { let p = content program.now in (m : Machine) → tree_walk p ≡ Ok tree.now → self.old.frame ≡ frame_of p
            → IsSetOut p tree.now self.old begun.old → (b : IsBegunBy p self.old m worker begun.old.node)
            → PointsStand p self.old.lasts.nodes.items
            → OnOk result (SolvesOn p self.old m b.desk.fits.flying worker begun.old.node self.new) }
        ensures progress { OnOk result (Progresses self.old self.new) }
        ensures made { let p = content program.now in (b : BankBooks) → tree_walk p ≡ Ok tree.now → self.old.frame ≡ frame_of p
            → IsSetOut p tree.now self.old begun.old → AreBooksOf p self.old.versions b → CutsAreMade b self.old
            → OnOk result (CutsAreMade b self.new) }
    {
        self.hints.take_back(&begun.task, &mut begun.hint)?;
        self.counts.raise();
        self.commit(alloc, program, tree, worker, begun.node, begun, solved)
    }

    /// The task of a node. None where the node has no data.
    fn begun(
        &self,
        alloc: Global,
        program: &Program,
        tree: &Tree,
        node: u32,
    ) -> Result<Option<Begun>, Memory>
        ensures datum { let p = content program.now in IfOk result (λ all. IfSome all (λ b.
            IsDatumOf b.task.kind p self.now.frame tree.now b.task.datum)) }
        ensures pivots { IfOk result (λ all. IfSome all (λ b. b.task.pivots ≡ self.now.budget.pivots)) }
        ensures node { IfOk result (λ all. IfSome all (λ b. (b.node ≡ node) × (b.task.datum.node ≡ node))) }
        ensures stated { let p = content program.now in tree_walk p ≡ Ok tree.now → self.now.frame ≡ frame_of p → Lives p node
            → IfOk result (λ all. IsSomeAnd all (λ b. IsTaskOf p self.now node b.task)) }
        ensures readings { IfOk result (λ all. IfSome all (λ b. b.readings.items
            ≡ numbers_read (pools_of self.now.kind self.now.banks) (children_in self.now.frame node))) }
    {
        let version = self.versions.of(node);
        let Some(datum) = datum_of(alloc, program, &self.frame, tree, version, self.kind, node)?
        else {
            return Ok(None);
        };
        let read = self
            .banks
            .read(alloc, self.kind, self.frame.children(node))?;
        let trial = self.lasts.trial(alloc, self.frame.parent(node))?;
        let task = Task {
            kind: self.kind,
            datum,
            trial,
            children: read.children,
            pivots: self.budget.pivots,
        };
        Ok(Some(Begun {
            node,
            task,
            readings: read.readings,
            hint: LentHint::none(),
        }))
    }

    /// Keeps the first reason why the method can't go on.
    pub(crate) fn stop_at(&mut self, stop: Open)
        ensures { self.new ≡ record self.old { stop = first_stop self.old.stop stop } }
    {
        if self.stop.is_none() {
            self.stop = Some(stop);
        }
    }

    /// Keeps a reason that lasts for the present run.
    pub(crate) fn stop_for_run(&mut self, stop: Open)
        ensures { let lasting = first_stop self.old.lasting stop in
            self.new ≡ record self.old { stop = first_or self.old.stop lasting; lasting = lasting } }
    {
        if self.lasting.is_none() {
            self.lasting = Some(stop);
        }
        if self.stop.is_none() {
            self.stop = self.lasting;
        }
    }

    /// Stops in a case that never comes of a correct solve. Nothing is claimed of it.
    pub(crate) fn stuck(&mut self)
        ensures { self.new ≡ record self.old { stop = first_stop self.old.stop (Open.Solves self.old.budget.solves) } }
    {
        self.stop_at(Open::Solves(self.budget.solves));
    }
}
