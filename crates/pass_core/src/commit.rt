//! What a solve leaves.
ghost use Rattle.std.specs.Prelude.{◌≡◌, ◌⊎◌, ◌<◌, ℕ, true, false, None, Some, Ok, Err, IfOk, IfSome, OnOk, OnErr};
ghost use Rattle.rationals.specs.Passes.{Operation};
ghost use Rattle.rationals.specs.Choices.{pick};
ghost use Rattle.scen_defs.specs.Program.{content, node_at, Program as ProgramOf};
ghost use Rattle.scen_tree.specs.Trees.{Tree as TreeOf};
ghost use Rattle.cut_defs.specs.Stored.{source_of, IsMadeFor};
ghost use Rattle.node_lp.specs.declared.solved.Solved.{Solved as SolvedOf};
ghost use Rattle.node_lp.specs.Tested.{IsToldOf};
ghost use Rattle.cut_banks.specs.Banks.{pools_of};
ghost use Rattle.pass_core.specs.Reasons.{AreBehind, PassesAtCost, pool_halts, cut_halts, point_halts, cost_halts, solve_halts};
ghost use Rattle.pass_core.specs.Reasons.{IsOfSolve, GainsReasons};
ghost use Rattle.pass_table.specs.Machine.{Machine, Flight};
ghost use Rattle.pass_table.specs.Fits.{Fits};
ghost use Rattle.found_ends.specs.Lasts.{kept, joined_points};
ghost use Rattle.found_ends.specs.Costs.{joined_cost};
ghost use Rattle.found_ends.specs.Ends.{with_lower, cheaper, after_root, after_policy};
ghost use Rattle.pass_core.specs.Counting.{first_stop, is_added, after_answer};
ghost use Rattle.pass_core.specs.Made.{BankBooks, run_book, IsMadeAbout, KeepsMade};
ghost use Rattle.pass_core.specs.Explained.{IsTask, GivesCut, cut_given, point_found, FindsPoint, KeepsExplained};
ghost use Rattle.pass_core.specs.Tabled.{pool_number, IsSolving, EndsSolve, Drops, RaisesPool, KeepsPools, committed_by, IsAbout};
ghost use Rattle.pass_core.specs.Turns.{AreUpTo, KeepsPoints, EndsBy};
ghost use Rattle.pass_core.specs.Left.{StaysInRun, IsOffered, OffersCut, ends_behind, ends_without, TakesComplete};
ghost use Rattle.pass_core.specs.Left.{TakesPoint, LeavesNone, LeavesBy, with_offered, offered_banks, KeepsStops, LeavesAnyhow};

use crate::state::{Begun, State};
use cut_pool::Offer;
use cut_proof::SharedCut;
use dual_assemble::join_policy;
use found_ends::{Bounded, Priced, cost};
use frac128::{ArithmeticFault, Form, Frac, Memory};
use node_lp::Solved;
use proved_report::Open;
use scen_defs::{Kind, Place, Program, Values};
use scen_tree::Tree;
use std::alloc::Global;

/// Where an operation of a solve stands.
fn solve_place(in_cut: bool, solve: u64) -> Place
    ensures { result ≡ pick in_cut (Place.Cut solve) (Place.Solve solve) }
{
    if in_cut {
        Place::Cut(solve)
    } else {
        Place::Solve(solve)
    }
}

impl State {
    /// Takes what the worker's solve gave, which is counted: its cut is offered to the node's pool, and its point becomes the node's
    /// last one.
    pub(crate) fn commit(
        &mut self,
        alloc: Global,
        program: &Program,
        tree: &Tree,
        worker: u32,
        node: u32,
        begun: &Begun,
        solved: Solved,
    ) -> Result<(), Memory>
        ensures explained { IsTask (content program.now) self.old.frame tree.now self.old.budget.pivots begun.now.task
            → IsToldOf begun.now.task solved → OnOk result (KeepsExplained (content program.now) tree.now self.old self.new) }
        ensures tabled { (m : Machine) (f : Flight) → IsSolving self.old worker m f begun.now.readings.items
            → ((k : ℕ) → m.number k ≡ pool_number self.old k) → f.node ≡ node → IsAbout node solved
            → OnOk result (EndsSolve worker (EndsBy worker begun.now.task.trial solved) self.old self.new m f) }
        ensures points { (p : ProgramOf) → AreUpTo p (node_at p.nodes node).stage begun.now.task.trial
            → IfSome (point_found solved) (AreUpTo p (node_at p.nodes node).stage) → OnOk result (KeepsPoints p self.old self.new) }
        ensures made { (b : BankBooks) → IfSome (cut_given solved) (IsMadeAbout (run_book self.old.kind b) node)
            → OnOk result (KeepsMade b self.old self.new) }
        ensures reasons { let trial = begun.now.task.trial in
            let in_cost = PassesAtCost (content program.now) tree.now self.old.lasts.nodes.items node trial solved in
            let halts = solve_halts self.old.kind self.old.banks node trial solved in_cost in
            OnOk result (GainsReasons (IsOfSolve self.old.counts.all self.old.budget.solves solved halts) self.old self.new) }
        ensures stays { OnOk result (StaysInRun self.old self.new) }
        ensures left { (m : Machine) (f : Flight) → IsSolving self.old worker m f begun.now.readings.items
            → ((k : ℕ) → m.number k ≡ pool_number self.old k) → f.node ≡ node → IsAbout node solved → OnOk result (self.new.stop ≡ None
            → LeavesBy (content program.now) tree.now node begun.now.task.trial solved self.old self.new) }
        ensures anyhow { OnOk result (LeavesAnyhow node begun.now.task.trial solved self.old self.new) }
    {
        match solved {
            Solved::Point { point, value, cut } => {
                self.point(worker, node, begun, point, value, cut)?;
                self.complete(alloc, program, tree)
            }
            Solved::NoPoint { cut } => self.no_point(worker, node, begun, cut),
            Solved::PivotsEnded => {
                self.left_open(worker, Open::Pivots(self.counts.all));
                Ok(())
            }
            Solved::Passed { in_cut, passed } => {
                let place = solve_place(in_cut, self.counts.all);
                self.left_open(worker, Open::Passed(place, passed));
                Ok(())
            }
            Solved::Loose | Solved::NotGood => {
                self.left_stuck(worker);
                Ok(())
            }
        }
    }

    /// The worker's solve leaves no last solve.
    fn left_open(&mut self, worker: u32, stop: Open)
        ensures drops { Drops worker self.old.table self.new.table }
        ensures others { self.new ≡ record self.old { stop = first_stop self.old.stop stop; table = self.new.table } }
    {
        self.stop_at(stop);
        self.table.forget(worker);
    }

    /// The worker's solve ended as none does.
    pub(crate) fn left_stuck(&mut self, worker: u32)
        ensures drops { Drops worker self.old.table self.new.table }
        ensures others { self.new ≡ record self.old {
          stop = first_stop self.old.stop (Open.Solves self.old.budget.solves);
          table = self.new.table;
        } }
    {
        self.stuck();
        self.table.forget(worker);
    }

    /// A solve that found a point.
    fn point(
        &mut self,
        worker: u32,
        node: u32,
        begun: &Begun,
        point: Form,
        value: Frac,
        cut: Option<SharedCut>,
    ) -> Result<(), Memory>
        ensures explained { (p : ProgramOf) (tree : TreeOf) → FindsPoint p self.old.frame tree self.old.budget.pivots point
            → IfSome cut (GivesCut p self.old.frame tree self.old.budget.pivots begun.now.task.trial)
            → OnOk result (KeepsExplained p tree self.old self.new) }
        ensures tabled { (m : Machine) (f : Flight) → IsSolving self.old worker m f begun.now.readings.items
            → ((k : ℕ) → m.number k ≡ pool_number self.old k) → f.node ≡ node → IfSome cut (λ c. (source_of c).node ≡ node)
            → OnOk result (EndsSolve worker (EndsBy worker begun.now.task.trial (Solved.Point point value cut)) self.old self.new m f) }
        ensures points { (p : ProgramOf) → AreUpTo p (node_at p.nodes node).stage begun.now.task.trial
            → AreUpTo p (node_at p.nodes node).stage point → OnOk result (KeepsPoints p self.old self.new) }
        ensures made { (b : BankBooks) → IfSome cut (IsMadeAbout (run_book self.old.kind b) node)
            → OnOk result (KeepsMade b self.old self.new) }
        ensures reasons { (all : SolvedOf) →
            let halts = solve_halts self.old.kind self.old.banks node begun.now.task.trial (Solved.Point point value cut) (λ o. ⊥) in
            OnOk result (GainsReasons (IsOfSolve self.old.counts.all self.old.budget.solves all halts) self.old self.new) }
        ensures behind { OnOk result
            (AreBehind self.old.lasts.nodes.items node begun.now.task.trial point self.new.lasts.nodes.items) }
        ensures stays { OnOk result (StaysInRun self.old self.new) }
        ensures left { OnOk result (self.new.stop ≡ None → TakesPoint node begun.now.task.trial point value cut self.old self.new) }
        ensures banks { OnOk result ((self.new.banks ≡ self.old.banks)
            ⊎ (self.new.banks ≡ offered_banks self.old.kind node cut begun.now.task.trial self.old.banks)) }
        ensures stops { OnOk result (KeepsStops self.old self.new) }
    {
        if !self.keep(worker, node, &begun.task.trial, point)? {
            return Ok(());
        }
        let is_raised = self.take_bound(node, &begun.task.trial, value, cut)?;
        self.commit_last(worker, node, begun, true, is_raised);
        Ok(())
    }

    /// The cut of a solve that found a point: the root's is kept with its value, another is offered. Whether a pool took it.
    fn take_bound(
        &mut self,
        node: u32,
        trial: &Form,
        value: Frac,
        cut: Option<SharedCut>,
    ) -> Result<bool, Memory>
        ensures explained { (p : ProgramOf) (tree : TreeOf)
            → IfSome cut (GivesCut p self.old.frame tree self.old.budget.pivots trial.now)
            → OnOk result (KeepsExplained p tree self.old self.new) }
        ensures raises { IfSome cut (λ c. (source_of c).node ≡ node) → IfOk result (λ told. RaisesPool told node self.old self.new) }
        ensures made { (b : BankBooks) → IfSome cut (IsMadeAbout (run_book self.old.kind b) node)
            → OnOk result (KeepsMade b self.old self.new) }
        ensures lasts { OnOk result (self.new.lasts ≡ self.old.lasts) }
        ensures low { IfOk result (λ told. told ≡ true → 0 < node) }
        ensures reasons { (all : SolvedOf) → let halts = cut_halts self.old.kind self.old.banks node trial.now cut in
            OnOk result (GainsReasons (IsOfSolve self.old.counts.all self.old.budget.solves all halts) self.old self.new) }
        ensures stays { OnOk result (StaysInRun self.old self.new) }
        ensures offers { OnOk result (self.new.stop ≡ None
            → OffersCut self.old.kind node cut trial.now self.old.banks self.new.banks) }
        ensures ends { OnOk result (self.new.ends ≡ ends_behind self.old.kind node value cut self.old.ends) }
        ensures banks { OnOk result (self.new.banks ≡ offered_banks self.old.kind node cut trial.now self.old.banks) }
        ensures stops { OnOk result (KeepsStops self.old self.new) }
    {
        match cut {
            Some(cut) if node > 0 => self.offer(cut, trial),
            Some(cut) => {
                self.take_root(value, cut)?;
                Ok(false)
            }
            None => Ok(false),
        }
    }

    /// A solve that showed that there is no point.
    fn no_point(
        &mut self,
        worker: u32,
        node: u32,
        begun: &Begun,
        cut: SharedCut,
    ) -> Result<(), Memory>
        ensures explained { (p : ProgramOf) (tree : TreeOf)
            → GivesCut p self.old.frame tree self.old.budget.pivots begun.now.task.trial cut
            → OnOk result (KeepsExplained p tree self.old self.new) }
        ensures tabled { (m : Machine) (f : Flight) → IsSolving self.old worker m f begun.now.readings.items
            → ((k : ℕ) → m.number k ≡ pool_number self.old k) → f.node ≡ node → (source_of cut).node ≡ node
            → OnOk result (EndsSolve worker (EndsBy worker begun.now.task.trial (Solved.NoPoint cut)) self.old self.new m f) }
        ensures points { (p : ProgramOf) → OnOk result (KeepsPoints p self.old self.new) }
        ensures made { (b : BankBooks) → IsMadeAbout (run_book self.old.kind b) node cut → OnOk result (KeepsMade b self.old self.new) }
        ensures reasons { (all : SolvedOf) →
            let halts = solve_halts self.old.kind self.old.banks node begun.now.task.trial (Solved.NoPoint cut) (λ o. ⊥) in
            OnOk result (GainsReasons (IsOfSolve self.old.counts.all self.old.budget.solves all halts) self.old self.new) }
        ensures stays { OnOk result (StaysInRun self.old self.new) }
        ensures left { OnOk result (self.new.stop ≡ None → LeavesNone node begun.now.task.trial cut self.old self.new) }
        ensures banks { OnOk result
            (self.new.banks ≡ offered_banks self.old.kind node (Some cut) begun.now.task.trial self.old.banks) }
        ensures stops { OnOk result (KeepsStops self.old self.new) }
    {
        self.lasts.forget(node);
        let is_raised = self.take_ray(node, &begun.task.trial, cut)?;
        self.commit_last(worker, node, begun, false, is_raised);
        Ok(())
    }

    /// The cut of a solve that found none: the root's shows that there is no point, another is offered. Whether a pool took it.
    fn take_ray(&mut self, node: u32, trial: &Form, cut: SharedCut) -> Result<bool, Memory>
        ensures explained { (p : ProgramOf) (tree : TreeOf)
            → GivesCut p self.old.frame tree self.old.budget.pivots trial.now cut
            → OnOk result (KeepsExplained p tree self.old self.new) }
        ensures raises { (source_of cut).node ≡ node → IfOk result (λ told. RaisesPool told node self.old self.new) }
        ensures made { (b : BankBooks) → IsMadeAbout (run_book self.old.kind b) node cut → OnOk result (KeepsMade b self.old self.new) }
        ensures lasts { OnOk result (self.new.lasts ≡ self.old.lasts) }
        ensures low { IfOk result (λ told. told ≡ true → 0 < node) }
        ensures reasons { (all : SolvedOf) → let halts = cut_halts self.old.kind self.old.banks node trial.now (Some cut) in
            OnOk result (GainsReasons (IsOfSolve self.old.counts.all self.old.budget.solves all halts) self.old self.new) }
        ensures stays { OnOk result (StaysInRun self.old self.new) }
        ensures offers { OnOk result (self.new.stop ≡ None
            → OffersCut self.old.kind node (Some cut) trial.now self.old.banks self.new.banks) }
        ensures ends { OnOk result (self.new.ends ≡ ends_without node cut self.old.ends) }
        ensures banks { OnOk result (self.new.banks ≡ offered_banks self.old.kind node (Some cut) trial.now self.old.banks) }
        ensures stops { OnOk result (KeepsStops self.old self.new) }
    {
        if node > 0 {
            return self.offer(cut, trial);
        }
        self.ends.nowhere = Some(cut);
        Ok(false)
    }

    /// Keeps the point of a node. False where its values can't be joined with those above, which never comes.
    fn keep(&mut self, worker: u32, node: u32, trial: &Form, point: Form) -> Result<bool, Memory>
        ensures kept { result ≡ Ok true → kept self.old.lasts.nodes.items node trial.now point ≡ Ok self.new.lasts.nodes.items }
        ensures others { result ≡ Ok true → self.new ≡ record self.old { lasts = self.new.lasts } }
        ensures passed { result ≡ Ok false → (p : Operation) × (kept self.old.lasts.nodes.items node trial.now point ≡ Err p) }
        ensures stuck { result ≡ Ok false → self.new ≡ record self.old {
          stop = first_stop self.old.stop (Open.Solves self.old.budget.solves);
          table = self.new.table;
        } }
        ensures explained { (p : ProgramOf) (tree : TreeOf) → FindsPoint p self.old.frame tree self.old.budget.pivots point
            → OnOk result (KeepsExplained p tree self.old self.new) }
        ensures err { OnErr result (self.new ≡ self.old) }
        ensures drops { result ≡ Ok false → Drops worker self.old.table self.new.table }
        ensures reasons { (all : SolvedOf) → let halts = point_halts trial.now point in
            OnOk result (GainsReasons (IsOfSolve self.old.counts.all self.old.budget.solves all halts) self.old self.new) }
    {
        match self.lasts.keep(node, trial, point) {
            Ok(()) => Ok(true),
            Err(ArithmeticFault::Memory) => Err(Memory),
            Err(ArithmeticFault::Passed(_)) => {
                self.left_stuck(worker);
                Ok(false)
            }
        }
    }

    /// The cut of the root's last solve; in a Cost run its value may be the lower end.
    fn take_root(&mut self, value: Frac, cut: SharedCut) -> Result<(), Memory>
        ensures ok { OnOk result (self.new ≡ record self.old { ends = after_root self.old.kind self.old.ends value cut }) }
        ensures err { OnErr result (self.new ≡ self.old) }
    {
        match self.kind {
            Kind::Cost => self.take_value(value, cut),
            Kind::Feasible | Kind::Recession => {
                self.ends.root = Some(cut);
                Ok(())
            }
        }
    }

    /// The cut of the root's last solve, whose value may be the lower end.
    fn take_value(&mut self, value: Frac, cut: SharedCut) -> Result<(), Memory>
        ensures ok { OnOk result (self.new ≡ record self.old {
          ends = record (with_lower self.old.ends (record { value = value; cut = cut })) { root = Some cut };
        }) }
        ensures err { OnErr result (self.new ≡ self.old) }
    {
        let own = cut.share()?;
        self.ends.take_lower(Bounded { value, cut: own });
        self.ends.root = Some(cut);
        Ok(())
    }

    /// Offers a cut to the pool of its node, and tells whether it was added.
    fn offer(&mut self, cut: SharedCut, trial: &Form) -> Result<bool, Memory>
        ensures explained { (p : ProgramOf) (tree : TreeOf)
            → GivesCut p self.old.frame tree self.old.budget.pivots trial.now cut
            → OnOk result (KeepsExplained p tree self.old self.new) }
        ensures raises { IfOk result (λ told. RaisesPool told (source_of cut).node self.old self.new) }
        ensures made { (b : BankBooks) → IsMadeFor (run_book self.old.kind b) cut → OnOk result (KeepsMade b self.old self.new) }
        ensures lasts { OnOk result (self.new.lasts ≡ self.old.lasts) }
        ensures reasons { (all : SolvedOf) → let halts = pool_halts (pools_of self.old.kind self.old.banks) trial.now cut in
            OnOk result (GainsReasons (IsOfSolve self.old.counts.all self.old.budget.solves all halts) self.old self.new) }
        ensures stays { OnOk result (StaysInRun self.old self.new) }
        ensures offered { OnOk result (self.new.stop ≡ None → IsOffered self.old.kind cut trial.now self.old.banks self.new.banks) }
        ensures ends { OnOk result (self.new.ends ≡ self.old.ends) }
        ensures banks { OnOk result (self.new.banks ≡ with_offered self.old.kind cut trial.now self.old.banks) }
        ensures stops { OnOk result (KeepsStops self.old self.new) }
    {
        match self.banks.offer(self.kind, cut, trial)? {
            Some(offer) => Ok(self.judged(offer)),
            None => {
                self.stuck();
                Ok(false)
            }
        }
    }

    /// Whether a pool's answer says that the cut was added.
    fn judged(&mut self, offer: Offer) -> bool
        ensures added { result ≡ is_added offer }
        ensures state { self.new ≡ after_answer offer self.old }
    {
        match offer {
            Offer::Added => true,
            Offer::NotNeeded(_) => false,
            Offer::Passed(passed) => {
                self.stop_for_run(Open::Passed(Place::Cut(self.counts.all), passed));
                false
            }
            Offer::Stale { .. } => {
                self.stuck();
                false
            }
        }
    }

    /// The worker's solve becomes its node's last one; where its cut was added, the number of the node's pool rose.
    fn commit_last(
        &mut self,
        worker: u32,
        node: u32,
        begun: &Begun,
        has_point: bool,
        is_raised: bool,
    )
        ensures others { self.new ≡ record self.old { table = self.new.table } }
        ensures commits { (m : Machine) (f : Flight) → IsSolving self.old worker m f begun.now.readings.items → f.node ≡ node
            → (is_raised ≡ true → 0 < node) → Fits self.new.table (committed_by worker m f has_point is_raised) }
    {
        let numbers = self.banks.numbers(self.kind);
        self.table
            .commit(worker, numbers, &begun.readings, has_point);
        if is_raised {
            self.table.raise(node);
        }
    }

    /// Where the run is complete, the joined policy and its cost.
    fn complete(&mut self, alloc: Global, program: &Program, tree: &Tree) -> Result<(), Memory>
        ensures explained { OnOk result (KeepsExplained (content program.now) tree.now self.old self.new) }
        ensures pools { OnOk result (KeepsPools self.old self.new) }
        ensures made { (b : BankBooks) → OnOk result (KeepsMade b self.old self.new) }
        ensures lasts { OnOk result (self.new.lasts ≡ self.old.lasts) }
        // behind a point that was kept and a cut that was offered the method isn't stuck
        ensures reasons { (all : SolvedOf)
            → let cost = joined_cost (content program.now).nodes tree.now.chances.totals self.old.lasts.nodes.items in
            OnOk result (GainsReasons (IsOfSolve self.old.counts.all self.old.budget.solves all (cost_halts cost)) self.old self.new) }
        ensures stays { OnOk result (StaysInRun self.old self.new) }
        ensures banks { OnOk result (self.new.banks ≡ self.old.banks) }
        ensures left { (m : Machine) → Fits self.old.table m → OnOk result (self.new.stop ≡ None → (self.old.stop ≡ None)
            × TakesComplete self.old.table.complete (content program.now) tree.now self.old.kind self.old.lasts.nodes.items
            self.old.ends self.new.ends) }
        ensures stops { OnOk result (KeepsStops self.old self.new) }
    {
        if !self.table.is_complete() {
            return Ok(());
        }
        match cost(program, tree, &self.lasts) {
            Ok(cost) => self.take_policy(alloc, cost),
            Err(passed) => {
                self.forget_direction();
                self.stop_for_run(Open::Passed(Place::Cost(self.counts.all), passed));
                Ok(())
            }
        }
    }

    /// In a Recession run no direction is known from now on.
    fn forget_direction(&mut self)
        ensures { self.new ≡ record self.old { ends = record self.old.ends { direction = self.new.ends.direction } } }
    {
        if self.kind == Kind::Recession {
            self.ends.direction = None;
        }
    }

    /// A complete state's policy, of this cost.
    fn take_policy(&mut self, alloc: Global, cost: Frac) -> Result<(), Memory>
        ensures ok { OnOk result (self.new ≡ record self.old {
          ends = after_policy self.old.kind self.old.ends
              (record { cost = cost; policy = joined_points self.old.lasts.nodes.items });
        }) }
        ensures err { OnErr result (self.new ≡ self.old) }
    {
        match self.kind {
            Kind::Recession => self.take_direction(alloc, cost),
            Kind::Feasible | Kind::Cost => self.take_upper(alloc, cost),
        }
    }

    /// The policy is the direction.
    fn take_direction(&mut self, alloc: Global, cost: Frac) -> Result<(), Memory>
        ensures ok { OnOk result (self.new ≡ record self.old {
          ends = record self.old.ends {
            direction = Some (record { cost = cost; policy = joined_points self.old.lasts.nodes.items });
          };
        }) }
        ensures err { OnErr result (self.new ≡ self.old) }
    {
        let policy = self.joined(alloc)?;
        self.ends.direction = Some(Priced { cost, policy });
        Ok(())
    }

    /// The policy is the upper end, where it is the first or costs less.
    fn take_upper(&mut self, alloc: Global, cost: Frac) -> Result<(), Memory>
        ensures ok { OnOk result (self.new ≡ record self.old {
          ends = record self.old.ends {
            upper = cheaper self.old.ends.upper (record { cost = cost; policy = joined_points self.old.lasts.nodes.items });
          };
        }) }
        ensures err { OnErr result (self.new ≡ self.old) }
    {
        if self.ends.wants(cost) {
            let policy = self.joined(alloc)?;
            self.ends.upper = Some(Priced { cost, policy });
        }
        Ok(())
    }

    /// The points of all nodes.
    fn joined(&self, alloc: Global) -> Result<Values, Memory>
        ensures { IfOk result (λ policy. policy ≡ joined_points self.now.lasts.nodes.items) }
    {
        let points = self.lasts.points(alloc)?;
        join_policy(alloc, &points)
    }
}
