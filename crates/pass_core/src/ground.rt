//! The opening of the next run: each pool gets a cut that holds for every dual of the run before.

ghost use Rattle.std.specs.Prelude.{◌≡◌, ◌+◌, ◌<◌, ◌^◌, ℕ, true, List, None, Ok, length, replicate, IfErr, IfOk, IfSome, IsSomeAnd, OnOk};
ghost use Rattle.std.specs.Prelude.{Some};
ghost use Rattle.scen_defs.specs.Lists.{Each, passes_at};
ghost use Rattle.scen_defs.specs.Program.{content, is_live, Program as ProgramOf};
ghost use Rattle.scen_defs.specs.Valid.{Lives};
ghost use Rattle.scen_defs.specs.Values.{At};
ghost use Rattle.scen_tree.specs.Trees.{Tree as TreeOf, tree_walk};
ghost use Rattle.cut_defs.specs.Stored.{IsMadeFor};
ghost use Rattle.cut_proof.specs.Answers.{Makes};
ghost use Rattle.dual_assemble.specs.Values.{assembled};
ghost use Rattle.node_lp.specs.Problem.{is_priced};
ghost use Rattle.node_data.specs.Frames.{Frame as FrameOf, frame_of};
ghost use Rattle.pass_table.specs.Machine.{Machine};
ghost use Rattle.pass_core.specs.Explained.{AreExplained, FailsToOpen, IsCutOfSolve, KeepsExplained};
ghost use Rattle.pass_core.specs.Made.{BankBooks, run_book, AreBooksOf, CutsAreMade, KeepsMade, IsGroundOf, HasGrounds, cuts_there};
ghost use Rattle.pass_core.specs.Tabled.{IsTabledBy, KeepsTable, KeepsPools, Opens};
ghost use Rattle.pass_core.specs.Reasons.{IsOfOpening, GainsReasons};
ghost use Rattle.pass_core.specs.Turns.{KeepsPoints, Progresses, first_walk, AreFirstCuts, PutsFirstCuts};
ghost use Rattle.pass_core.specs.Turns.{FaultsFirst, IsStuckBefore, PassesBefore, FaultsBefore, OpensAnyhow};
ghost use Rattle.pass_core.specs.Left.{StopsAsStuck, next_kind, OpensRun};
ghost use Rattle.pass_core.specs.Grounds.{OpeningDual, FaultsDual, put_cut, put_cuts, IsNotPut, OneIsNotPut, PutsCut, PutsCuts};

use crate::state::State;
use cut_proof::{CutFault, SharedCut};
use dual_assemble::{assemble, ground_cut};
use found_ends::Lasts;
use frac128::Memory;
use node_data::datum_of;
use proved_report::Open;
use scen_defs::{Kind, Place, Program, Values};
use scen_tree::Tree;
use std::alloc::Global;

/// The run that follows a closed one.
fn next(kind: Kind) -> Kind
    ensures kind { result ≡ next_kind kind }
    ensures priced { is_priced result ≡ true }
{
    match kind {
        Kind::Feasible => Kind::Recession,
        Kind::Recession | Kind::Cost => Kind::Cost,
    }
}

/// Whether a node stands at this place.
fn is_live(program: &Program, node: u32) -> bool
    ensures { result ≡ passes_at is_live node (content program.now).nodes }
{
    match program.nodes.get(node as usize) {
        Some(place) => place.is_some(),
        None => false,
    }
}

/// No cut of any node.
fn none(alloc: Global, nodes: u32) -> Result<Vec<Option<SharedCut>>, Memory>
    ensures { IfOk result (λ cuts. cuts.items ≡ replicate nodes None) }
{
    let mut cuts = Vec::new(alloc);
    for _node in 0..nodes {
        cuts.push(None)?;
    }
    Ok(cuts)
}

/// The cuts of some nodes, each shared; those that aren't there are left out.
fn shared(
    alloc: Global,
    cuts: &[Option<SharedCut>],
    nodes: &[u32],
) -> Result<Vec<SharedCut>, Memory>
    ensures { IfOk result (λ all. all.items ≡ cuts_there cuts.now nodes.now) }
{
    let mut all = Vec::new(alloc);
    for node in nodes {
        if let Some(Some(cut)) = cuts.get(*node as usize) {
            all.push(cut.share()?)?;
        }
    }
    Ok(all)
}

/// The multipliers of a cut.
fn dual_of(alloc: Global, cut: &SharedCut) -> Result<Values, CutFault>
    ensures fails { (p : ProgramOf) (frame : FrameOf) (tree : TreeOf) (pivots : ℕ)
        → IsCutOfSolve p frame tree pivots cut.now → IfErr result (FailsToOpen p frame tree pivots) }
    ensures walk { IfOk result (λ dual. assembled cut.now ≡ Ok dual) }
    ensures faults { IfErr result (FaultsDual Kind.Recession (Some cut.now)) }
{
    Ok(assemble(alloc, cut.cut())?)
}

impl State {
    /// Opens the run behind a closed one. Before a Recession run each of its pools gets the cut of the dual that is 0
    /// everywhere, before a Cost run that of the flat dual of the closed run's root. Where an operation passes, nothing opens.
    pub(crate) fn open_next(
        &mut self,
        alloc: Global,
        program: &Program,
        tree: &Tree,
    ) -> Result<(), Memory>
        ensures explained { OnOk result (KeepsExplained (content program.now) tree.now self.old self.new) }
        ensures tabled { (p : ProgramOf) (m : Machine) → IsTabledBy p self.old m → self.old.is_begun ≡ true → m.run + 1 < 2 ^ 64
            → OnOk result (Opens p m self.new) }
        ensures points { (p : ProgramOf) → OnOk result (KeepsPoints p self.old self.new) }
        ensures made { let p = content program.now in (b : BankBooks) → tree_walk p ≡ Ok tree.now
            → self.old.frame ≡ frame_of p → AreBooksOf p self.old.versions b → CutsAreMade b self.old
            → OnOk result (CutsAreMade b self.new) }
        ensures reasons { let p = content program.now in tree_walk p ≡ Ok tree.now → self.old.frame ≡ frame_of p
            → let told = IsOfOpening self.old.budget.solves (IsStuckBefore p tree.now self.old) (PassesBefore p tree.now self.old) in
            OnOk result (GainsReasons told self.old self.new) }
        ensures opened { OnOk result (self.new.stop ≡ None → OpensRun self.old self.new) }
        ensures first { let p = content program.now in tree_walk p ≡ Ok tree.now → self.old.frame ≡ frame_of p
            → OnOk result (self.new.stop ≡ None → PutsFirstCuts p tree.now self.old self.new) }
        ensures anyhow { let p = content program.now in tree_walk p ≡ Ok tree.now → self.old.frame ≡ frame_of p
            → OnOk result (OpensAnyhow p self.old self.new) }
        // behind a run that isn't a Cost run it opens the next one, or stops the method
        ensures progress { (self.old.kind ≡ Kind.Cost → ⊥) → OnOk result (Progresses self.old self.new) }
    {
        let kind = next(self.kind);
        match self.first_cuts(alloc, program, tree, kind) {
            Ok(cuts) => self.open(alloc, kind, cuts),
            Err(fault) => self.not_opened(fault),
        }
    }

    fn not_opened(&mut self, fault: CutFault) -> Result<(), Memory>
        ensures explained { (p : ProgramOf) (tree : TreeOf)
            → (AreExplained p tree self.old → FailsToOpen p self.old.frame tree self.old.budget.pivots fault)
            → OnOk result (KeepsExplained p tree self.old self.new) }
        ensures pools { OnOk result (KeepsPools self.old self.new) }
        ensures made { (b : BankBooks) → OnOk result (KeepsMade b self.old self.new) }
        ensures points { (p : ProgramOf) → OnOk result (KeepsPoints p self.old self.new) }
        ensures reasons { (p : ProgramOf) (tree : TreeOf) → FaultsBefore p tree self.old fault
            → let told = IsOfOpening self.old.budget.solves (IsStuckBefore p tree self.old) (PassesBefore p tree self.old) in
            OnOk result (GainsReasons told self.old self.new) }
        ensures stops { OnOk result (self.new.stop ≡ None → ⊥) }
        ensures others { OnOk result (self.new ≡ record self.old { stop = self.new.stop }) }
    {
        match fault {
            CutFault::Passed(passed) => {
                self.stop_at(Open::Passed(Place::Ground, passed));
                Ok(())
            }
            CutFault::NotGood => {
                self.stuck();
                Ok(())
            }
            CutFault::Memory => Err(Memory),
        }
    }

    /// The cuts that the next run begins with, which is of this kind, by number.
    fn first_cuts(
        &self,
        alloc: Global,
        program: &Program,
        tree: &Tree,
        kind: Kind,
    ) -> Result<Vec<Option<SharedCut>>, CutFault>
        ensures fails { AreExplained (content program.now) tree.now self.now
            → IfErr result (FailsToOpen (content program.now) self.now.frame tree.now self.now.budget.pivots) }
        ensures made { let p = content program.now in (b : BankBooks) → is_priced kind ≡ true → tree_walk p ≡ Ok tree.now
            → self.now.frame ≡ frame_of p → AreBooksOf p self.now.versions b
            → IfOk result (λ cuts. Each (λ place. IfSome place (IsMadeFor (run_book kind b))) cuts.items) }
        ensures faults { let p = content program.now in tree_walk p ≡ Ok tree.now → self.now.frame ≡ frame_of p
            → kind ≡ next_kind self.now.kind → IfErr result (FaultsBefore p tree.now self.now) }
        ensures first { let p = content program.now in tree_walk p ≡ Ok tree.now → self.now.frame ≡ frame_of p
            → IfOk result (λ cuts. (dual : List At) × (OpeningDual self.now.kind self.now.ends.root dual
            × AreFirstCuts kind p tree.now self.now.versions dual cuts.items)) }
    {
        match self.opening_dual(alloc) {
            Ok(dual) => self.ground_cuts(alloc, program, tree, kind, &dual),
            Err(fault) => Err(fault),
        }
    }

    /// The dual whose cuts the next run begins with.
    fn opening_dual(&self, alloc: Global) -> Result<Values, CutFault>
        ensures fails { (p : ProgramOf) (tree : TreeOf) → AreExplained p tree self.now
            → IfErr result (FailsToOpen p self.now.frame tree self.now.budget.pivots) }
        ensures faults { IfErr result (FaultsDual self.now.kind self.now.ends.root) }
        ensures dual { IfOk result (λ dual. OpeningDual self.now.kind self.now.ends.root dual) }
    {
        match (self.kind, &self.ends.root) {
            (Kind::Recession, Some(root)) => dual_of(alloc, root),
            _ => Ok(Values::empty(alloc)),
        }
    }

    /// The cuts of all nodes, from the greatest number on, by number.
    fn ground_cuts(
        &self,
        alloc: Global,
        program: &Program,
        tree: &Tree,
        kind: Kind,
        dual: &Values,
    ) -> Result<Vec<Option<SharedCut>>, CutFault>
        ensures fails { IfErr result (FailsToOpen (content program.now) self.now.frame tree.now self.now.budget.pivots) }
        ensures made { let p = content program.now in (b : BankBooks) → is_priced kind ≡ true → tree_walk p ≡ Ok tree.now
            → self.now.frame ≡ frame_of p → AreBooksOf p self.now.versions b
            → IfOk result (λ cuts. Each (λ place. IfSome place (IsMadeFor (run_book kind b))) cuts.items) }
        ensures faults { let p = content program.now in tree_walk p ≡ Ok tree.now → self.now.frame ≡ frame_of p
            → IfErr result (FaultsFirst kind p tree.now self.now.versions dual.now) }
        ensures first { let p = content program.now in tree_walk p ≡ Ok tree.now → self.now.frame ≡ frame_of p
            → IfOk result (λ cuts. AreFirstCuts kind p tree.now self.now.versions dual.now cuts.items) }
    {
        let nodes = self.frame.nodes();
        let mut cuts = none(alloc, nodes)?;
        for node in (0..nodes).rev() {
            if !is_live(program, node) {
                continue;
            }
            let cut = self.node_cut(alloc, program, tree, kind, dual, node, &cuts)?;
            if (node as usize) < cuts.len() {
                cuts[node as usize] = Some(cut);
            }
        }
        Ok(cuts)
    }

    /// The cut of a node that the dual and the cuts of its children make.
    fn node_cut(
        &self,
        alloc: Global,
        program: &Program,
        tree: &Tree,
        kind: Kind,
        dual: &Values,
        node: u32,
        cuts: &[Option<SharedCut>],
    ) -> Result<SharedCut, CutFault>
        ensures fails { IfErr result (FailsToOpen (content program.now) self.now.frame tree.now self.now.budget.pivots) }
        ensures ground { let p = content program.now in (b : BankBooks) → is_priced kind ≡ true → tree_walk p ≡ Ok tree.now
            → self.now.frame ≡ frame_of p → AreBooksOf p self.now.versions b → Lives p node
            → HasGrounds p (run_book kind b) (node + 1) cuts.now → IfOk result (IsGroundOf (run_book kind b) node) }
        ensures first { let p = content program.now in tree_walk p ≡ Ok tree.now → self.now.frame ≡ frame_of p → Lives p node
            → Makes (first_walk kind p tree.now self.now.versions dual.now cuts.now node) result }
    {
        let version = self.versions.of(node);
        let Some(datum) = datum_of(alloc, program, &self.frame, tree, version, kind, node)? else {
            return Err(CutFault::NotGood);
        };
        let below = shared(alloc, cuts, self.frame.children(node))?;
        ground_cut(alloc, &datum, tree.total(node), dual, &below)
    }

    /// Puts the cuts into the pools of the next run, and opens it.
    fn open(
        &mut self,
        alloc: Global,
        kind: Kind,
        cuts: Vec<Option<SharedCut>>,
    ) -> Result<(), Memory>
        ensures explained { (p : ProgramOf) (tree : TreeOf) → OnOk result (KeepsExplained p tree self.old self.new) }
        ensures tabled { (p : ProgramOf) (m : Machine) → IsTabledBy p self.old m → self.old.is_begun ≡ true → m.run + 1 < 2 ^ 64
            → OnOk result (Opens p m self.new) }
        ensures points { (p : ProgramOf) → OnOk result (KeepsPoints p self.old self.new) }
        ensures made { (b : BankBooks) → Each (λ place. IfSome place (IsMadeFor (run_book kind b))) cuts.items → CutsAreMade b self.old
            → OnOk result (CutsAreMade b self.new) }
        ensures reasons { let stuck = OneIsNotPut kind cuts.items self.old.banks in
            OnOk result (GainsReasons (IsOfOpening self.old.budget.solves stuck (λ o. ⊥)) self.old self.new) }
        ensures opened { kind ≡ next_kind self.old.kind → OnOk result (OpensRun self.old self.new) }
        ensures puts { OnOk result (self.new.stop ≡ None → PutsCuts kind cuts.items self.old.banks self.new.banks) }
        ensures banks { OnOk result (self.new.banks ≡ put_cuts kind cuts.items self.old.banks) }
        ensures stuck { OnOk result (StopsAsStuck self.old self.new) }
    {
        self.put_all(kind, &cuts)?;
        self.kind = kind;
        self.lasts = Lasts::none(alloc, self.frame.nodes())?;
        self.ends.root = None;
        self.lasting = None;
        self.table.open();
        Ok(())
    }

    /// Puts the cuts into the pools of a run of this kind.
    fn put_all(&mut self, kind: Kind, cuts: &[Option<SharedCut>]) -> Result<(), Memory>
        ensures explained { (p : ProgramOf) (tree : TreeOf) → OnOk result (KeepsExplained p tree self.old self.new) }
        ensures kept { OnOk result (KeepsTable self.old self.new) }
        ensures made { (b : BankBooks) → Each (λ place. IfSome place (IsMadeFor (run_book kind b))) cuts.now
            → OnOk result (KeepsMade b self.old self.new) }
        ensures reasons { let stuck = OneIsNotPut kind cuts.now self.old.banks in
            OnOk result (GainsReasons (IsOfOpening self.old.budget.solves stuck (λ o. ⊥)) self.old self.new) }
        ensures others { OnOk result (self.new ≡ record self.old { banks = self.new.banks; stop = self.new.stop }) }
        ensures puts { OnOk result (self.new.stop ≡ None → PutsCuts kind cuts.now self.old.banks self.new.banks) }
        ensures banks { OnOk result (self.new.banks ≡ put_cuts kind cuts.now self.old.banks) }
        ensures stuck { OnOk result (StopsAsStuck self.old self.new) }
    {
        for place in cuts {
            self.put(kind, place)?;
        }
        Ok(())
    }

    /// Puts a cut, where there is one, into the pool of its node in a run of this kind; the root has none.
    fn put(&mut self, kind: Kind, place: &Option<SharedCut>) -> Result<(), Memory>
        ensures explained { (p : ProgramOf) (tree : TreeOf) → OnOk result (KeepsExplained p tree self.old self.new) }
        ensures kept { OnOk result (KeepsTable self.old self.new) }
        ensures made { (b : BankBooks) → IfSome place.now (IsMadeFor (run_book kind b)) → OnOk result (KeepsMade b self.old self.new) }
        ensures reasons { let stuck = IsSomeAnd place.now (IsNotPut kind self.old.banks) in
            OnOk result (GainsReasons (IsOfOpening self.old.budget.solves stuck (λ o. ⊥)) self.old self.new) }
        ensures banks { OnOk result (self.new.banks ≡ put_cut kind place.now self.old.banks) }
        ensures others { OnOk result (self.new ≡ record self.old { banks = self.new.banks; stop = self.new.stop }) }
        ensures puts { OnOk result (self.new.stop ≡ None → (self.old.stop ≡ None) × PutsCut kind place.now self.old.banks self.new.banks) }
        ensures stuck { OnOk result (StopsAsStuck self.old self.new) }
    {
        let Some(cut) = place else {
            return Ok(());
        };
        if cut.cut().node() == 0 {
            return Ok(());
        }
        let own = cut.share()?;
        let is_put = self.banks.ground(kind, own)?;
        if is_put {
            return Ok(());
        }
        self.stuck();
        Ok(())
    }
}
