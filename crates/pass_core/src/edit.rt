//! What an edit of the program leaves.
ghost use Rattle.std.specs.Prelude.{◌≡◌, ◌<◌, ◌∷◌, [], false, None, length, IfOk, OnOk};
ghost use Rattle.rationals.specs.Choices.{pick};
ghost use Rattle.scen_defs.specs.Lists.{Each};
ghost use Rattle.scen_defs.specs.Program.{content, Program as ProgramOf};
ghost use Rattle.node_data.specs.Counts.{grown};
ghost use Rattle.cut_banks.specs.Banks.{fit_banks, swept_banks, edited_banks};
ghost use Rattle.node_data.specs.Frames.{frame_of};
ghost use Rattle.pass_core.specs.Versions.{next_version, with_next, next_touch, next_touches, next_versions};
ghost use Rattle.pass_table.specs.Marks.{nothing};
ghost use Rattle.crew_table.specs.Parents.{AreParents};
ghost use Rattle.pass_core.specs.Counting.{after_edit};
ghost use Rattle.pass_core.specs.Explained.{IsUnstopped};
ghost use Rattle.pass_core.specs.Made.{BankBooks, PoolsAreMade, CutsAreMade, HasShiftOf};
ghost use Rattle.pass_core.specs.Tabled.{IsTabled, IsUnused};

use crate::state::State;
use crew_table::Crew;
use cut_defs::{Due, Part, Touch};
use edit_defs::Touched;
use found_ends::{Ends, Lasts};
use frac128::Memory;
use node_data::Frame;
use scen_defs::{Kind, Program};
use std::alloc::Global;

impl State {
    /// The versions of what an edit touches rise: the touches with the versions that stand from then on. What is gone has
    /// version 1.
    pub fn touch(&mut self, alloc: Global, touched: &[Touched]) -> Result<Vec<Touch>, Memory>
        ensures touches { IfOk result (λ touches. touches.items ≡ next_touches touched.now self.old.versions) }
        ensures versions { OnOk result (self.new.versions ≡ next_versions touched.now self.old.versions) }
        ensures others { self.new ≡ record self.old { versions = self.new.versions } }
    {
        let mut touches = Vec::new(alloc);
        for place in touched {
            touches.push(self.raise(*place))?;
        }
        Ok(touches)
    }

    /// The version of a part that is touched rises: the touch with the version that stands from then on.
    fn raise(&mut self, touched: Touched) -> Touch
        ensures touch { result ≡ next_touch touched self.old.versions }
        ensures versions { self.new.versions ≡ with_next touched.part touched.node self.old.versions }
        ensures others { self.new ≡ record self.old { versions = self.new.versions } }
    {
        let Touched { node, part } = touched;
        let version = self.raised(node, part);
        Touch {
            node,
            part,
            version,
        }
    }

    /// The version of a part rises, and is answered.
    fn raised(&mut self, node: u32, part: Part) -> u32
        ensures version { result ≡ next_version part node self.old.versions }
        ensures versions { self.new.versions ≡ with_next part node self.old.versions }
        ensures others { self.new ≡ record self.old { versions = self.new.versions } }
    {
        match part {
            Part::Rows => self.versions.touch_rows(node),
            Part::Costs => self.versions.touch_costs(node),
            Part::Gone => 1,
        }
    }

    /// Takes the program as an edit left it. `dues` are the sweeps for what it touched; `is_grown` says whether nodes came or
    /// went. Each pool is swept for the dues that name it, in their order, and no pool is changed otherwise, but for the pools
    /// of nodes that came or went, which are empty. All else that was found is forgotten, and a Feasible run opens.
    pub fn edited(
        &mut self,
        alloc: Global,
        program: &Program,
        dues: &[Due],
        is_grown: bool,
    ) -> Result<(), Memory>
        ensures banks { OnOk result (self.new.banks ≡ edited_banks is_grown (content program.now).nodes dues.now self.old.banks) }
        ensures versions { OnOk result (self.new.versions
            ≡ pick is_grown (grown (length (content program.now).nodes) self.old.versions) self.old.versions) }
        ensures frame { OnOk result (self.new.frame ≡ pick is_grown (frame_of (content program.now)) self.old.frame) }
        ensures budget { self.new.budget ≡ self.old.budget }
        ensures reasons { OnOk result (IsUnstopped self.new) }
        ensures kind { OnOk result (self.new.kind ≡ Kind.Feasible) }
        ensures points { OnOk result (self.new.lasts.nodes.items ≡ []) }
        ensures counts { OnOk result (self.new.counts ≡ after_edit self.old.counts) }
        ensures begun { OnOk result (self.new.is_begun ≡ false) }
        // nothing stops the method, where the table fitted a machine of the program before, and no node came or went untold
        ensures stop { let p = content program.now in (q : ProgramOf) → IsTabled q self.old
            → (is_grown ≡ false → frame_of p ≡ self.old.frame) → length p.nodes < nothing
            → OnOk result (self.new.stop ≡ None) }
        // the table fits a machine of the program again, where it did so of the one before, and no node came or went untold
        ensures tabled { let p = content program.now in (q : ProgramOf) → IsTabled q self.old
            → (is_grown ≡ false → frame_of p ≡ self.old.frame) → length p.nodes < nothing
            → OnOk result (IsTabled p self.new) }
        // where the shifts of the dues are those of books for which all cuts were made, all cuts are made for these books
        ensures made { (b : BankBooks) → Each (HasShiftOf b) dues.now → PoolsAreMade b self.old.banks
            → OnOk result (CutsAreMade b self.new) }
    {
        self.grow(alloc, program, is_grown)?;
        self.sweep(alloc, dues)?;
        self.begin_anew(alloc, is_grown)
    }

    /// Where nodes came or went, there are places for them from now on.
    fn grow(&mut self, alloc: Global, program: &Program, is_grown: bool) -> Result<(), Memory>
        ensures banks { OnOk result (self.new.banks
            ≡ pick is_grown (fit_banks (content program.now).nodes self.old.banks) self.old.banks) }
        ensures versions { OnOk result (self.new.versions
            ≡ pick is_grown (grown (length (content program.now).nodes) self.old.versions) self.old.versions) }
        ensures frame { OnOk result (self.new.frame ≡ pick is_grown (frame_of (content program.now)) self.old.frame) }
        ensures budget { self.new.budget ≡ self.old.budget }
        ensures table { self.new.table ≡ self.old.table }
        ensures begun { self.new.is_begun ≡ self.old.is_begun }
        ensures counts { self.new.counts ≡ self.old.counts }
    {
        if !is_grown {
            return Ok(());
        }
        self.frame = Frame::of(alloc, program)?;
        self.versions.grow(self.frame.nodes())?;
        self.banks.fit(alloc, program)
    }

    /// Sweeps the pools of all dues, in their order.
    fn sweep(&mut self, alloc: Global, dues: &[Due]) -> Result<(), Memory>
        ensures banks { OnOk result (self.new.banks ≡ swept_banks dues.now self.old.banks) }
        ensures versions { self.new.versions ≡ self.old.versions }
        ensures frame { self.new.frame ≡ self.old.frame }
        ensures budget { self.new.budget ≡ self.old.budget }
        ensures table { self.new.table ≡ self.old.table }
        ensures begun { self.new.is_begun ≡ self.old.is_begun }
        ensures counts { self.new.counts ≡ self.old.counts }
    {
        for due in dues {
            self.sweep_for(alloc, due)?;
        }
        Ok(())
    }

    /// Sweeps the pool of a due.
    fn sweep_for(&mut self, alloc: Global, due: &Due) -> Result<(), Memory>
        ensures banks { OnOk result (self.new.banks ≡ swept_banks (due.now ∷ []) self.old.banks) }
        ensures versions { self.new.versions ≡ self.old.versions }
        ensures frame { self.new.frame ≡ self.old.frame }
        ensures budget { self.new.budget ≡ self.old.budget }
        ensures table { self.new.table ≡ self.old.table }
        ensures begun { self.new.is_begun ≡ self.old.is_begun }
        ensures counts { self.new.counts ≡ self.old.counts }
    {
        if !self.banks.sweep(alloc, due)? {
            self.stuck();
        }
        Ok(())
    }

    /// Nothing is known but the cuts.
    fn begin_anew(&mut self, alloc: Global, is_grown: bool) -> Result<(), Memory>
        ensures banks { self.new.banks ≡ self.old.banks }
        ensures versions { self.new.versions ≡ self.old.versions }
        ensures frame { self.new.frame ≡ self.old.frame }
        ensures budget { self.new.budget ≡ self.old.budget }
        ensures reasons { OnOk result (IsUnstopped self.new) }
        ensures kind { OnOk result (self.new.kind ≡ Kind.Feasible) }
        ensures points { OnOk result (self.new.lasts.nodes.items ≡ []) }
        ensures counts { OnOk result (self.new.counts ≡ after_edit self.old.counts) }
        ensures unused { AreParents self.old.frame.parents → (self.old.is_begun ≡ false → is_grown ≡ false → IsUnused self.old)
            → OnOk result (IsUnused self.new) }
        ensures begun { OnOk result (self.new.is_begun ≡ false) }
        ensures stop { AreParents self.old.frame.parents → OnOk result (self.new.stop ≡ None) }
    {
        self.ends = Ends::none();
        self.lasts = Lasts::none(alloc, 0)?;
        self.stop = None;
        self.lasting = None;
        self.counts.since_item = 0;
        self.renew(alloc, is_grown)?;
        self.kind = Kind::Feasible;
        self.is_begun = false;
        Ok(())
    }

    /// No node is fresh: where something was done, or nodes came or went, all solves are forgotten.
    fn renew(&mut self, alloc: Global, is_grown: bool) -> Result<(), Memory>
        ensures banks { self.new.banks ≡ self.old.banks }
        ensures versions { self.new.versions ≡ self.old.versions }
        ensures frame { self.new.frame ≡ self.old.frame }
        ensures budget { self.new.budget ≡ self.old.budget }
        ensures reasons { IsUnstopped self.old → IsUnstopped self.new }
        ensures points { self.new.lasts ≡ self.old.lasts }
        ensures counts { self.new.counts ≡ self.old.counts }
        ensures unused { AreParents self.old.frame.parents → (self.old.is_begun ≡ false → is_grown ≡ false → IsUnused self.old)
            → OnOk result (IsUnused self.new) }
        ensures stop { AreParents self.old.frame.parents → OnOk result (self.new.stop ≡ self.old.stop) }
    {
        if self.is_begun {
            return self.forget(alloc);
        }
        if is_grown {
            return self.forget(alloc);
        }
        Ok(())
    }

    /// All solves are forgotten.
    fn forget(&mut self, alloc: Global) -> Result<(), Memory>
        ensures banks { self.new.banks ≡ self.old.banks }
        ensures versions { self.new.versions ≡ self.old.versions }
        ensures frame { self.new.frame ≡ self.old.frame }
        ensures budget { self.new.budget ≡ self.old.budget }
        ensures reasons { IsUnstopped self.old → IsUnstopped self.new }
        ensures points { self.new.lasts ≡ self.old.lasts }
        ensures counts { self.new.counts ≡ self.old.counts }
        ensures unused { AreParents self.old.frame.parents → OnOk result (IsUnused self.new) }
        ensures stop { AreParents self.old.frame.parents → OnOk result (self.new.stop ≡ self.old.stop) }
    {
        let workers = self.table.workers();
        let Some(table) = Crew::start(alloc, self.frame.parents(), workers)? else {
            self.stuck();
            return Ok(());
        };
        self.table = table;
        Ok(())
    }
}
