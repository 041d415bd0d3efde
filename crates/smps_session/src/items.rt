//! The items of a script, one behind the other.
ghost use Rattle.std.specs.Prelude.{◌≡◌, ◌+◌, ◌∷◌, [], ℕ, OnOk};
ghost use Rattle.scen_defs.specs.Program.{content, Program as ProgramOf};
ghost use Rattle.edit_defs.specs.After.{after};
ghost use Rattle.edit_defs.specs.Limits.{counts};
ghost use Rattle.edit_script.specs.Allowed.{AreAllowed, IsAllowed};
ghost use Rattle.pass_core.specs.declared.budget.Budget.{Budget as BudgetOf};
ghost use Rattle.nested_method.specs.Stands.{HasFewNodes, StandsOn, StandsCleared};
ghost use Rattle.smps_session.specs.Comes.{TakesEdit, IsUnderWay};
ghost use Rattle.smps_session.specs.Courses.{course_at, TellsOne, IsBehind};

use crate::told::{Told, told_one};
use crate::whole::StatedLimits;
use edit_defs::{Act, Counts, Edit, Item};
use frac128::Memory;
use nested_method::Method;
use pass_core::Budget;
use run_watch::Watch;
use scen_defs::Program;
use std::alloc::Global;
use whole_guess::WholeHint;

/// How far a script has come.
#[derive(Drop)]
pub(crate) struct Progress {
    /// What the program's nodes have.
    pub(crate) counted: Counts,
    pub(crate) method: Method,
    /// The number of the next report.
    pub(crate) number: u32,
    /// What the last solve of the whole program leaves to the next.
    pub(crate) hint: WholeHint,
}

impl Progress {
    /// Applies an edit in place, after so many solves were committed since the item before it, or where nothing is left to find. The
    /// method goes on with the program after it.
    fn change<W: Watch>(
        &mut self,
        alloc: Global,
        program: &mut Program,
        edit: &Edit,
        work: u64,
        watch: &mut W,
    ) -> Result<(), Memory>
        requires allowed { IsAllowed (content program.old) edit.now }
        requires counted { self.old.counted ≡ counts (content program.old).nodes }
        ensures after { OnOk result (content program.new ≡ after (content program.old) edit.now) }
        ensures counted { OnOk result (self.new.counted ≡ counts (content program.new).nodes) }
        ensures number { self.new.number ≡ self.old.number }
        ensures stands { (budget : BudgetOf) → StandsOn (content program.old) budget self.old.method
            → OnOk result (StandsOn (content program.new) budget self.new.method) }
        ensures takes { (budget : BudgetOf) → StandsOn (content program.old) budget self.old.method
            → OnOk result (TakesEdit (content program.old) work edit.now self.old.method self.new.method) }
        ensures cleared { HasFewNodes (content program.new) → OnOk result (StandsCleared self.new.method) }
        ensures way { (budget : BudgetOf) (start : ProgramOf) (came : ℕ) → StandsOn (content program.old) budget self.old.method
            → IsUnderWay budget start came (content program.old) self.old.method
            → OnOk result (IsUnderWay budget start (came + 1) (content program.new) self.new.method) }
    {
        self.method.work(alloc, program, work, watch)?;
        self.method.edit(alloc, program, &mut self.counted, edit)
    }

    /// Tells the report of the program as it is.
    fn tell<W: Watch>(
        &mut self,
        alloc: Global,
        program: &Program,
        budget: Budget,
        stated: StatedLimits,
        tolds: &mut Vec<Told>,
        watch: &mut W,
    ) -> Result<(), Memory>
        requires stands { StandsOn (content program.now) budget self.old.method }
        requires cleared { HasFewNodes (content program.now) → StandsCleared self.old.method }
        ensures counted { self.new.counted ≡ self.old.counted }
        ensures stands { OnOk result (StandsOn (content program.now) budget self.new.method) }
        ensures cleared { HasFewNodes (content program.now) → OnOk result (StandsCleared self.new.method) }
        ensures way { (start : ProgramOf) (came : ℕ) → IsUnderWay budget start came (content program.now) self.old.method
            → OnOk result (IsUnderWay budget start (came + 1) (content program.now) self.new.method) }
        ensures told { (start : ProgramOf) (came : ℕ) → IsUnderWay budget start came (content program.now) self.old.method
            → OnOk result (TellsOne budget stated start
            (course_at (content program.now) self.old.method came self.old.number tolds.old.items)
            (course_at (content program.now) self.new.method (came + 1) self.new.number tolds.new.items)) }
    {
        let told = told_one(
            alloc,
            program,
            &mut self.method,
            self.number,
            budget,
            stated,
            &mut self.hint,
            watch,
        )?;
        let next = self.number.checked_add(1).ok_or(Memory)?;
        tolds.push(told)?;
        self.number = next;
        Ok(())
    }

    /// Takes an item: an edit, or a SOLVE, of which a report is told.
    pub(crate) fn take<W: Watch>(
        &mut self,
        alloc: Global,
        program: &mut Program,
        item: &Item,
        budget: Budget,
        stated: StatedLimits,
        tolds: &mut Vec<Told>,
        watch: &mut W,
    ) -> Result<(), Memory>
        requires allowed { AreAllowed (content program.old) (item.now ∷ []) }
        requires counted { self.old.counted ≡ counts (content program.old).nodes }
        requires stands { StandsOn (content program.old) budget self.old.method }
        requires cleared { HasFewNodes (content program.old) → StandsCleared self.old.method }
        ensures counted { OnOk result (self.new.counted ≡ counts (content program.new).nodes) }
        ensures stands { OnOk result (StandsOn (content program.new) budget self.new.method) }
        ensures cleared { HasFewNodes (content program.new) → OnOk result (StandsCleared self.new.method) }
        ensures way { (start : ProgramOf) (came : ℕ) → IsUnderWay budget start came (content program.old) self.old.method
            → OnOk result (IsUnderWay budget start (came + 1) (content program.new) self.new.method) }
        ensures course { (start : ProgramOf) (came : ℕ) → IsUnderWay budget start came (content program.old) self.old.method
            → OnOk result (IsBehind budget stated start item.now.work item.now.act
            (course_at (content program.old) self.old.method came self.old.number tolds.old.items)
            (course_at (content program.new) self.new.method (came + 1) self.new.number tolds.new.items)) }
    {
        match &item.act {
            Act::Change(edit) => self.change(alloc, program, edit, item.work, watch),
            Act::Solve => self.tell(alloc, program, budget, stated, tolds, watch),
        }
    }
}
