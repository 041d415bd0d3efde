//! How the method goes on behind an edit of its program.
ghost use Rattle.std.specs.Prelude.{◌≡◌, ℕ, [], ◌∷◌, false, List, IfOk, IfNone, OnOk, MatchOption};
ghost use Rattle.rationals.specs.Choices.{pick};
ghost use Rattle.scen_defs.specs.Program.{content, Program as ProgramOf};
ghost use Rattle.scen_defs.specs.declared.report.Kind.TheVariants.{Feasible};
ghost use Rattle.edit_defs.specs.After.{after};
ghost use Rattle.edit_defs.specs.Limits.{counts};
ghost use Rattle.edit_defs.specs.Touches.{touches};
ghost use Rattle.edit_script.specs.Allowed.{IsAllowed};
ghost use Rattle.cut_banks.specs.Banks.{edited_banks};
ghost use Rattle.pass_core.specs.Counting.{after_edit};
ghost use Rattle.pass_core.specs.Versions.{next_versions};
ghost use Rattle.pass_core.specs.declared.budget.Budget.{Budget as BudgetOf};
ghost use Rattle.pass_core.specs.Explained.{IsUnstopped};
ghost use Rattle.node_data.specs.Frames.{frame_of};
ghost use Rattle.nested_method.specs.Edited.{is_grown, dues_of, fit_versions, KeepsTabled, ClearsStop, IsEdited, HasNoTree};
ghost use Rattle.edit_defs.specs.declared.edit.Edit.{Edit as EditOf};
ghost use Rattle.nested_method.specs.Stands.{StandsOn, GoesOn, CarriesVersions};
ghost use Rattle.nested_method.specs.Scripted.{IsInScript, GoesOnInScript};

use crate::method::{Method, Working, treeless};
use cut_defs::Due;
use edit_defs::{Counts, Edit};
use edit_retire::{rows_version, shift, sweeps, touches};
use edit_script::applied;
use frac128::Memory;
use proved_report::Open;
use scen_defs::Program;
use scen_tree::Tree;
use std::alloc::Global;

/// Whether nodes come or go with an edit.
fn is_grown(edit: &Edit) -> bool
    ensures { result ≡ is_grown edit.now }
{
    match edit {
        Edit::Set { .. } | Edit::Prob { .. } => false,
        Edit::Drop { .. } | Edit::Add { .. } => true,
    }
}

impl Working {
    /// The sweeps that are due for an edit, by the program before it. The versions of what it touches rise.
    fn dues(&mut self, alloc: Global, program: &Program, edit: &Edit) -> Result<Vec<Due>, Memory>
        requires { IsAllowed (content program.now) edit.now }
        ensures dues { IfOk result (λ dues. dues.items ≡ dues_of (content program.now) edit.now self.old.state.versions) }
        ensures versions { OnOk result (self.new.state.versions
            ≡ next_versions (touches (content program.now) edit.now) self.old.state.versions) }
        ensures others { OnOk result (self.new ≡ record self.old {
          state = record self.old.state { versions = self.new.state.versions };
        }) }
    {
        let touched = touches(alloc, program, edit)?;
        let raised = self.state.touch(alloc, &touched)?;
        let moved = shift(program, edit, rows_version(&raised));
        sweeps(alloc, program, &raised, &moved)
    }

    /// Takes the program as an edit left it, with its tree. `dues` are the sweeps for the edit; `is_grown` says whether nodes came
    /// or went.
    fn replanted(
        &mut self,
        alloc: Global,
        program: &Program,
        tree: Tree,
        dues: &[Due],
        is_grown: bool,
    ) -> Result<(), Memory>
        ensures tree { OnOk result (self.new.tree ≡ tree) }
        ensures frame { OnOk result (self.new.state.frame ≡ pick is_grown (frame_of (content program.now)) self.old.state.frame) }
        ensures budget { self.new.state.budget ≡ self.old.state.budget }
        ensures reasons { OnOk result (IsUnstopped self.new.state) }
        ensures stop { OnOk result (ClearsStop (content program.now) is_grown self.old.state self.new.state) }
        ensures kind { OnOk result (self.new.state.kind ≡ Feasible) }
        ensures begun { OnOk result (self.new.state.is_begun ≡ false) }
        ensures points { OnOk result (self.new.state.lasts.nodes.items ≡ []) }
        ensures counts { OnOk result (self.new.state.counts ≡ after_edit self.old.state.counts) }
        ensures versions { OnOk result (self.new.state.versions
            ≡ fit_versions is_grown (content program.now).nodes self.old.state.versions) }
        ensures banks { OnOk result (self.new.state.banks
            ≡ edited_banks is_grown (content program.now).nodes dues.now self.old.state.banks) }
        ensures tabled { OnOk result (KeepsTabled (content program.now) is_grown self.old.state self.new.state) }
    {
        self.tree = tree;
        self.state.edited(alloc, program, dues, is_grown)
    }

    /// Edits the program in place, and goes on with the program after it. Why it can't, where that has no tree.
    fn edit(
        &mut self,
        alloc: Global,
        program: &mut Program,
        counted: &mut Counts,
        edit: &Edit,
    ) -> Result<Option<Open>, Memory>
        requires allowed { IsAllowed (content program.old) edit.now }
        requires counted { counted.old ≡ counts (content program.old).nodes }
        ensures after { OnOk result (content program.new ≡ after (content program.old) edit.now) }
        ensures counted { OnOk result (counted.new ≡ counts (content program.new).nodes) }
        ensures method { IfOk result (λ stop. MatchOption stop (IsEdited (content program.old) edit.now self.old self.new)
            (HasNoTree (after (content program.old) edit.now))) }
        ensures tabled { IfOk result (λ stop. IfNone stop
            (KeepsTabled (after (content program.old) edit.now) (is_grown edit.now) self.old.state self.new.state)) }
    {
        let dues = self.dues(alloc, program, edit)?;
        applied(alloc, program, counted, edit)?;
        match Tree::of(alloc, program) {
            Ok(tree) => {
                self.replanted(alloc, program, tree, &dues, is_grown(edit))?;
                Ok(None)
            }
            Err(fault) => Ok(Some(treeless(fault)?)),
        }
    }
}

impl Method {
    /// Has the other method take the place of this one.
    fn turn_into(&mut self, other: Method)
        ensures { self.new ≡ other }
    {
        *self = other;
    }

    /// Edits the program in place, and goes on with the program after it. `counted` has what the program's nodes have, before and
    /// after. The pools are swept for what the edit touches: cuts that don't rest on it are kept, cuts that it shifts are repaired,
    /// and the others go. A method that couldn't go on begins with the program after it.
    pub fn edit(
        &mut self,
        alloc: Global,
        program: &mut Program,
        counted: &mut Counts,
        edit: &Edit,
    ) -> Result<(), Memory>
        requires allowed { IsAllowed (content program.old) edit.now }
        requires counted { counted.old ≡ counts (content program.old).nodes }
        ensures after { OnOk result (content program.new ≡ after (content program.old) edit.now) }
        ensures counted { OnOk result (counted.new ≡ counts (content program.new).nodes) }
        ensures method { OnOk result (GoesOn (content program.old) edit.now self.old self.new) }
        // what stands on the program before the edit stands on the program after it
        ensures stands { (budget : BudgetOf) → StandsOn (content program.old) budget self.old
            → OnOk result (StandsOn (content program.new) budget self.new) }
        ensures touches { (budget : BudgetOf) → StandsOn (content program.old) budget self.old
            → OnOk result (CarriesVersions (content program.old) edit.now self.old self.new) }
        // where it is the next edit of a script, the method goes on in the history of that, or begins anew
        ensures made { (budget : BudgetOf) (first : ProgramOf) (edits rest : List EditOf) (came : ℕ)
            → StandsOn (content program.old) budget self.old
            → IsInScript first edits came (content program.old) (edit.now ∷ rest) self.old
            → OnOk result (GoesOnInScript first edits came (content program.new) rest self.new) }
    {
        match self {
            Method::Working(working) => {
                let budget = working.state.budget();
                if let Some(why) = working.edit(alloc, program, counted, edit)? {
                    self.turn_into(Method::Idle(why, budget));
                }
                Ok(())
            }
            Method::Idle(_, budget) => {
                let budget = *budget;
                applied(alloc, program, counted, edit)?;
                let begun = Method::begin(alloc, program, budget)?;
                self.turn_into(begun);
                Ok(())
            }
        }
    }
}
